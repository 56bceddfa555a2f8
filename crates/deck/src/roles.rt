// Roles: how many, their sub-role rows and their range rows.
ghost use Rattle.std.specs.Prelude.{◌<◌};
ghost use Rattle.deck.specs.Content.{deck_of};
ghost use Rattle.deck.specs.Deck.{class_count, role_count, role_at};
ghost use Rattle.deck.specs.Reads.{CountRead, RowRead};

use crate::accepted::Deck;
use crate::numbers::RoleId;
use crate::rows::Span;

impl Deck<'_> {
    // R.
    pub fn role_count(&self) -> u32
        ensures { CountRead (role_count (deck_of self.now.bytes.now)) 1024 result }
    {
        self.parts().trailer().part_count(1)
    }

    // The sub-role row of a role, the role itself among them.
    pub fn sub_roles(&self, role: RoleId) -> Span
        requires role_bound { role.0 < role_count (deck_of self.now.bytes.now) }
        ensures { RowRead self.now.bytes.now (role_count (deck_of self.now.bytes.now)) (role_at (deck_of self.now.bytes.now) role.0).sub_roles 1 role.0 0 result }
    {
        self.span(1, role.0 as usize, 0)
    }

    // The range row of a role.
    pub fn range_of(&self, role: RoleId) -> Span
        requires role_bound { role.0 < role_count (deck_of self.now.bytes.now) }
        ensures { RowRead self.now.bytes.now (class_count (deck_of self.now.bytes.now)) (role_at (deck_of self.now.bytes.now) role.0).range 1 role.0 2 result }
    {
        self.span(1, role.0 as usize, 2)
    }
}
