// Facts, and how many axioms were dropped.
ghost use Rattle.std.specs.Prelude.{◌≡◌, ◌<◌};
ghost use Rattle.deck.specs.Content.{deck_of};
ghost use Rattle.deck.specs.Deck.{fact_count};
ghost use Rattle.deck.specs.Reads.{CountRead, FactRead};

use crate::accepted::Deck;
use crate::numbers::{ClassId, RoleId};

// Each element of class `from` has an edge of the role into class `to`.
#[derive(Clone, Copy)]
pub struct FactRecord {
    pub from: ClassId,
    pub role: RoleId,
    pub to: ClassId,
}

impl Deck<'_> {
    // The number of facts.
    pub fn fact_count(&self) -> u32
        ensures { CountRead (fact_count (deck_of self.now.bytes.now)) 16384 result }
    {
        self.parts().trailer().part_count(5)
    }

    pub fn fact_at(&self, fact: u32) -> FactRecord
        requires fact_bound { fact < fact_count (deck_of self.now.bytes.now) }
        ensures { FactRead self.now.bytes.now fact result }
    {
        let parts = self.parts();
        let k = fact as usize;
        FactRecord {
            from: ClassId(parts.part_word(5, k, 0)),
            role: RoleId(parts.part_word(5, k, 1)),
            to: ClassId(parts.part_word(5, k, 2)),
        }
    }

    // D.
    pub fn dropped_count(&self) -> u32
        ensures { result ≡ (deck_of self.now.bytes.now).dropped }
    {
        self.parts().trailer().word(2)
    }
}
