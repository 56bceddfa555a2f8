// Classes: how many, which are unsatisfiable, and their rows.
ghost use Rattle.std.specs.Prelude.{◌≡◌, ◌<◌};
ghost use Rattle.deck.specs.Content.{deck_of};
ghost use Rattle.deck.specs.Deck.{class_count, class_at};
ghost use Rattle.deck.specs.Reads.{CountRead, RowRead};

use crate::accepted::Deck;
use crate::numbers::ClassId;
use crate::rows::Span;

impl Deck<'_> {
    // N.
    pub fn class_count(&self) -> u32
        ensures { CountRead (class_count (deck_of self.now.bytes.now)) 4096 result }
    {
        self.parts().trailer().part_count(0)
    }

    // M.
    pub fn real_count(&self) -> u32
        ensures { CountRead (deck_of self.now.bytes.now).real (class_count (deck_of self.now.bytes.now)) result }
    {
        self.parts().trailer().word(1)
    }

    pub fn is_unsatisfiable(&self, class: ClassId) -> bool
        requires class_bound { class.0 < class_count (deck_of self.now.bytes.now) }
        ensures { result ≡ (class_at (deck_of self.now.bytes.now) class.0).unsatisfiable }
    {
        self.parts().part_word(0, class.0 as usize, 0) == 1
    }

    // The row of a class.
    pub fn subsumers_of(&self, class: ClassId) -> Span
        requires class_bound { class.0 < class_count (deck_of self.now.bytes.now) }
        ensures { RowRead self.now.bytes.now (class_count (deck_of self.now.bytes.now)) (class_at (deck_of self.now.bytes.now) class.0).row 0 class.0 1 result }
    {
        self.span(0, class.0 as usize, 1)
    }
}
