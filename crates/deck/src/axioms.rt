// Axioms, by their records.
ghost use Rattle.std.specs.Prelude.{◌<◌};
ghost use Rattle.deck.specs.Content.{deck_of};
ghost use Rattle.deck.specs.Deck.{axiom_count};
ghost use Rattle.deck.specs.Reads.{CountRead, AxiomRead};

use crate::accepted::Deck;

// A tag, 0 to 25, and the three fields that the tag gives a meaning. No enum: document 01 has `check_axiom` as a match on the copied tag.
#[derive(Clone, Copy, Debug, PartialEq, Eq)]
pub struct AxiomRecord {
    pub tag: u32,
    pub first: u32,
    pub second: u32,
    pub third: u32,
}

impl Deck<'_> {
    // A.
    pub fn axiom_count(&self) -> u32
        ensures { CountRead (axiom_count (deck_of self.now.bytes.now)) 16384 result }
    {
        self.parts().trailer().part_count(4)
    }

    pub fn axiom_at(&self, axiom: u32) -> AxiomRecord
        requires axiom_bound { «axiom» < axiom_count (deck_of self.now.bytes.now) }
        ensures { AxiomRead self.now.bytes.now «axiom» result }
    {
        let parts = self.parts();
        let k = axiom as usize;
        AxiomRecord {
            tag: parts.part_word(4, k, 0),
            first: parts.part_word(4, k, 1),
            second: parts.part_word(4, k, 2),
            third: parts.part_word(4, k, 3),
        }
    }
}
