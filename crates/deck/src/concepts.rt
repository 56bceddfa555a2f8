// Concepts, by their records.
ghost use Rattle.std.specs.Prelude.{◌≡◌, ◌<◌};
ghost use Rattle.deck.specs.Content.{deck_of};
ghost use Rattle.deck.specs.Deck.{concept_count};
ghost use Rattle.deck.specs.Exprs.{expr_at};
ghost use Rattle.deck.specs.Reads.{CountRead, ConceptRead};

use crate::accepted::Deck;
use crate::numbers::{ClassId, ConceptId, IndividualId, RoleWord};
use crate::rows::Span;

#[derive(Clone, Copy)]
pub enum ConceptExpr {
    Top,
    Bot,
    Atomic(ClassId),
    Nominal(IndividualId),
    SelfRestriction(RoleWord),
    Not(ConceptId),
    And(Span),
    Or(Span),
    Some(RoleWord, ConceptId),
    All(RoleWord, ConceptId),
    Min(u32, RoleWord, ConceptId),
    Max(u32, RoleWord, ConceptId),
}

// No TryFrom: a tag of an accepted deck always has a concept, so there is no error to give.
fn expr(tag: u32, x: u32, y: u32, z: u32) -> ConceptExpr
    requires { tag < 12 }
    ensures { result ≡ expr_at tag x y z }
{
    match tag {
        0 => ConceptExpr::Top,
        1 => ConceptExpr::Bot,
        2 => ConceptExpr::Atomic(ClassId(x)),
        3 => ConceptExpr::Nominal(IndividualId(x)),
        4 => ConceptExpr::SelfRestriction(RoleWord(x)),
        5 => ConceptExpr::Not(ConceptId(x)),
        6 => ConceptExpr::And(Span { start: x, count: y }),
        7 => ConceptExpr::Or(Span { start: x, count: y }),
        8 => ConceptExpr::Some(RoleWord(x), ConceptId(y)),
        9 => ConceptExpr::All(RoleWord(x), ConceptId(y)),
        10 => ConceptExpr::Min(x, RoleWord(y), ConceptId(z)),
        _ => ConceptExpr::Max(x, RoleWord(y), ConceptId(z)),
    }
}

impl Deck<'_> {
    // C.
    pub fn concept_count(&self) -> u32
        ensures { CountRead (concept_count (deck_of self.now.bytes.now)) 16384 result }
    {
        self.parts().trailer().part_count(3)
    }

    pub fn concept_at(&self, concept: ConceptId) -> ConceptExpr
        requires concept_bound { concept.0 < concept_count (deck_of self.now.bytes.now) }
        ensures { ConceptRead self.now.bytes.now concept.0 result }
    {
        let parts = self.parts();
        let k = concept.0 as usize;
        expr(
            parts.part_word(3, k, 0),
            parts.part_word(3, k, 1),
            parts.part_word(3, k, 2),
            parts.part_word(3, k, 3),
        )
    }
}
