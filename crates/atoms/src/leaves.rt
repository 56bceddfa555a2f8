// Questions of all that a concept's Ands lead to.
ghost use Rattle.std.specs.Prelude.{◌≡◌, false, ◌∷◌, [], map, ◌<◌, drop};
ghost use Rattle.deck.specs.Accepted.{content};
ghost use Rattle.deck.specs.Deck.{concept_count, concept_at};
ghost use Rattle.deck.specs.Reads.{list_of, ListFits};
ghost use Rattle.eval.specs.Lists.{every};
ghost use Rattle.atoms.specs.Leaves.{IsLeaf, holds_atom, allows, answer, every_leaf, leaves};

use crate::labels::has_bit;
use crate::lists::operand;
use crate::marks::Leaves;
use deck::Deck;
use deck::concepts::ConceptExpr;
use deck::numbers::{ClassId, ConceptId};
use deck::rows::Span;

// Is it Top? Is it no atom? Is it no atom that the label lacks?
#[derive(Clone, Copy)]
pub enum Question<'a> {
    Universal,
    Atomless,
    Held(&'a [u64]),
}

impl Question<'_> {
    // The answer of an atom.
    fn holds_atom(&self, class: ClassId) -> bool
        ensures { result ≡ holds_atom self.now class.0 }
    {
        match self {
            Question::Held(label) => {
                class.0 as usize / 64 < label.len() && has_bit(label, class.0)
            }
            _ => false,
        }
    }

    // The answer of a concept that is neither Top nor an atom.
    fn allows(&self) -> bool
        ensures { result ≡ allows self.now }
    {
        match self {
            Question::Universal => false,
            _ => true,
        }
    }
}

// Is it an And?
#[inline(always)]
pub fn is_and(deck: &Deck, concept: ConceptId) -> bool
    requires concept_bound { concept.0 < concept_count (content deck.now) }
    ensures leaf { result ≡ false → IsLeaf (concept_at (content deck.now) concept.0) }
    ensures alone { result ≡ false → leaves (content deck.now) concept.0 ≡ concept.0 ∷ [] }
{
    let expr = deck.concept_at(concept);
    match expr {
        ConceptExpr::And(_) => true,
        _ => false,
    }
}

// The answer of a concept that is no And.
#[inline(always)]
pub fn leaf_answer(deck: &Deck, question: &Question, concept: ConceptId) -> bool
    requires concept_bound { concept.0 < concept_count (content deck.now) }
    ensures { result ≡ answer (content deck.now) question.now concept.0 }
{
    let expr = deck.concept_at(concept);
    match expr {
        ConceptExpr::Top => true,
        ConceptExpr::Atomic(class) => question.holds_atom(class),
        _ => question.allows(),
    }
}

// Does all that the operands from the first on lead to answer yes, all below `owner`? What is shared is asked once.
fn rest_answer(deck: &Deck, question: &Question, owner: ConceptId, list: Span, first: u32) -> bool
    requires owner_bound { owner.0 < concept_count (content deck.now) }
    requires list_fits { ListFits deck.now.bytes.now owner.0 list }
    ensures { result ≡ every (map (every_leaf (content deck.now) question.now) (drop first (list_of deck.now.bytes.now list))) }
{
    for leaf in Leaves::of_operands(deck, owner, list, first) {
        if !leaf_answer(deck, question, leaf) {
            return false;
        }
    }
    true
}

// The same of the whole list: marks only from the first And on.
fn operands_answer(deck: &Deck, question: &Question, owner: ConceptId, list: Span) -> bool
    requires owner_bound { owner.0 < concept_count (content deck.now) }
    requires list_fits { ListFits deck.now.bytes.now owner.0 list }
    ensures { result ≡ every (map (every_leaf (content deck.now) question.now) (list_of deck.now.bytes.now list)) }
{
    for i in 0..list.count {
        let o = operand(deck, owner, list, i);
        if is_and(deck, o) {
            return rest_answer(deck, question, owner, list, i);
        }
        if !leaf_answer(deck, question, o) {
            return false;
        }
    }
    true
}

// Does all that the concept's Ands lead to answer yes?
pub fn every_leaf(deck: &Deck, question: &Question, concept: ConceptId) -> bool
    requires concept_bound { concept.0 < concept_count (content deck.now) }
    ensures { result ≡ every_leaf (content deck.now) question.now concept.0 }
{
    let expr = deck.concept_at(concept);
    match expr {
        ConceptExpr::And(list) => operands_answer(deck, question, concept, list),
        _ => leaf_answer(deck, question, concept),
    }
}
