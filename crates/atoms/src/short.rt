// A question of all that a concept's Ands lead to, by a short plain walk first: most concepts lead to few.
ghost use Rattle.std.specs.Prelude.{◌≡◌, map, ◌<◌};
ghost use Rattle.deck.specs.Accepted.{content};
ghost use Rattle.deck.specs.Deck.{concept_count};
ghost use Rattle.deck.specs.Reads.{list_of, ListFits};
ghost use Rattle.eval.specs.Lists.{every};
ghost use Rattle.atoms.specs.Leaves.{every_leaf, Decides};

use crate::leaves::{Question, every_leaf, is_and, leaf_answer};
use crate::lists::operand;
use deck::Deck;
use deck::concepts::ConceptExpr;
use deck::numbers::ConceptId;
use deck::rows::Span;

// Why a walk ended before its end: at an answer of no, or as no visit was left.
#[derive(Clone, Copy, Debug, PartialEq, Eq)]
pub enum Stop {
    No,
    Undecided,
}

// Does all that the concept's Ands lead to answer yes? Each concept takes one of the visits left; so many are left after a yes.
#[cycle(walk_concept_walk_operands)]
fn walk_concept(
    deck: &Deck,
    question: &Question,
    concept: ConceptId,
    left: u32,
) -> Result<u32, Stop>
    requires concept_bound { concept.0 < concept_count (content deck.now) }
    ensures { Decides result (every_leaf (content deck.now) question.now concept.0) }
{
    if left == 0 {
        return Err(Stop::Undecided);
    }
    let expr = deck.concept_at(concept);
    match expr {
        ConceptExpr::And(list) => walk_operands(deck, question, concept, list, left - 1),
        _ => {
            if leaf_answer(deck, question, concept) {
                Ok(left - 1)
            } else {
                Err(Stop::No)
            }
        }
    }
}

// The same of each operand in turn, all below `owner`.
#[cycle(walk_concept_walk_operands)]
fn walk_operands(
    deck: &Deck,
    question: &Question,
    owner: ConceptId,
    list: Span,
    left: u32,
) -> Result<u32, Stop>
    requires owner_bound { owner.0 < concept_count (content deck.now) }
    requires list_fits { ListFits deck.now.bytes.now owner.0 list }
    ensures { Decides result (every (map (every_leaf (content deck.now) question.now) (list_of deck.now.bytes.now list))) }
{
    let mut rest = left;
    for i in 0..list.count {
        rest = walk_concept(deck, question, operand(deck, owner, list, i), rest)?;
    }
    Ok(rest)
}

// Does all that the concept's Ands lead to answer yes? By a walk of at most 64 concepts, and else as `every_leaf` does it.
#[inline(always)]
fn answer_walked(deck: &Deck, question: &Question, concept: ConceptId) -> bool
    requires concept_bound { concept.0 < concept_count (content deck.now) }
    ensures { result ≡ every_leaf (content deck.now) question.now concept.0 }
{
    match walk_concept(deck, question, concept, 64) {
        Ok(_) => true,
        Err(Stop::No) => false,
        Err(Stop::Undecided) => every_leaf(deck, question, concept),
    }
}

// The same: a concept that is no And answers for itself. Inlined, as the question is mostly known there: a call for each rule and element takes 1.15 times as long.
#[inline(always)]
pub fn answer_soon(deck: &Deck, question: &Question, concept: ConceptId) -> bool
    requires concept_bound { concept.0 < concept_count (content deck.now) }
    ensures { result ≡ every_leaf (content deck.now) question.now concept.0 }
{
    if is_and(deck, concept) {
        return answer_walked(deck, question, concept);
    }
    leaf_answer(deck, question, concept)
}
