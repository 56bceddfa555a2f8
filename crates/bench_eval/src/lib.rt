// What tests/bench/eval.c times: judging one concept over a lent structure.
#![tactic(auto)]

ghost use Rattle.std.specs.Prelude.{◌≡◌};
ghost use Rattle.eval.specs.Entry.{shape_of, concept_answer};
ghost use Rattle.bench_eval.specs.Bench.{answer_word};

use deck::numbers::{ConceptId, Element};
use deck::refusal::Refusal;
use eval::entry::eval_concept_in;
use eval::judgement::Judgement;

// 0 False, 1 True, 2 + tag Unresolved, 100 + number Refused.
fn word(answer: Result<Judgement, Refusal>) -> u64
    ensures { result ≡ answer_word answer }
{
    match answer {
        Err(refusal) => 100 + refusal.number() as u64,
        Ok(judgement) => match judgement {
            Judgement::False => 0,
            Judgement::True => 1,
            Judgement::Unresolved(construct) => 2 + u32::from(construct) as u64,
        },
    }
}

#[unsafe(no_mangle)]
pub extern "C" fn judge_one(
    deck: &[u8],
    labels: &[u64],
    elements: u32,
    edges: &[[u32; 3]],
    edge_count: u32,
    concept: u32,
    element: u32,
) -> u64
    ensures { result ≡ answer_word (concept_answer deck.now labels.now edges.now (shape_of elements edge_count) concept element) }
{
    word(eval_concept_in(
        deck,
        labels,
        elements,
        edges,
        edge_count,
        ConceptId(concept),
        Element(element),
    ))
}
