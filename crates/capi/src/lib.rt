// The verifier's entry points for a program in C or Rust, on numbers and slices: a slice passes as a pointer and a
// length. include/style_deck.h says to a caller what each argument is. Each function returns 0 or the number of a
// refusal, and what else it answers goes into four words that the caller lends; `style_deck_fault_word` returns a word,
// `style_deck_report` a length.
#![tactic(auto)]

mod words;

ghost use Rattle.std.specs.Prelude.{◌≡◌, ◌<◌, ◌≤◌, take};
ghost use Rattle.deck.specs.Refusal.{no_word};
ghost use Rattle.deck.specs.Content.{deck_of};
ghost use Rattle.eval.specs.Entry.{shape_of};
ghost use Rattle.eval.specs.Lent.{structure_of};
ghost use Rattle.capi.specs.Words.{told};
ghost use Rattle.capi.specs.Calls as spec;
ghost use Rattle.capi.specs.Calls.{check_deck, fault_word, eval_concept, check_axiom, called, bounds_of};
ghost use Rattle.capi.specs.Promises.{FaultNamed, Judged, Checked, Relied};
ghost use Rattle.model.specs.declared.outcome.Outcome.{Outcome};
ghost use Rattle.report.specs.Lines.{outcome_word};
ghost use Rattle.report.specs.Text.{reported, Confirms};
ghost use Rattle.report.specs.Text as text;

use build::bounds::Bounds;
use deck::check_deck;
use deck::numbers::{ConceptId, Element};
use deck::refusal::Refusal;
use eval::entry::{check_axiom_in, eval_concept_in};
use model::run::run;
use report::report;
use words::{deck_number, deck_word, tell_judgement, tell_summary, tell_verdict};

// Is the deck in order?
#[unsafe(no_mangle)]
pub extern "C" fn style_deck_check(deck: &[u8]) -> u32
    ensures { result ≡ check_deck deck.now }
{
    deck_number(check_deck(deck))
}

// The word of refusal 12, 13 or 14, counted from word 0 of the deck; 4294967295 where the deck has no such fault.
#[unsafe(no_mangle)]
pub extern "C" fn style_deck_fault_word(deck: &[u8]) -> u32
    ensures is { result ≡ fault_word deck.now }
    ensures named { result < no_word → FaultNamed deck.now result }
    ensures known { 12 ≤ check_deck deck.now → result < no_word }
{
    deck_word(check_deck(deck))
}

// Is the element in the concept, in the structure of the first `elements` labels and the first `edge_count` edges?
#[unsafe(no_mangle)]
pub extern "C" fn style_deck_eval_concept(
    deck: &[u8],
    labels: &[u64],
    elements: u32,
    edges: &[[u32; 3]],
    edge_count: u32,
    concept: u32,
    element: u32,
    answer: &mut [u32],
) -> u32
    ensures is { told result answer.new ≡ eval_concept deck.now labels.now edges.now (shape_of elements edge_count) concept element answer.old }
    ensures right { result ≡ 0 → Judged (deck_of deck.now) (structure_of (deck_of deck.now) labels.now edges.now (shape_of elements edge_count)) concept element answer.new }
{
    if answer.len() < 4 {
        return Refusal::ShortBuffer.number();
    }
    tell_judgement(
        answer,
        eval_concept_in(
            deck,
            labels,
            elements,
            edges,
            edge_count,
            ConceptId(concept),
            Element(element),
        ),
    )
}

// Is the axiom satisfied in that structure?
#[unsafe(no_mangle)]
pub extern "C" fn style_deck_check_axiom(
    deck: &[u8],
    labels: &[u64],
    elements: u32,
    edges: &[[u32; 3]],
    edge_count: u32,
    axiom: u32,
    answer: &mut [u32],
) -> u32
    ensures is { told result answer.new ≡ check_axiom deck.now labels.now edges.now (shape_of elements edge_count) «axiom» answer.old }
    ensures justified { result ≡ 0 → Checked (deck_of deck.now) (structure_of (deck_of deck.now) labels.now edges.now (shape_of elements edge_count)) «axiom» answer.new }
{
    if answer.len() < 4 {
        return Refusal::ShortBuffer.number();
    }
    tell_verdict(
        answer,
        check_axiom_in(deck, labels, elements, edges, edge_count, axiom),
    )
}

// Reads the deck, builds its structure within the bounds up to the last phase, and judges every axiom in it.
#[unsafe(no_mangle)]
pub extern "C" fn style_deck_run(
    deck: &[u8],
    max_elements: u32,
    max_edges: u32,
    max_rounds: u32,
    last_phase: u32,
    labels: &mut [u64],
    edges: &mut [[u32; 3]],
    log: &mut [u32],
    verdicts: &mut [u32],
    answer: &mut [u32],
) -> u32
    ensures is { called (told result answer.new) labels.new edges.new log.new verdicts.new
        ≡ spec.run deck.now (bounds_of max_elements max_edges max_rounds) last_phase labels.old edges.old log.old verdicts.old answer.old }
    ensures trusted { result ≡ 0 → Relied (deck_of deck.now) labels.new edges.new verdicts.new answer.new }
{
    if answer.len() < 4 {
        return Refusal::ShortBuffer.number();
    }
    let bounds = Bounds {
        max_elements: max_elements,
        max_edges: max_edges,
        max_rounds: max_rounds,
    };
    tell_summary(
        answer,
        run(deck, bounds, last_phase, labels, edges, log, verdicts),
    )
}

// The text that the program `verify` prints for an input, at the start of `out`, and its length; 0 where `out` is too
// short for it.
#[unsafe(no_mangle)]
pub extern "C" fn style_deck_report(input: &[u8], out: &mut [u8]) -> usize
    ensures is { reported result out.new ≡ text.report input.now out.old }
    ensures confirmed { take 9 (take result out.new) ≡ outcome_word Outcome.Confirmed → Confirms input.now }
{
    report(input, out)
}
