// Answers as numbers and words.
ghost use Rattle.std.specs.Prelude.{◌≡◌, ◌≤◌, length};
ghost use Rattle.capi.specs.Words.{told, given, deck_number, deck_word, judgement_words, judgement_told, verdict_told, outcome_number, summary_told};

use build::tally::Tally;
use deck::refusal::{NO_WORD, Refusal, refusal_word};
use eval::judgement::Judgement;
use eval::verdict::Verdict;
use model::outcome::Outcome;

pub fn deck_number(answer: Result<(), Refusal>) -> u32
    ensures { result ≡ deck_number answer }
{
    match answer {
        Ok(()) => 0,
        Err(refusal) => refusal.number(),
    }
}

pub fn deck_word(answer: Result<(), Refusal>) -> u32
    ensures { result ≡ deck_word answer }
{
    match answer {
        Ok(()) => NO_WORD,
        Err(refusal) => refusal_word(refusal),
    }
}

// Functions and no From: neither of the two types is of this crate.
fn judgement_words(judgement: Judgement) -> [u32; 4]
    ensures { result ≡ judgement_words judgement }
{
    match judgement {
        Judgement::False => [0, 0, 0, 0],
        Judgement::True => [1, 0, 0, 0],
        Judgement::Unresolved(construct) => [2, u32::from(construct), 0, 0],
    }
}

// By a match: `Outcome` is in order from best to worst, and C's numbers are not.
fn outcome_number(outcome: Outcome) -> u32
    ensures { result ≡ outcome_number outcome }
{
    match outcome {
        Outcome::Confirmed => 0,
        Outcome::Failed => 1,
        Outcome::Open => 2,
    }
}

// Four words at the start of the answer, and 0 to return.
fn give(answer: &mut [u32], words: [u32; 4]) -> u32
    requires { 4 ≤ length answer.old }
    ensures { told result answer.new ≡ given answer.old words }
{
    answer[..4].copy_from_slice(&words);
    0
}

// Each of the three below writes the words of an answer and returns 0, or returns the number of a refusal. One function for all would take
// the answer already mapped to its words, a closure and a law more for each than the two arms here.
// The answer goes on as it was lent, maybe longer than four words, and that it has four is asked for.
pub fn tell_judgement(answer: &mut [u32], judged: Result<Judgement, Refusal>) -> u32
    requires { 4 ≤ length answer.old }
    ensures { told result answer.new ≡ judgement_told judged answer.old }
{
    match judged {
        Err(refusal) => refusal.number(),
        Ok(judgement) => give(answer, judgement_words(judgement)),
    }
}

pub fn tell_verdict(answer: &mut [u32], checked: Result<Verdict, Refusal>) -> u32
    requires { 4 ≤ length answer.old }
    ensures { told result answer.new ≡ verdict_told checked answer.old }
{
    match checked {
        Err(refusal) => refusal.number(),
        Ok(verdict) => give(answer, verdict.into()),
    }
}

pub fn tell_summary(answer: &mut [u32], ran: Result<(Outcome, Tally), Refusal>) -> u32
    requires { 4 ≤ length answer.old }
    ensures { told result answer.new ≡ summary_told ran answer.old }
{
    match ran {
        Err(refusal) => refusal.number(),
        Ok((outcome, t)) => give(
            answer,
            [outcome_number(outcome), t.elements, t.edges, t.reasons],
        ),
    }
}
