// Reads cases from standard input, runs each, and compares everything that comes of it with what the original
// answered. tests/differential writes the input (`replay`), from the original's answers alone.
//
// A case is: what is asked (data.rt); the deck; outcome, elements, edges, reasons; the labels, each word as its low
// and its high half; the edges, oldest first; the reasons; the verdicts; and the judgement of every concept at every
// element. A line is printed for each word that differs, and the counts at the end.
#![tactic(auto)]

mod compared;
mod data;

ghost use Rattle.std.specs.Prelude.{◌≡◌, length};

use build::tally::Tally;
use cases::each::each_case;
use cases::input::read_full;
use cases::room::{Lent, blank};
use cases::words::{MOST, after, part};
use compared::{Built, Compared};
use data::{ASKED, Asked};
use model::outcome::Outcome;
use model::run::run;
use std::io;

// The test's own: it takes no number from what it tests.
fn outcome_number(outcome: Outcome) -> u32 {
    match outcome {
        Outcome::Confirmed => 0,
        Outcome::Failed => 1,
        Outcome::Open => 2,
    }
}

fn expect_tally(rt: &impl Print, c: &mut Compared, outcome: Outcome, t: Tally) -> io::Result<()> {
    c.expect(rt, outcome_number(outcome))?;
    c.expect(rt, t.elements)?;
    c.expect(rt, t.edges)?;
    c.expect(rt, t.reasons)
}

// The words of the log that the reasons take.
fn log_words(reasons: u32) -> u32 {
    if reasons > 1000000 {
        return 3000000;
    }
    reasons * 3
}

// What a run left in the buffers.
fn expect_left(
    rt: &impl Print,
    c: &mut Compared,
    asked: Asked,
    t: Tally,
    deck: &[u8],
    lent: &Lent,
) -> io::Result<()> {
    let built = Built {
        deck,
        labels: lent.labels,
        elements: t.elements,
        edges: lent.edges,
        edge_count: t.edges,
    };
    c.expect_labels(rt, lent.labels, asked.label_words)?;
    c.expect_edges(rt, lent.edges, t.edges)?;
    c.expect_words(rt, lent.log, log_words(t.reasons))?;
    c.expect_words(rt, lent.verdicts, asked.verdict_words)?;
    c.expect_concepts(rt, built, asked.concepts)
}

// A run that is refused differs in its first word.
fn expect_run(
    rt: &impl Print,
    c: &mut Compared,
    asked: Asked,
    deck: &[u8],
    lent: &mut Lent,
) -> io::Result<()> {
    let labels = &mut *lent.labels;
    let edges = &mut *lent.edges;
    let log = &mut *lent.log;
    let verdicts = &mut *lent.verdicts;
    match run(
        deck,
        asked.bounds,
        asked.last_phase,
        labels,
        edges,
        log,
        verdicts,
    ) {
        Err(refusal) => c.expect(rt, 1000 + refusal.number() % 100),
        Ok((outcome, t)) => {
            expect_tally(rt, c, outcome, t)?;
            expect_left(rt, c, asked, t, deck, lent)
        }
    }
}

// Runs the case at word `at` of the data, which `c` has come to. A case that does not end where it says counts as a
// difference, and what is compared next is the case after it. Answers the word after the case.
fn replay_one(
    rt: &impl Print,
    data: &[u8],
    at: usize,
    c: &mut Compared,
    lent: &mut Lent,
) -> io::Result<Option<usize>> {
    let asked = data::asked_at(data, at);
    let end = after(at, asked.words as usize);
    if at > MOST {
        c.differ(end);
        return Ok(Some(end));
    }
    let deck_start = (at + ASKED) * 4;
    let deck_end = deck_start + asked.deck_words as usize * 4;
    if deck_end > data.len() {
        c.differ(end);
        return Ok(Some(end));
    }
    c.at = deck_end / 4;
    expect_run(rt, c, asked, part(data, deck_start, deck_end), lent)?;
    if c.at != end {
        c.differ(end);
    }
    Ok(Some(end))
}

fn print_count(rt: &impl Print, name: &[u8], n: u64) -> io::Result<()> {
    rt.write_all(name)?;
    println!(rt; "{n}")
}

// Runs all cases of the data, and prints how many there are, how many words were compared, and how many differed.
fn replay_all(rt: &impl Print, data: &[u8], lent: &mut Lent) -> io::Result<()> {
    let mut c = Compared {
        data,
        at: 0,
        words: 0,
        differences: 0,
    };
    let cases = each_case(data.len() / 4, |at| replay_one(rt, data, at, &mut c, lent))?;
    if c.at < data.len() / 4 {
        return rt.write_all(b"malformed\n");
    }
    print_count(rt, b"cases ", cases)?;
    print_count(rt, b"words compared ", c.words)?;
    print_count(rt, b"differences ", c.differences)
}

fn main(rt: HostRuntime) -> io::Result<()> {
    let mut data: [u8; 400000] = blank(0);
    let n = read_full(&mut rt.stdin(), &mut data)?;
    let mut labels: [u64; 600] = blank(0);
    let mut edges: [[u32; 3]; 130] = blank([0; 3]);
    let mut log: [u32; 300] = blank(0);
    let mut verdicts: [u32; 300] = blank(0);
    let mut lent = Lent {
        labels: &mut labels,
        edges: &mut edges,
        log: &mut log,
        verdicts: &mut verdicts,
    };
    replay_all(&rt, &data[..n], &mut lent)
}
