// Reads cases from standard input, runs each, and prints what the run answers and what it leaves in
// the lent buffers. tests/make_runs.py writes the input, and what must be printed.
//
// The input is words of four bytes, low byte first. A case is: the length of its name and of its
// deck in bytes; max_elements, max_edges, max_rounds; the last phase; the lengths of the label, edge,
// log and verdict buffers; then the name and the deck, each padded to whole words. The buffers are
// lent at exactly these lengths, and marked before. Input of any other form ends the program.
//
// Printed are: the name and the answer; a line for each buffer, its words from the first to the last
// that was written in a row; and `untouched`, or how many words after these were written.
#![tactic(auto)]

mod asked;
mod marks;

ghost use Rattle.std.specs.Prelude.{◌≡◌, length};

use asked::Asked;
use build::tally::Tally;
use cases::each::each_case;
use cases::input::read_full;
use cases::room::{Lent, blank};
use cases::words::{MOST, part, word_or_0};
use deck::refusal::Refusal;
use model::outcome::Outcome;
use model::run::run;
use std::io;

fn print_number(rt: &impl Print, n: u32) -> io::Result<()> {
    print!(rt; " {n}")
}

// By hand, as `Outcome` has no Display.
fn print_outcome(rt: &impl Print, outcome: Outcome) -> io::Result<()> {
    match outcome {
        Outcome::Confirmed => rt.write_all(b" confirmed"),
        Outcome::Failed => rt.write_all(b" failed"),
        Outcome::Open => rt.write_all(b" open"),
    }
}

fn print_done(rt: &impl Print, outcome: Outcome, tally: Tally) -> io::Result<()> {
    print_outcome(rt, outcome)?;
    print_number(rt, tally.elements)?;
    print_number(rt, tally.edges)?;
    print_number(rt, tally.reasons)
}

fn print_refusal(rt: &impl Print, refusal: Refusal) -> io::Result<()> {
    print!(rt; " refused {refusal}")
}

fn print_answer(rt: &impl Print, answer: Result<(Outcome, Tally), Refusal>) -> io::Result<()> {
    match answer {
        Err(refusal) => print_refusal(rt, refusal)?,
        Ok((outcome, tally)) => print_done(rt, outcome, tally)?,
    }
    rt.write_all(b"\n")
}

fn print_stray(rt: &impl Print, stray: u64) -> io::Result<()> {
    if stray == 0 {
        rt.write_all(b"untouched\n")
    } else {
        println!(rt; "{stray} words written past the end")
    }
}

// Runs a case over buffers of exactly the lengths that it asks for, and prints what comes of it.
fn run_in(rt: &impl Print, deck: &[u8], asked: Asked, lent: &mut Lent) -> io::Result<()> {
    marks::mark_lent(lent);
    let labels = &mut *lent.labels;
    let edges = &mut *lent.edges;
    let log = &mut *lent.log;
    let verdicts = &mut *lent.verdicts;
    let answer = run(
        deck,
        asked.bounds,
        asked.last_phase,
        labels,
        edges,
        log,
        verdicts,
    );
    print_answer(rt, answer)?;
    print_stray(rt, marks::show_lent(rt, lent)?)
}

// Runs a case over parts of the room. Answers false if there is too little of it.
fn run_asked(
    rt: &impl Print,
    deck: &[u8],
    asked: Asked,
    labels: &mut [u64],
    edges: &mut [[u32; 3]],
    log: &mut [u32],
    verdicts: &mut [u32],
) -> io::Result<bool> {
    if asked.labels > labels.len()
        || asked.edges > edges.len()
        || asked.log > log.len()
        || asked.verdicts > verdicts.len()
    {
        return Ok(false);
    }
    let mut lent = Lent {
        labels: &mut labels[..asked.labels],
        edges: &mut edges[..asked.edges],
        log: &mut log[..asked.log],
        verdicts: &mut verdicts[..asked.verdicts],
    };
    run_in(rt, deck, asked, &mut lent)?;
    Ok(true)
}

// Runs the case at word `at` of the data. Answers the word after it; none if it is malformed.
fn run_one(rt: &impl Print, data: &[u8], at: usize, room: &mut Lent) -> io::Result<Option<usize>> {
    if at > MOST {
        return Ok(None);
    }
    let name_length = word_or_0(data, at) as usize;
    let deck_length = word_or_0(data, at + 1) as usize;
    let asked = asked::asked_at(data, at + 2);
    let name_start = (at + 10) * 4;
    let name_end = name_start + name_length;
    let deck_start = (at + 10 + (name_length + 3) / 4) * 4;
    let deck_end = deck_start + deck_length;
    if name_end > data.len() || deck_end > data.len() {
        return Ok(None);
    }
    rt.write_all(part(data, name_start, name_end))?;
    let deck = part(data, deck_start, deck_end);
    let labels = &mut *room.labels;
    let edges = &mut *room.edges;
    let log = &mut *room.log;
    let verdicts = &mut *room.verdicts;
    if !run_asked(rt, deck, asked, labels, edges, log, verdicts)? {
        return Ok(None);
    }
    Ok(Some((deck_end + 3) / 4))
}

fn main(rt: HostRuntime) -> io::Result<()> {
    let mut data: [u8; 400000] = blank(0);
    let n = read_full(&mut rt.stdin(), &mut data)?;
    let data = &data[..n];
    // A word of labels for one element more than a bound allows.
    let mut labels: [u64; 65600] = blank(0);
    let mut edges: [[u32; 3]; 400] = blank([0; 3]);
    let mut log: [u32; 2000] = blank(0);
    let mut verdicts: [u32; 2000] = blank(0);
    let mut room = Lent {
        labels: &mut labels,
        edges: &mut edges,
        log: &mut log,
        verdicts: &mut verdicts,
    };
    let cases = each_case(n / 4, |at| run_one(&rt, data, at, &mut room))?;
    println!(rt; "{cases} cases")
}
