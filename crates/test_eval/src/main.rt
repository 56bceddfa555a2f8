// Reads decks and structures from standard input, judges the concepts and axioms that are asked
// for, and prints the answers. tests/make_judgements.py writes the input, and what must be printed.
//
// The input is short numbers (cases::numbers). A case is: the length of its name and the name's
// bytes; the deck's length in bytes and its words; the number of label words lent, the number of
// runs, and the runs; the number of elements; the number of edges lent, and the edges; the number of
// edges used; then what is asked, as answers.rt reads it. Deck, labels and edges are lent at exactly
// the lengths that the case says. Input of any other form ends the program.
#![tactic(auto)]

mod answers;
mod lent;

ghost use Rattle.std.specs.Prelude.{◌≡◌, ◌≤◌, length};

use answers::Lent;
use cases::each::each_case;
use cases::input::read_full;
use cases::numbers::number_at;
use cases::room::blank;
use cases::words::part;
use lent::Case;
use std::io;

// Asks what the data say of an expanded case. Answers the place after it; none if there is too
// little room for the case.
fn ask(
    rt: &impl Print,
    data: &[u8],
    case: Case,
    deck: &[u8],
    labels: &[u64],
    edges: &[[u32; 3]],
) -> io::Result<Option<usize>> {
    if case.deck > deck.len() || case.labels > labels.len() || case.edges > edges.len() {
        return Ok(None);
    }
    let lent = Lent {
        deck: part(deck, 0, case.deck),
        labels: &labels[..case.labels],
        elements: case.elements,
        edges: &edges[..case.edges],
        edge_count: case.edge_count,
    };
    answers::answer(rt, data, case.next, &lent).map(Some)
}

// Prints the name at place `at` of the data. Answers the place after it; none if it is malformed.
fn print_name(rt: &impl Print, data: &[u8], at: usize) -> io::Result<Option<usize>> {
    let name = number_at(data, at);
    let start = name.next;
    if start > data.len() {
        return Ok(None);
    }
    let end = start + name.value as usize;
    rt.write_all(part(data, start, end))?;
    Ok(Some(end))
}

// Runs the case at place `at` of the data. Answers the place after it; none if it is malformed.
fn run_one(
    rt: &impl Print,
    data: &[u8],
    at: usize,
    deck: &mut [u8],
    labels: &mut [u64],
    edges: &mut [[u32; 3]],
) -> io::Result<Option<usize>> {
    let Some(end) = print_name(rt, data, at)?.filter(|end| at < *end) else {
        return Ok(None);
    };
    let case = lent::expand(data, end, deck, labels, edges);
    ask(rt, data, case, deck, labels, edges)
}

fn main(rt: HostRuntime) -> io::Result<()> {
    let mut data: [u8; 200000] = blank(0);
    let n = read_full(&mut rt.stdin(), &mut data)?;
    let data = &data[..n];
    let mut deck: [u8; 16384] = blank(0);
    // A word of labels for one element more than there may be.
    let mut labels: [u64; 65537] = blank(0);
    let mut edges: [[u32; 3]; 64] = blank([0; 3]);
    let cases = each_case(n, |at| {
        run_one(&rt, data, at, &mut deck, &mut labels, &mut edges)
    })?;
    println!(rt; "{cases} cases")
}
