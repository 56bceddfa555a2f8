// Reads decks from standard input, checks each, and prints its name and its number: 0 if it is
// accepted, else the refusal's, and the refusal's word if it has one. tests/make_decks.py writes
// the input, and what must be printed.
//
// The input is decks with names, one after the other (cases::decks). Input of any other form ends the
// program.
#![tactic(auto)]

ghost use Rattle.std.specs.Prelude.{◌≡◌, length};

use cases::each::each_case;
use cases::input::read_full;
use cases::room::blank;
use cases::words::part;
use deck::refusal::Refusal;
use std::io;

fn print_answer(rt: &impl Print, answer: Result<(), Refusal>) -> io::Result<()> {
    match answer {
        Ok(()) => print!(rt; " 0"),
        Err(refusal) => print!(rt; " {refusal}"),
    }
}

// Checks the deck at word `at` of the data. Answers the word after it; none if it is malformed.
fn check_one(
    rt: &impl Print,
    data: &[u8],
    at: usize,
    room: &mut [u8],
) -> io::Result<Option<usize>> {
    let Some(case) = cases::decks::deck_at(data, at, room) else {
        return Ok(None);
    };
    let answer = deck::check_deck(part(room, 0, case.length));
    rt.write_all(part(data, case.name, case.name_end))?;
    print_answer(rt, answer)?;
    rt.write_all(b"\n")?;
    Ok(Some(case.next))
}

fn main(rt: HostRuntime) -> io::Result<()> {
    let mut data: [u8; 600000] = blank(0);
    let n = read_full(&mut rt.stdin(), &mut data)?;
    let data = &data[..n];
    let mut deck: [u8; 2000000] = blank(0);
    let decks = each_case(n / 4, |at| check_one(&rt, data, at, &mut deck))?;
    println!(rt; "{decks} decks")
}
