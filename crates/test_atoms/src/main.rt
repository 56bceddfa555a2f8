// Reads decks from standard input, and prints for each its name and, if it is accepted, a space and a
// letter for each concept in order, t where is_universal_antecedent says true and f where it says
// false; if it is not, ` refused`. tests/make_universals.py writes the input, and what must be printed.
//
// The input is decks with names, one after the other (cases::decks). Input of any other form ends the
// program.
#![tactic(auto)]

ghost use Rattle.std.specs.Prelude.{◌≡◌, length};

use atoms::floor::is_universal_antecedent;
use cases::each::each_case;
use cases::input::read_full;
use cases::room::blank;
use cases::words::part;
use deck::Deck;
use deck::numbers::ConceptId;
use std::io;

fn print_letter(rt: &impl Print, universal: bool) -> io::Result<()> {
    if universal {
        rt.write_all(b"t")
    } else {
        rt.write_all(b"f")
    }
}

// Asks each concept.
fn print_letters(rt: &impl Print, deck: &Deck) -> io::Result<()> {
    rt.write_all(b" ")?;
    for concept in 0..deck.concept_count() {
        print_letter(rt, is_universal_antecedent(deck, ConceptId(concept)))?;
    }
    Ok(())
}

fn print_answer(rt: &impl Print, bytes: &[u8]) -> io::Result<()> {
    match Deck::read(bytes) {
        Ok(deck) => print_letters(rt, &deck),
        Err(_) => rt.write_all(b" refused"),
    }
}

// Asks about the deck at word `at` of the data. Answers the word after it; none if it is malformed.
fn ask_one(rt: &impl Print, data: &[u8], at: usize, room: &mut [u8]) -> io::Result<Option<usize>> {
    let Some(case) = cases::decks::deck_at(data, at, room) else {
        return Ok(None);
    };
    rt.write_all(part(data, case.name, case.name_end))?;
    print_answer(rt, part(room, 0, case.length))?;
    rt.write_all(b"\n")?;
    Ok(Some(case.next))
}

// Like main of test_deck: what both share is in cases, and rooms and step differ.
fn main(rt: HostRuntime) -> io::Result<()> {
    let mut data: [u8; 400000] = blank(0);
    let n = read_full(&mut rt.stdin(), &mut data)?;
    let data = &data[..n];
    let mut deck: [u8; 300000] = blank(0);
    let decks = each_case(n / 4, |at| ask_one(&rt, data, at, &mut deck))?;
    println!(rt; "{decks} decks")
}
