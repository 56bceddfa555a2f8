// Reads decks from standard input, and prints for each its name and the text that `verify` prints for
// it. tests/make_reports.py writes the input, and what must be printed.
//
// The input is decks with names, one after the other (cases::decks). Input of any other form ends the
// program.
//
// Each text is asked for in marked buffers of several lengths. After the text stands `untouched` if a
// buffer of exactly its length gets the same text, one that is a byte shorter and an empty one get
// nothing, and no byte past a text has changed.
#![tactic(auto)]

ghost use Rattle.std.specs.Prelude.{◌≡◌, length};

use cases::each::each_case;
use cases::input::read_full;
use cases::room::{blank, mark_all};
use cases::words::part;
use std::io;

// The mark at place `at`. A text has bytes below 128 only.
fn mark(at: usize) -> u8 {
    128 + (at % 100) as u8
}

// How many bytes from place `from` on are not as they were marked.
fn strays(room: &[u8], from: usize) -> usize {
    (from..room.len()).filter(|i| room[*i] != mark(*i)).count()
}

// How many of the first bytes differ, as far as both go.
fn differences(one: &[u8], other: &[u8]) -> usize {
    one.iter().zip(other).filter(|(a, b)| a != b).count()
}

// Marks the room, and asks for the text in its first `length` bytes. Answers the text's length.
fn ask(deck: &[u8], room: &mut [u8], length: usize) -> usize {
    mark_all(room, mark);
    if length > room.len() {
        return 0;
    }
    report::report(deck, &mut room[..length])
}

// Asks in a buffer that is too short. Answers how much is wrong.
fn too_short(deck: &[u8], room: &mut [u8], length: usize) -> usize {
    let n = ask(deck, room, length);
    strays(room, 0).wrapping_add(usize::from(n != 0))
}

// Asks for a text of n bytes in one byte less.
fn one_short(deck: &[u8], room: &mut [u8], n: usize) -> usize {
    if n == 0 {
        return 0;
    }
    too_short(deck, room, n - 1)
}

// Asks for a text again, in a buffer of its length. Answers how much is wrong.
fn again_in(deck: &[u8], room: &mut [u8], text: &[u8]) -> usize {
    let n = ask(deck, room, text.len());
    differences(text, room)
        .wrapping_add(strays(room, text.len()))
        .wrapping_add(usize::from(n != text.len()))
}

fn print_faults(rt: &impl Print, faults: usize) -> io::Result<()> {
    if faults == 0 {
        rt.write_all(b"untouched\n")
    } else {
        println!(rt; "{faults} faults")
    }
}

// Prints the text of a deck, and what is wrong with it.
fn print_text(rt: &impl Print, deck: &[u8], wide: &mut [u8], tight: &mut [u8]) -> io::Result<()> {
    let most = wide.len();
    let n = ask(deck, wide, most);
    let past = strays(wide, n);
    let text = part(wide, 0, n);
    rt.write_all(text)?;
    let again = again_in(deck, tight, text);
    let empty = too_short(deck, tight, 0);
    let short = one_short(deck, tight, n);
    let faults = past
        .wrapping_add(again)
        .wrapping_add(empty)
        .wrapping_add(short);
    print_faults(rt, faults)
}

// Prints the name and the text of the deck at word `at` of the data. Answers the word after it; none if
// it is malformed.
fn report_one(
    rt: &impl Print,
    data: &[u8],
    at: usize,
    room: &mut [u8],
    wide: &mut [u8],
    tight: &mut [u8],
) -> io::Result<Option<usize>> {
    let Some(case) = cases::decks::deck_at(data, at, room) else {
        return Ok(None);
    };
    rt.write_all(part(data, case.name, case.name_end))?;
    rt.write_all(b"\n")?;
    print_text(rt, part(room, 0, case.length), wide, tight)?;
    Ok(Some(case.next))
}

fn main(rt: HostRuntime) -> io::Result<()> {
    let mut data: [u8; 100000] = blank(0);
    let n = read_full(&mut rt.stdin(), &mut data)?;
    let data = &data[..n];
    // A deck of a word more than the program takes, and the longest text.
    let mut deck: [u8; 65540] = blank(0);
    let mut wide: [u8; 131072] = blank(0);
    let mut tight: [u8; 131072] = blank(0);
    let cases = each_case(n / 4, |at| {
        report_one(&rt, data, at, &mut deck, &mut wide, &mut tight)
    })?;
    println!(rt; "{cases} cases")
}
