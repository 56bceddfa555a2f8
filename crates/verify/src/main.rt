// Reads a deck from standard input and prints the text of the program: document 01, "The program".
#![tactic(auto)]

mod streams;

ghost use Rattle.std.specs.Prelude.{length, ◌≡◌};

use report::{report, text_room};
use std::io;
use streams::{read_input, write_text};

// Room for 65,536 bytes, and one more to see that the input is longer.
fn deck_room() -> [u8; 65537]
    ensures { 65537 ≡ length result }
{
    [0; 65537]
}

fn main(rt: HostRuntime) -> io::Result<()> {
    let mut room = deck_room();
    let mut text = text_room();
    let input = read_input(rt.stdin(), &mut room);
    let n = report(input, &mut text);
    write_text(rt.stdout(), input, &text[..n])
}
