// The program's text for an input, byte by byte: document 01, "The program".
#![tactic(auto)]

mod lines;
mod room;
mod text;

ghost use Rattle.std.specs.Prelude.{◌≡◌, length, take};
ghost use Rattle.model.specs.declared.outcome.Outcome.{Outcome};
ghost use Rattle.report.specs.Lines.{outcome_word};
ghost use Rattle.report.specs.Text.{reported, text_room, Confirms};
ghost use Rattle.report.specs.Text.{report as Text·report};

use room::blank;
use text::write_text;

// Room for any text: a line of at most 64 bytes, and 50 bytes for each of 4,096 axioms.
pub fn text_room() -> [u8; 204864]
    ensures value { result ≡ text_room }
    ensures value_2 { 204864 ≡ length result }
{
    blank(0)
}

// Writes the text to the start of `out` and answers its length; 0 where `out` is too short for it, and then nothing is written.
// Where `out` has room for any text, it is made there at once.
// The length stays a number that is 0 for none, as the C function hands it on.
pub fn report(input: &[u8], out: &mut [u8]) -> usize
    ensures is { reported result out.new ≡ Text·report input.now out.old }
    ensures confirmed { take 9 (take result out.new) ≡ outcome_word Outcome.Confirmed → Confirms input.now }
{
    if 204864 <= out.len() {
        return write_text(out, input);
    }
    let mut text = text_room();
    let n = write_text(&mut text, input);
    if out.len() < n {
        return 0;
    }
    out[..n].copy_from_slice(&text[..n]);
    n
}
