// A deck with a name. It is: the name's length and the deck's length in bytes, the number of runs, the name padded to whole
// words, the runs. A run is a count, a width, and, for width 0, `count` words of the deck as they stand; for a width of 1 to
// 4, that many steps, where word i of the run's `count` words is the deck's word `width` words before it plus step i mod width;
// for width 5, nothing: `count` words stay as the decks before left them. The deck is what the runs made, cut to its length.
// tests/make_decks.py writes the form.
ghost use Rattle.std.specs.Prelude.{◌<◌, ◌≤◌};

use crate::words::{MOST, put_word, word_or_0};

// The width of a run that keeps what stands.
const KEPT: usize = 5;

// Where reading and making have got to, in words.
#[derive(Clone, Copy)]
struct Place {
    read: usize,
    made: usize,
}

// Copies `count` words.
// Buffers and places go as they are: a run is read and made from places that `word_or_0` and `put_word` take.
fn plain(data: &[u8], read: usize, room: &mut [u8], made: usize, count: usize)
    requires { (read ≤ 1000000) × (made ≤ 1000000) × (count ≤ 1000000) }
{
    for i in 0..count {
        put_word(room, made + i, word_or_0(data, read + i));
    }
}

// Makes `count` words, each from the one `width` words before it and the step that is due.
fn stepped(data: &[u8], read: usize, room: &mut [u8], made: usize, count: usize, width: usize)
    requires { (read ≤ 1000000) × (made ≤ 1000000) × (count ≤ 1000000) × (0 < width) × (width ≤ made) }
{
    for i in 0..count {
        let before = word_or_0(room, made + i - width);
        let word = before.wrapping_add(word_or_0(data, read + i % width));
        put_word(room, made + i, word);
    }
}

// Expands one run; none where it does not fit.
fn run(data: &[u8], room: &mut [u8], place: Place) -> Option<Place> {
    let read = place.read;
    let made = place.made;
    if read > MOST - 2 || made > MOST {
        return None;
    }
    let count = word_or_0(data, read) as usize;
    let width = word_or_0(data, read + 1) as usize;
    if count > MOST - made {
        return None;
    }
    if width == KEPT {
        return Some(Place {
            read: read + 2,
            made: made + count,
        });
    }
    if width > 4 || width > made {
        return None;
    }
    if width == 0 {
        plain(data, read + 2, room, made, count);
        Some(Place {
            read: read + 2 + count,
            made: made + count,
        })
    } else {
        stepped(data, read + 2, room, made, count, width);
        Some(Place {
            read: read + 2 + width,
            made: made + count,
        })
    }
}

// Expands `count` runs from word `at` of the data on.
fn expand(data: &[u8], at: usize, count: u32, room: &mut [u8]) -> Option<Place> {
    let mut place = Place { read: at, made: 0 };
    for _ in 0..count {
        place = run(data, room, place)?;
    }
    Some(place)
}

// Where the name's bytes stand in the data, the deck's length, and the word after it all.
#[derive(Clone, Copy)]
pub struct Case {
    pub name: usize,
    pub name_end: usize,
    pub length: usize,
    pub next: usize,
}

// The deck at word `at` of the data, made at the start of `room`; none if it is malformed.
pub fn deck_at(data: &[u8], at: usize, room: &mut [u8]) -> Option<Case> {
    let name_length = word_or_0(data, at) as usize;
    if at > MOST || name_length > 40 {
        return None;
    }
    let length = word_or_0(data, at + 1) as usize;
    let count = word_or_0(data, at + 2);
    let runs = at + 3 + (name_length + 3) / 4;
    let place = expand(data, runs, count, room)?;
    let read = place.read;
    let made = place.made;
    if read > data.len() / 4 || (length + 3) / 4 > made || length > room.len() {
        return None;
    }
    Some(Case {
        name: (at + 3) * 4,
        name_end: (at + 3) * 4 + name_length,
        length,
        next: read,
    })
}
