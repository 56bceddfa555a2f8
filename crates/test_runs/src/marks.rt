// What stands in the lent buffers before a run: words that differ from place to place, and that no
// run writes (tests/make_runs.py sees to that). So the words that a run wrote can be told.
ghost use Rattle.std.specs.Prelude.{◌<◌};

use cases::room::{Lent, mark_all};
use std::io;

// The mark at place `at`.
fn mark(at: usize) -> u32
    ensures { result < 3001000000 }
{
    3000000000 + (at % 1000000) as u32
}

fn label_mark(at: usize) -> u64 {
    9000000000000000000 + mark(at) as u64
}

fn edge_mark(at: usize) -> [u32; 3] {
    let first = mark(at);
    [first, first + 1000000, first + 2000000]
}

// Marks each place of the buffers.
pub fn mark_lent(lent: &mut Lent) {
    mark_all(lent.labels, label_mark);
    mark_all(lent.edges, edge_mark);
    mark_all(lent.log, mark);
    mark_all(lent.verdicts, mark);
}

// One more word of a buffer, which was `before`, and how many of it were written after one that was not; none while every
// word so far was written. Those are printed.
fn next(rt: &impl Print, strays: Option<u64>, word: u64, before: u64) -> io::Result<Option<u64>> {
    match strays {
        None if word != before => {
            print!(rt; " {word}")?;
            Ok(None)
        }
        _ => Ok(Some(strays.unwrap_or(0).wrapping_add(u64::from(word != before)))),
    }
}

// Prints a line: the buffer's name, and its words up to the first that stands as it was marked. `show_item` takes an item, and
// what it was. Answers how many words after that were written.
fn show<T: Copy, S: Fn(Option<u64>, T, T) -> io::Result<Option<u64>>, M: Fn(usize) -> T>(
    rt: &impl Print,
    name: &[u8],
    buffer: &[T],
    mark: M,
    show_item: S,
) -> io::Result<u64>
    requires mark { M.IsAlwaysCallable mark }
    requires show_item { S.IsAlwaysCallable show_item }
{
    rt.write_all(name)?;
    let mut strays = None;
    for (i, item) in buffer.iter().enumerate() {
        strays = show_item(strays, *item, mark(i))?;
    }
    rt.write_all(b"\n")?;
    Ok(strays.unwrap_or(0))
}

fn next_edge(
    rt: &impl Print,
    strays: Option<u64>,
    edge: [u32; 3],
    before: [u32; 3],
) -> io::Result<Option<u64>> {
    let mut strays = strays;
    for i in 0..3 {
        strays = next(rt, strays, u64::from(edge[i]), u64::from(before[i]))?;
    }
    Ok(strays)
}

fn show_words(rt: &impl Print, name: &[u8], words: &[u32]) -> io::Result<u64> {
    show(rt, name, words, mark, |strays, word, before| {
        next(rt, strays, u64::from(word), u64::from(before))
    })
}

// Prints a line for each buffer. Answers how many words were written past the first that was not.
pub fn show_lent(rt: &impl Print, lent: &Lent) -> io::Result<u64> {
    let in_labels = show(
        rt,
        b"labels",
        lent.labels,
        label_mark,
        |strays, word, before| next(rt, strays, word, before),
    )?;
    let in_edges = show(
        rt,
        b"edges",
        lent.edges,
        edge_mark,
        |strays, edge, before| next_edge(rt, strays, edge, before),
    )?;
    let in_log = show_words(rt, b"log", lent.log)?;
    let in_verdicts = show_words(rt, b"verdicts", lent.verdicts)?;
    Ok(
        in_labels
            .wrapping_add(in_edges)
            .wrapping_add(in_log)
            .wrapping_add(in_verdicts),
    )
}
