// Expands a case into the memory that is lent (main.rt has the case's form). Words past the end of
// that memory are left out.
use cases::numbers::number_at;
use cases::words::put_word;

// The lengths that the case says, and the place after what was expanded.
#[derive(Clone, Copy)]
pub struct Case {
    pub deck: usize,
    pub labels: usize,
    pub elements: u32,
    pub edges: usize,
    pub edge_count: u32,
    pub next: usize,
}

// Expands the words of the deck. Answers the place after them.
fn deck_words(data: &[u8], at: usize, deck: &mut [u8], count: usize) -> usize {
    let mut next = at;
    for i in 0..count {
        let word = number_at(data, next);
        put_word(deck, i, word.value);
        next = word.next;
    }
    next
}

// Writes an item where there is room.
fn put<T: Copy>(room: &mut [T], at: usize, item: T) {
    if at < room.len() {
        room[at] = item;
    }
}

// Writes `count` equal label words from word `from` on. Answers the word after them.
fn put_labels(labels: &mut [u64], from: usize, count: u32, word: u64) -> usize {
    let mut at = from;
    for _ in 0..count {
        put(labels, at, word);
        at = at.wrapping_add(1);
    }
    at
}

fn joined(low: u32, high: u32) -> u64 {
    u64::from(low) + 4294967296 * u64::from(high)
}

// Expands the runs of label words: a count, and the low and the high half of the word. Answers the
// place after them.
fn label_runs(data: &[u8], at: usize, labels: &mut [u64], runs: u32) -> usize {
    let mut next = at;
    let mut made = 0;
    for _ in 0..runs {
        let count = number_at(data, next);
        let low = number_at(data, count.next);
        let high = number_at(data, low.next);
        made = put_labels(labels, made, count.value, joined(low.value, high.value));
        next = high.next;
    }
    next
}

// Expands the edges: role, from, to. Answers the place after them.
fn edge_records(data: &[u8], at: usize, edges: &mut [[u32; 3]], count: usize) -> usize {
    let mut next = at;
    for i in 0..count {
        let role = number_at(data, next);
        let from = number_at(data, role.next);
        let to = number_at(data, from.next);
        put(edges, i, [role.value, from.value, to.value]);
        next = to.next;
    }
    next
}

// Expands the case whose deck's length is at place `at`.
pub fn expand(
    data: &[u8],
    at: usize,
    deck: &mut [u8],
    labels: &mut [u64],
    edges: &mut [[u32; 3]],
) -> Case {
    let bytes = number_at(data, at);
    let size = bytes.value as usize;
    let deck_end = deck_words(data, bytes.next, deck, (size + 3) / 4);
    let words = number_at(data, deck_end);
    let runs = number_at(data, words.next);
    let elements = number_at(data, label_runs(data, runs.next, labels, runs.value));
    let lent = number_at(data, elements.next);
    let count = lent.value as usize;
    let used = number_at(data, edge_records(data, lent.next, edges, count));
    Case {
        deck: size,
        labels: words.value as usize,
        elements: elements.value,
        edges: count,
        edge_count: used.value,
        next: used.next,
    }
}
