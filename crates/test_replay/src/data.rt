// The data, in words (cases::words). Places are counted in words.
use build::bounds::Bounds;
use cases::words::{after, word_or_0};

// What a case begins with: its length and its deck's in words; how many words of labels and of verdicts the run
// leaves, and how many concepts the deck has; the bounds and the last phase.
#[derive(Clone, Copy)]
pub struct Asked {
    pub words: u32,
    pub deck_words: u32,
    pub label_words: u32,
    pub verdict_words: u32,
    pub concepts: u32,
    pub bounds: Bounds,
    pub last_phase: u32,
}

// How many words these are.
pub const ASKED: usize = 9;

pub fn asked_at(data: &[u8], at: usize) -> Asked {
    Asked {
        words: word_or_0(data, at),
        deck_words: word_or_0(data, after(at, 1)),
        label_words: word_or_0(data, after(at, 2)),
        verdict_words: word_or_0(data, after(at, 3)),
        concepts: word_or_0(data, after(at, 4)),
        bounds: Bounds {
            max_elements: word_or_0(data, after(at, 5)),
            max_edges: word_or_0(data, after(at, 6)),
            max_rounds: word_or_0(data, after(at, 7)),
        },
        last_phase: word_or_0(data, after(at, 8)),
    }
}
