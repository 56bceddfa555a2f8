// The classes of an element.
ghost use Rattle.std.specs.Prelude.{◌≡◌, ◌+◌, ◌*◌, ◌/◌, ◌<◌, ◌≤◌, length, get_or};
ghost use Rattle.deck.specs.Content.{deck_of};
ghost use Rattle.deck.specs.Deck.{class_count};
ghost use Rattle.eval.specs.Lent.{bit, label_width, member_in};

use deck::Deck;
use deck::numbers::{ClassId, Element};

// The words of a label.
pub fn label_width(deck: &Deck<'_>) -> usize
    ensures { (result ≡ label_width (deck_of deck.now.bytes.now)) × (result ≤ 64) }
{
    (deck.class_count() as usize + 63) / 64
}

// Bit b of a word. Its number stays a u64, as a shift takes it, bounded where it is asked for: a wrapper would be made and taken apart at each call.
pub fn bit_of(w: u64, b: u64) -> bool
    requires { b < 64 }
    ensures { result ≡ bit w b }
{
    (w >> b) % 2 == 1
}

// The place of word j of row e, in a table of n rows of w words that a buffer holds.
pub fn cell(e: usize, n: usize, w: usize, j: usize, room: usize) -> usize
    requires { (e < n) × (j < w) × (n * w ≤ room) }
    ensures { (result ≡ e * w + j) × (result < room) }
{
    e * w + j
}

// The labels of so many elements, each a bit for each class of the deck.
#[derive(Clone, Copy)]
pub struct Labels<'a> {
    pub deck: Deck<'a>,
    pub words: &'a [u64],
    pub elements: u32,
    pub ghost room: { elements * label_width (deck_of deck.bytes.now) ≤ length words.now },
}

impl Labels<'_> {
    // Word j of e's label.
    pub fn word(&self, e: Element, j: usize) -> u64
        requires e_lt_elements { e.0 < self.now.elements }
        requires j_lt_width { j < label_width (deck_of self.now.deck.bytes.now) }
        ensures { result ≡ get_or self.now.words.now (e.0 * label_width (deck_of self.now.deck.bytes.now) + j) 0 }
    {
        let width = label_width(&self.deck);
        self.words[cell(
            e.0 as usize,
            self.elements as usize,
            width,
            j,
            self.words.len(),
        )]
    }

    pub fn has_class(&self, e: Element, class: ClassId) -> bool
        requires e_lt_elements { e.0 < self.now.elements }
        requires class_bound { class.0 < class_count (deck_of self.now.deck.bytes.now) }
        ensures { result ≡ member_in self.now.words.now (label_width (deck_of self.now.deck.bytes.now)) e.0 class.0 }
    {
        bit_of(self.word(e, class.0 as usize / 64), (class.0 % 64) as u64)
    }
}
