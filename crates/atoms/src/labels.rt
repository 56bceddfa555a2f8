// A label: words of 64 bits, class k being bit k mod 64 of word k / 64. One in the making is a slice of its own. How wide it is its deck
// says, so functions ask for it: a type of both would hold a `&mut`, and each step would have to say that it stays the same one.
ghost use Rattle.std.specs.Prelude.{[], ◌≡◌, cond, ℕ, ◌+◌, ◌*◌, ◌/◌, ◌^◌, ◌<◌, ◌≤◌, length, get_or, replicate, eqb};
ghost use Rattle.std.specs.Int.Bits.{bit_or};
ghost use Rattle.deck.specs.Accepted.{content};
ghost use Rattle.eval.specs.Lent.{label_width};
ghost use Rattle.atoms.specs.Rows.{rows_of};
ghost use Rattle.atoms.specs.Label.{label_has, insert_bit, joined};

use deck::Deck;
use deck::numbers::{ClassId, Element};
use eval::labels::{bit_of, label_width};

// A word with bit b.
fn with_bit(w: u64, b: u64) -> u64
    requires { b < 64 }
    ensures { result ≡ bit_or w (2 ^ b) }
{
    w | (1 << b)
}

// The word from bit b on.
pub fn from_bit(w: u64, b: u64) -> u64
    requires { b < 64 }
    ensures { result ≡ w / 2 ^ b }
{
    w >> b
}

// Bit k of the words.
pub fn has_bit(words: &[u64], k: u32) -> bool
    requires { k / 64 < length words.now }
    ensures { result ≡ label_has words.now k }
{
    let i = k as usize / 64;
    bit_of(words[i], (k % 64) as u64)
}

// Bit k of the words becomes 1.
pub fn insert_bit(words: &mut [u64], k: u32)
    requires { k / 64 < length words.old }
    ensures { words.new ≡ insert_bit words.old k }
{
    let i = k as usize / 64;
    words[i] = with_bit(words[i], (k % 64) as u64);
}

// The label takes a class in.
pub fn insert(label: &mut [u64], class: ClassId)
    requires { class.0 / 64 < length label.old }
    ensures { label.new ≡ insert_bit label.old class.0 }
{
    insert_bit(label, class.0);
}

// The label of element e, of so many in a buffer: how many are in use stands beside it, as the buffer is lent longer than it is used.
pub fn label_at<'a>(deck: &Deck, labels: &'a [u64], elements: u32, e: Element) -> &'a [u64]
    requires deck_in_bounds { elements * label_width (content deck.now) ≤ length labels.now }
    requires e_lt_elements { e.0 < elements }
    ensures { result.now ≡ get_or (rows_of (label_width (content deck.now)) elements labels.now) e.0 [] }
{
    let width = label_width(deck);
    let at = e.0 as usize * width;
    &labels[at..at + width]
}

// The first n words become 0.
// How many stays beside them, as a room may be longer than what is used of it.
pub fn clear_first(words: &mut [u64], n: usize)
    requires { n ≤ length words.old }
    ensures { (k : ℕ) → k < n → get_or words.new k 0 ≡ 0 }
{
    words[..n].fill(0);
}

// The label without a class.
pub fn clear(label: &mut [u64])
    ensures { label.new ≡ replicate (length label.old) 0 }
{
    label.fill(0);
}

// The label takes another one's classes in.
pub fn join(label: &mut [u64], other: &[u64])
    requires { length other.now ≡ length label.old }
    ensures { label.new ≡ joined label.old other.now }
{
    for (i, word) in label.iter_mut().enumerate() {
        *word |= other[i];
    }
}

// The place after k, or the first of the next word where no bit is left in this one: a place, and so no Option.
pub fn after(rest: u64, k: u32) -> u32
    requires { k < 65536 }
    ensures { result ≡ cond (eqb rest 0) ((k / 64 + 1) * 64) (k + 1) }
{
    if rest == 0 {
        return (k / 64 + 1) * 64;
    }
    k + 1
}
