// Walks of a concept from an element that left elements and edges as they were, remembered in a lent table until the structure has grown: made again, each would give the reasons that it gave. A table of fewer than 8,192 walks remembers none; an `Option` of a table is no plainer, as a loop would have to lend out what it holds anew for each call.
// The tally goes beside the table, as it is the build's.
ghost use Rattle.std.specs.Prelude.{◌≡◌, true, ◌<◌, ◌≤◌, length, IfSome};
ghost use Rattle.build.specs.Again.{size_of, word_of, Worded, Known, Kept};

use crate::tally::Tally;
use atoms::reasons::Stretch;
use deck::Deck;
use deck::numbers::{ConceptId, Element};

// A walk, by its word, and the reasons that it gave. The word of none is 0.
#[derive(Clone, Copy)]
pub struct Walked {
    pub word: u64,
    pub given: Stretch,
}

// Is there a word for concept o at element e?
fn has_word(o: ConceptId, e: Element) -> bool
    ensures { result ≡ true → Worded o.0 e.0 }
{
    o.0 < 16384 && e.0 < 65536
}

// The word: the size of the structure and one, then the element in 16 bits, then the concept in 14.
fn word(t: Tally, o: ConceptId, e: Element) -> u64
    requires { Worded o.0 e.0 }
    ensures { result ≡ word_of (size_of t) o.0 e.0 }
{
    let size = t.elements as u64 + t.edges as u64;
    (size + 1) * 1073741824 + (e.0 as u64 * 16384 + o.0 as u64)
}

// Where it stands, by how many concepts the deck has. While concepts times elements are at most 8,192, each walk has a place of its own. Else the first 8,192 concepts at one element have, and elements up to 254 apart lie at least 31 places apart.
fn place(concepts: u32, t: Tally, o: ConceptId, e: Element) -> usize
    requires { Worded o.0 e.0 }
    ensures { result < 8192 }
{
    let stride = if concepts as u64 * t.elements as u64 <= 8192 {
        concepts
    } else {
        5451
    };
    ((e.0 as u64 * stride as u64 + o.0 as u64) % 8192) as usize
}

// The reasons that the walk of concept o from element e gives while the tally is t, where the table has it.
#[inline(never)]
fn look_up(deck: &Deck, memo: &[Walked], t: Tally, o: ConceptId, e: Element) -> Option<Stretch>
    requires { 8192 ≤ length memo.now }
    ensures { IfSome result (λ s. Known memo.now t o.0 e.0 s) }
{
    if !has_word(o, e) {
        return None;
    }
    let known = memo[place(deck.concept_count(), t, o, e)];
    if known.word != word(t, o, e) {
        return None;
    }
    Some(known.given)
}

// The same of any table. The rest of both functions below is never inlined, so that a walk without a table goes through operands by a short loop.
pub fn given_again(
    deck: &Deck,
    memo: &[Walked],
    t: Tally,
    o: ConceptId,
    e: Element,
) -> Option<Stretch>
    ensures { IfSome result (λ s. Known memo.now t o.0 e.0 s) }
{
    if memo.len() < 8192 {
        return None;
    }
    look_up(deck, memo, t, o, e)
}

// Remembers the walk of concept o from element e, which took the tally from t to u, where it left elements and edges as they were.
#[inline(never)]
fn store(deck: &Deck, memo: &mut [Walked], t: Tally, u: Tally, o: ConceptId, e: Element)
    requires table { 8192 ≤ length memo.old }
    requires reasons { t.reasons ≤ u.reasons }
    ensures { Kept memo.old memo.new t u o.0 e.0 }
{
    if !has_word(o, e) {
        return;
    }
    if t.elements != u.elements || t.edges != u.edges {
        return;
    }
    let given = Stretch {
        first: t.reasons,
        count: u.reasons - t.reasons,
    };
    memo[place(deck.concept_count(), u, o, e)] = Walked {
        word: word(u, o, e),
        given,
    };
}

// The same in any table. That the total before fits 32 bits its type says; a caller's proof has to be told.
pub fn remember(deck: &Deck, memo: &mut [Walked], t: Tally, u: Tally, o: ConceptId, e: Element)
    requires { t.reasons ≤ u.reasons }
    ensures kept { Kept memo.old memo.new t u o.0 e.0 }
    ensures total { t.reasons ≤ 4294967295 }
{
    if memo.len() < 8192 {
        return;
    }
    store(deck, memo, t, u, o, e);
}
