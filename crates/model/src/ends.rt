// The ends of a role's edges from an element, as bits: element z is bit z mod 64 of word z / 64.
ghost use Rattle.std.specs.Prelude.{◌≡◌, ◌*◌, ◌<◌, ◌≤◌, length};
ghost use Rattle.std.specs.Int.Bits.{bit_and, bit_xor};
ghost use Rattle.deck.specs.Content.{deck_of};
ghost use Rattle.deck.specs.Deck.{role_count};
ghost use Rattle.eval.specs.Edges.{edges_of};
ghost use Rattle.model.specs.Pairs.{Nearest};
ghost use Rattle.model.specs.Closing.{EdgesFit};
ghost use Rattle.model.specs.Ends.{Ends, is_new};

use atoms::labels::{after, clear_first, from_bit, insert_bit};
use deck::Deck;
use deck::numbers::{Element, RoleId};
use eval::index::EdgeIndex;

// Room for the ends that closing has ahead from an element, and for those that are known.
#[derive(Drop)]
pub struct Marks {
    pub ahead: [u64; 1024],
    pub known: [u64; 1024],
    pub ghost ahead_wide: { length ahead ≡ 1024 },
    pub ghost known_wide: { length known ≡ 1024 },
}

// The ends of the edges of r from x.
pub fn mark_ends(deck: &Deck<'_>, all: &EdgeIndex<'_>, r: RoleId, x: Element, bits: &mut [u64])
    requires r_bound { r.0 < role_count (deck_of deck.now.bytes.now) }
    requires edges_fit { EdgesFit (deck_of deck.now.bytes.now) all.now.elements (edges_of all.now.edges.now all.now.count) }
    requires x_lt_elements { x.0 < all.now.elements }
    requires elements_in_bounds { all.now.elements ≤ length bits.old * 64 }
    ensures { Ends (deck_of deck.now.bytes.now) all.now.elements (edges_of all.now.edges.now all.now.count) r.0 x.0 bits.new }
{
    let row = deck.sub_roles(r);
    clear_first(bits, (all.elements as usize + 63) / 64);
    for e in all.leaving(x) {
        if deck.row_has(row, e.role.0) {
            insert_bit(bits, e.to.0);
        }
    }
}

// The bits of a that b has not.
fn without(a: u64, b: u64) -> u64
    ensures { result ≡ bit_xor a (bit_and a b) }
{
    a ^ (a & b)
}

impl Marks {
    // The next element from z on that is ahead and not known. A loop of its own beside `next_class` of `FactIndex`: of both, the word of a place
    // would be a closure, and all that is promised of bits be said of it.
    pub fn next_new(&self, elements: u32, z: u32) -> Option<Element>
        requires { elements ≤ 65536 }
        ensures { Nearest (λ e. e.0) (is_new self.now.ahead self.now.known) z elements result }
    {
        let mut i = z;
        // A `while`, as it goes on to the next word where no bit is left in this one.
        while i < elements {
            let j = i as usize / 64;
            let rest = from_bit(without(self.ahead[j], self.known[j]), (i % 64) as u64);
            if rest % 2 == 1 {
                return Some(Element(i));
            }
            i = after(rest, i);
        }
        None
    }
}
