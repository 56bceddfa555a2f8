// The pairs of a role one after the other, "by from then to", each as the number from × 65,536 + to.
// A pair stays one number: a search goes on from the number after it, and from element to element by 65,536.
ghost use Rattle.std.specs.Prelude.{◌≡◌, ◌*◌, ◌<◌, ◌≤◌, length, map, false};
ghost use Rattle.deck.specs.Content.{deck_of};
ghost use Rattle.deck.specs.Deck.{role_count};
ghost use Rattle.eval.specs.Edges.{edges_of, under};
ghost use Rattle.eval.specs.Lists.{any};
ghost use Rattle.model.specs.Pairs.{key_of, EndsFit};

use deck::Deck;
use deck::numbers::{Element, RoleId};
use eval::edges::{Edge, edge_at, is_sub_role};
use eval::index::{EdgeIndex, walk_of};

// The pairs of a role among the first `seen` edges. The index may have more of them, which were added since.
#[derive(Clone, Copy)]
pub struct Pairs<'d, 'a> {
    pub deck: Deck<'d>,
    pub all: EdgeIndex<'a>,
    pub seen: u32,
    pub role: RoleId,
    pub ghost within: { seen ≤ all.count },
    pub ghost role_bound: { role.0 < role_count (deck_of deck.bytes.now) },
    pub ghost ends_fit: { EndsFit (edges_of all.edges.now seen) },
}

fn key(e: Edge) -> u64
    ensures { result ≡ key_of e }
{
    let from = e.from.0 as u64;
    let to = e.to.0 as u64;
    from * 65536 + to
}

impl Pairs<'_, '_> {
    ghost use Rattle.std.specs.Prelude.{◌+◌, ◌-◌};
    ghost use Rattle.eval.specs.Lists.{keep, range};
    ghost use Rattle.model.specs.Pairs.{nearer_of, first, Nearest};
    ghost use Rattle.model.specs.PairWalks.{hits};

    // The nearer of `best` and the edge's pair, where that is at or after `after` and belongs to the role.
    fn nearer(&self, e: Edge, after: u64, best: u64) -> u64
        ensures { result ≡ nearer_of after (key_of e) (under (deck_of self.now.deck.bytes.now) self.now.role.0 e) best }
    {
        let k = key(e);
        if after <= k && k < best && is_sub_role(&self.deck, e, self.role) {
            return k;
        }
        best
    }

    // The lowest pair from `after` on, by a look at each edge. Here and in `next_from` best stays a number that is the end while there is none:
    // an Option would be one case more for `nearer`.
    fn scan(&self, after: u64) -> Option<u64>
        ensures { Nearest (λ k. k) (hits self.now) after (self.now.all.elements * 65536) result }
    {
        let end = self.all.elements as u64 * 65536;
        let mut best = end;
        for i in 0..self.seen as usize {
            best = self.nearer(edge_at(self.all.edges, i), after, best);
        }
        (best < end).then_some(best)
    }

    // The lowest pair that leaves x, from `after` on.
    fn next_from(&self, x: Element, after: u64) -> Option<u64>
        requires x_lt_elements { x.0 < self.now.all.elements }
        requires after_bound { x.0 * 65536 ≤ after }
        ensures { Nearest (λ k. k) (hits self.now) after (x.0 * 65536 + 65536) result }
    {
        let end = x.0 as u64 * 65536 + 65536;
        let mut w = walk_of(self.all.index, x);
        let mut best = end;
        // A `while`: `leaving` would go on to the edges that were added since.
        while w.at < self.seen as usize {
            let e = edge_at(self.all.edges, w.at);
            if e.from != x {
                w = self.all.jump(x, w);
                continue;
            }
            best = self.nearer(e, after, best);
            w.at += 1;
        }
        (best < end).then_some(best)
    }

    // The same as `scan`, element by element.
    fn walk(&self, after: u64) -> Option<u64>
        requires { after ≤ self.now.all.elements * 65536 }
        ensures { Nearest (λ k. k) (hits self.now) after (self.now.all.elements * 65536) result }
    {
        let elements = self.all.elements;
        let first = (after / 65536) as u32;
        for x in first..elements {
            let from = after.max(x as u64 * 65536);
            if let Some(k) = self.next_from(Element(x), from) {
                return Some(k);
            }
        }
        None
    }

    // The lowest pair from `after` on: element by element where the index has room for the elements, unless `few` asks for a look at each edge.
    pub fn next(&self, after: u64, few: bool) -> Option<u64>
        requires { after ≤ self.now.all.elements * 65536 }
        ensures { result ≡ first (keep (hits self.now) (range after (self.now.all.elements * 65536 - after))) }
    {
        if few || self.all.index.len() <= self.all.elements as usize {
            return self.scan(after);
        }
        self.walk(after)
    }
}

// How many of the first `count` edges are of r.
pub fn count_pairs(deck: &Deck<'_>, edges: &[[u32; 3]], count: u32, r: RoleId) -> usize
    requires r_bound { r.0 < role_count (deck_of deck.now.bytes.now) }
    requires count_in_bounds { count ≤ length edges.now }
    ensures { result ≡ 0 → any (map (under (deck_of deck.now.bytes.now) r.0) (edges_of edges.now count)) ≡ false }
{
    edges[..count as usize]
        .iter()
        .filter(|row| is_sub_role(deck, Edge::from(*row), r))
        .count()
}
