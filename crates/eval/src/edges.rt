// The lent list of edges: only `Edge::from` reads a row of it, and only `edge_by` turns an edge.
ghost use Rattle.std.specs.Prelude.{◌≡◌, [], ◌*◌, ◌<◌, length, get_or};
ghost use Rattle.deck.specs.Content.{deck_of};
ghost use Rattle.deck.specs.Deck.{role_count, role_of};
ghost use Rattle.eval.specs.Edges.{edge_of, edges_of, leaves, linked, linked_by, turned, under};
ghost use Rattle.eval.specs.InLent.{deck_in, edges_in};

use crate::index::EdgeIndex;
use crate::lent::Judging;
use deck::Deck;
use deck::numbers::{Element, RoleId, RoleWord};

#[derive(Clone, Copy, PartialEq, Eq)]
pub struct Edge {
    pub role: RoleId,
    pub from: Element,
    pub to: Element,
}

impl From<&[u32; 3]> for Edge {
    ghost from_gives = { λ row edge. edge ≡ edge_of row.now };

    fn from(row: &[u32; 3]) -> Edge {
        Edge {
            role: RoleId(row[0]),
            from: Element(row[1]),
            to: Element(row[2]),
        }
    }
}

// That there is such a row is asked for: a place alone does not hold the list.
pub fn edge_at(edges: &[[u32; 3]], i: usize) -> Edge
    requires { i < length edges.now }
    ensures { result ≡ edge_of (get_or edges.now i []) }
{
    Edge::from(&edges[i])
}

// An edge as a role word sees it: turned if the word is inverse.
pub fn edge_by(edges: &[[u32; 3]], i: usize, word: RoleWord) -> Edge
    requires { i < length edges.now }
    ensures { result ≡ turned (role_of word.0) (edge_of (get_or edges.now i [])) }
{
    let e = edge_at(edges, i);
    if word.is_inverse() {
        return Edge {
            role: e.role,
            from: e.to,
            to: e.from,
        };
    }
    e
}

// Is the edge's role a sub-role of r?
pub fn is_sub_role(deck: &Deck<'_>, e: Edge, r: RoleId) -> bool
    requires r_bound { r.0 < role_count (deck_of deck.now.bytes.now) }
    ensures { result ≡ under (deck_of deck.now.bytes.now) r.0 e }
{
    deck.row_has(deck.sub_roles(r), e.role.0)
}

// Does the edge leave x by r?
pub fn leaves_by(deck: &Deck<'_>, e: Edge, r: RoleId, x: Element) -> bool
    requires r_bound { r.0 < role_count (deck_of deck.now.bytes.now) }
    ensures { result ≡ leaves (deck_of deck.now.bytes.now) r.0 x.0 e }
{
    e.from == x && is_sub_role(deck, e, r)
}

impl EdgeIndex<'_> {
    // Is (x, y) a pair of the role word?
    pub fn has_pair(&self, deck: &Deck<'_>, word: RoleWord, x: Element, y: Element) -> bool
        requires word_bound { word.0 < 2 * role_count (deck_of deck.now.bytes.now) }
        requires x_lt_elements { x.0 < self.now.elements }
        requires y_lt_elements { y.0 < self.now.elements }
        ensures { result ≡ linked_by (deck_of deck.now.bytes.now) (edges_of self.now.edges.now self.now.count) (role_of word.0) x.0 y.0 }
    {
        let r = word.role_id();
        if word.is_inverse() {
            return self.has_edge(deck, r, y, x);
        }
        self.has_edge(deck, r, x, y)
    }

    // Does an edge of r go from x to y?
    pub fn has_edge(&self, deck: &Deck<'_>, r: RoleId, x: Element, y: Element) -> bool
        requires r_bound { r.0 < role_count (deck_of deck.now.bytes.now) }
        requires x_lt_elements { x.0 < self.now.elements }
        ensures { result ≡ linked (deck_of deck.now.bytes.now) (edges_of self.now.edges.now self.now.count) r.0 x.0 y.0 }
    {
        self.leaving(x)
            .any(|e| e.to == y && is_sub_role(deck, e, r))
    }
}

impl Judging<'_> {
    // The same of the structure that is judged.
    #[inline(always)]
    pub fn has_pair(&self, word: RoleWord, x: Element, y: Element) -> bool
        requires word_bound { word.0 < 2 * role_count (deck_in self.now.lent) }
        requires x_lt_elements { x.0 < self.now.lent.shape.elements }
        requires y_lt_elements { y.0 < self.now.lent.shape.elements }
        ensures { result ≡ linked_by (deck_in self.now.lent) (edges_in self.now.lent) (role_of word.0) x.0 y.0 }
    {
        self.edge_index().has_pair(&self.lent.deck, word, x, y)
    }

    #[inline(always)]
    pub fn has_edge(&self, r: RoleId, x: Element, y: Element) -> bool
        requires r_bound { r.0 < role_count (deck_in self.now.lent) }
        requires x_lt_elements { x.0 < self.now.lent.shape.elements }
        ensures { result ≡ linked (deck_in self.now.lent) (edges_in self.now.lent) r.0 x.0 y.0 }
    {
        self.edge_index().has_edge(&self.lent.deck, r, x, y)
    }
}
