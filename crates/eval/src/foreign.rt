// Does a lent structure fit the deck?
ghost use Rattle.std.specs.Prelude.{◌≡◌, ◌≤◌, ◌<◌, length, IfOk};
ghost use Rattle.deck.specs.Content.{deck_of};
ghost use Rattle.deck.specs.declared.refusal.Refusal.{Refusal};
ghost use Rattle.eval.specs.Entry.{LentAs, lent_answer};
ghost use Rattle.eval.specs.Foreign.{counts_fit, edge_fits, edges_fit, label_fits, labels_fit, structure_fits};

use crate::edges::Edge;
use crate::labels::{Labels, label_width};
use crate::lent::Lent;
use crate::shape::Shape;
use deck::Deck;
use deck::numbers::Element;
use deck::refusal::Refusal;

// The counts are within their buffers, and the elements at most 65,536.
fn counts_fit(deck: &Deck<'_>, labels: &[u64], edges: &[[u32; 3]], shape: Shape) -> bool
    ensures { result ≡ counts_fit (deck_of deck.now.bytes.now) labels.now edges.now shape }
{
    let elements = shape.elements;
    if elements > 65536 {
        return false;
    }
    if elements as usize * label_width(deck) > labels.len() {
        return false;
    }
    shape.edges as usize <= edges.len()
}

// The edge's role is one of the deck's, and its ends are elements.
fn edge_fits(deck: &Deck<'_>, elements: u32, e: Edge) -> bool
    ensures { result ≡ edge_fits (deck_of deck.now.bytes.now) elements e }
{
    e.role.0 < deck.role_count() && e.from.0 < elements && e.to.0 < elements
}

fn edges_fit(deck: &Deck<'_>, edges: &[[u32; 3]], shape: Shape) -> bool
    requires edges_in_bounds { shape.edges ≤ length edges.now }
    ensures { result ≡ edges_fit (deck_of deck.now.bytes.now) edges.now shape }
{
    edges[..shape.edges as usize]
        .iter()
        .all(|row| edge_fits(deck, shape.elements, Edge::from(row)))
}

impl Labels<'_> {
    // The last word of e's label has no bit at or past N.
    fn label_fits(&self, e: Element) -> bool
        requires e_lt_elements { e.0 < self.now.elements }
        ensures { result ≡ label_fits (deck_of self.now.deck.bytes.now) self.now.words.now e.0 }
    {
        let n = self.deck.class_count();
        let used = n % 64;
        if used == 0 {
            return true;
        }
        self.word(e, n as usize / 64) >> used == 0
    }

    fn fit(&self, shape: Shape) -> bool
        requires shape_value { shape.elements ≡ self.now.elements }
        ensures { result ≡ labels_fit (deck_of self.now.deck.bytes.now) self.now.words.now shape }
    {
        (0..shape.elements).all(|e| self.label_fits(Element(e)))
    }
}

fn structure_fits(deck: &Deck<'_>, labels: &[u64], edges: &[[u32; 3]], shape: Shape) -> bool
    ensures { result ≡ structure_fits (deck_of deck.now.bytes.now) labels.now edges.now shape }
{
    if !counts_fit(deck, labels, edges, shape) {
        return false;
    }
    if !edges_fit(deck, edges, shape) {
        return false;
    }
    let labels = Labels {
        deck: *deck,
        words: labels,
        elements: shape.elements,
    };
    labels.fit(shape)
}

impl<'a> Lent<'a> {
    // The deck of these bytes with this structure, or the first refusal.
    pub fn read(
        deck: &'a [u8],
        labels: &'a [u64],
        edges: &'a [[u32; 3]],
        shape: Shape,
    ) -> Result<Lent<'a>, Refusal>
        ensures read { IfOk result (λ lent. LentAs lent deck.now labels.now edges.now shape) }
        ensures refused { (refusal : Refusal) → result ≡ Err refusal → lent_answer deck.now labels.now edges.now shape ≡ Err refusal }
    {
        let deck = Deck::read(deck)?;
        if !structure_fits(&deck, labels, edges, shape) {
            return Err(Refusal::ForeignStructure);
        }
        Ok(Lent {
            deck,
            labels,
            edges,
            shape,
        })
    }

    pub fn class_labels(&self) -> Labels<'a>
        ensures { (result.deck.bytes.now ≡ self.now.deck.bytes.now) × (result.words.now ≡ self.now.labels.now) × (result.elements ≡ self.now.shape.elements) }
    {
        Labels {
            deck: self.deck,
            words: self.labels,
            elements: self.shape.elements,
        }
    }
}
