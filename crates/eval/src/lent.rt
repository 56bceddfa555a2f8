// What is lent to judge with: a deck and a structure, and an index of its edges.
ghost use Rattle.eval.specs.Index.{Indexed};
ghost use Rattle.eval.specs.Lent.{Fits};

use crate::shape::Shape;
use deck::Deck;

// A deck and a structure that fits it.
#[derive(Clone, Copy)]
pub struct Lent<'a> {
    pub deck: Deck<'a>,
    pub labels: &'a [u64],
    pub edges: &'a [[u32; 3]],
    pub shape: Shape,
    pub ghost fits: { Fits deck.bytes.now labels.now edges.now shape },
}

// The same with an index of the edges. What judging remembers, a table that each judgement may change, is lent beside it: held
// here by a `&mut` it would have each contract and loop say that the deck, the structure and the index stay as they are.
// That a number is one of the deck's, or an element, is asked for where it is used: its wrapper of one field cannot hold the deck.
#[derive(Clone, Copy)]
pub struct Judging<'a> {
    pub lent: Lent<'a>,
    pub index: &'a [u32],
    pub ghost indexed: { Indexed lent.edges.now lent.shape.elements lent.shape.edges index.now },
}
