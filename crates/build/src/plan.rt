// What building reads, and never changes.
ghost use Rattle.std.specs.Prelude.{◌≡◌, length};
ghost use Rattle.deck.specs.Content.{deck_of};
ghost use Rattle.eval.specs.Lent.{label_width};

use crate::bounds::Bounds;
use deck::Deck;

// A deck, the bounds of the run, and the floor: what a label with no real class takes in.
#[derive(Clone, Copy)]
pub struct Plan<'p> {
    pub deck: Deck<'p>,
    pub bounds: Bounds,
    pub floor: &'p [u64],
    pub ghost floor_wide: { length floor.now ≡ label_width (deck_of deck.bytes.now) },
}
