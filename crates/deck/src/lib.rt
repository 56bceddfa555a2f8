// Reads and checks a deck: document 01, section 1.
#![tactic(auto)]

mod accepted;
pub mod axioms;
pub mod classes;
pub mod concepts;
pub mod facts;
mod faults;
mod forms;
pub mod injected;
pub mod numbers;
mod parts;
mod records;
pub mod refusal;
pub mod roles;
pub mod rows;
mod trailer;
pub mod words;

ghost use Rattle.std.specs.Prelude.{◌≡◌};
ghost use Rattle.deck.specs.Answer.{trailer_answer};
ghost use Rattle.deck.specs.Records.{deck_answer};

use crate::forms::Draft;
use crate::refusal::Refusal;
use crate::trailer::Trailer;
pub use accepted::Deck;
pub use parts::Parts;

// The tests 1 to 4, for a reader of an edition.
fn check_trailer(deck: &[u8], edition: u32) -> Result<(), Refusal>
    ensures { result ≡ trailer_answer edition deck.now }
{
    if deck.len() % 4 != 0 {
        return Err(Refusal::TooShort);
    }
    if deck.len() < 72 {
        return Err(Refusal::TooShort);
    }
    let trailer = Trailer { bytes: deck };
    if trailer.word(0) != edition {
        return Err(Refusal::UnknownEdition);
    }
    if !trailer.counts_fit() {
        return Err(Refusal::CountOverLimit);
    }
    if !trailer.layout_fits() {
        return Err(Refusal::BadLayout);
    }
    Ok(())
}

// Whether the deck is in order, and if not the first refusal.
pub fn check_deck(deck: &[u8]) -> Result<(), Refusal>
    ensures { result ≡ deck_answer deck.now }
{
    check_trailer(deck, 1)?;
    Draft::new(Parts { bytes: deck }).records_answer()
}
