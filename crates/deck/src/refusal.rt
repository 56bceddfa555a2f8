// Why a deck, a run or a question is refused.
ghost use Rattle.std.specs.Prelude.{◌≡◌};
ghost use Rattle.deck.specs.Refusal.{number_of, fault_word, word_of};

use crate::numbers::WordIndex;
use std::error::Error;
use std::fmt;

// The thirteen refusals. Document 01 calls them, in order: short copy, wrong edition, overset,
// bad imposition, turned sort, circular copy, bad measure, short galley, foreign structure,
// absent line; then pied type in three heaps, each with the word at which the first fault lies.
#[derive(Clone, Copy, Debug, PartialEq, Eq)]
pub enum Refusal {
    TooShort,
    UnknownEdition,
    CountOverLimit,
    BadLayout,
    BadOrder,
    ForwardOperand,
    BadBounds,
    ShortBuffer,
    ForeignStructure,
    AbsentIndex,
    UnknownTag(WordIndex),
    OutOfRange(WordIndex),
    FilledField(WordIndex),
}

impl Refusal {
    // The number of the refusal.
    // A method and no From: it stays beside `word`, and both are asked for by name.
    pub fn number(self) -> u32
        ensures { result ≡ number_of self }
    {
        match self {
            Refusal::TooShort => 1,
            Refusal::UnknownEdition => 2,
            Refusal::CountOverLimit => 3,
            Refusal::BadLayout => 4,
            Refusal::BadOrder => 6,
            Refusal::ForwardOperand => 7,
            Refusal::BadBounds => 8,
            Refusal::ShortBuffer => 9,
            Refusal::ForeignStructure => 10,
            Refusal::AbsentIndex => 11,
            Refusal::UnknownTag(_) => 12,
            Refusal::OutOfRange(_) => 13,
            Refusal::FilledField(_) => 14,
        }
    }

    // The word at which the fault lies, if the refusal is for one.
    pub fn word(self) -> Option<WordIndex>
        ensures { result ≡ fault_word self }
    {
        match self {
            Refusal::UnknownTag(word) => Some(word),
            Refusal::OutOfRange(word) => Some(word),
            Refusal::FilledField(word) => Some(word),
            _ => None,
        }
    }
}

// Stands for the word of a refusal that has none: no deck has so many words.
// It stays a number, as C has no Option.
pub const NO_WORD: u32 = 4294967295;

// The word of a refusal, or NO_WORD.
pub fn refusal_word(refusal: Refusal) -> u32
    ensures { result ≡ word_of refusal }
{
    match refusal.word() {
        Some(index) => index.0,
        None => NO_WORD,
    }
}

// The number, and after a space the word if there is one.
impl fmt::Display for Refusal {
    fn fmt<W: fmt::Write>(&self, f: &mut fmt::Formatter<W>) -> fmt::Result {
        let number = self.number();
        match self.word() {
            Some(word) => {
                let index = word.0;
                write!(f, "{number} {index}")
            }
            None => write!(f, "{number}"),
        }
    }
}

impl Error for Refusal {}
