// A deck that was read and is in order.
ghost use Rattle.std.specs.Prelude.{◌≡◌, IfOk};
ghost use Rattle.deck.specs.Records.{deck_answer};
ghost use Rattle.deck.specs.Content.{IsAccepted};

use crate::check_deck;
use crate::parts::Parts;
use crate::refusal::Refusal;

// The bytes of an accepted deck. What they say is read by its methods: classes, roles, and so on, each in a file of its own.
#[derive(Clone, Copy)]
pub struct Deck<'a> {
    pub bytes: &'a [u8],
    pub ghost accepted: { IsAccepted bytes.now },
}

impl<'a> Deck<'a> {
    // The deck of these bytes, or the first refusal.
    pub fn read(bytes: &'a [u8]) -> Result<Deck<'a>, Refusal>
        ensures read { IfOk result (λ deck. deck.bytes.now ≡ bytes.now) }
        ensures refused { (refusal : Refusal) → result ≡ Err refusal → deck_answer bytes.now ≡ Err refusal }
    {
        check_deck(bytes)?;
        Ok(Deck { bytes })
    }

    pub(crate) fn parts(&self) -> Parts<'a>
        ensures { result.bytes.now ≡ self.now.bytes.now }
    {
        Parts { bytes: self.bytes }
    }
}
