// Concepts of a list, by their places.
// A list goes with its deck and owner as parameters: a struct of them would be made for each And that a walk comes to.
ghost use Rattle.std.specs.Prelude.{◌≡◌, ◌<◌, get_or};
ghost use Rattle.deck.specs.Accepted.{content};
ghost use Rattle.deck.specs.Deck.{concept_count};
ghost use Rattle.deck.specs.Reads.{list_of, ListFits};

use deck::Deck;
use deck::numbers::ConceptId;
use deck::rows::Span;

// Operand i of a list whose concepts are all below `owner`. `operand` and `member` stay two: the bodies are alike, but what they ask and promise of
// the number differs.
pub fn operand(deck: &Deck, owner: ConceptId, list: Span, i: u32) -> ConceptId
    requires list_fits { ListFits deck.now.bytes.now owner.0 list }
    requires i_lt_count { i < list.count }
    ensures is { result.0 ≡ get_or (list_of deck.now.bytes.now list) i 0 }
    ensures below { result.0 < owner.0 }
{
    ConceptId(deck.item(list, i))
}

// Member i of a list of concepts.
pub fn member(deck: &Deck, list: Span, i: u32) -> ConceptId
    requires list_fits { ListFits deck.now.bytes.now (concept_count (content deck.now)) list }
    requires i_lt_count { i < list.count }
    ensures is { result.0 ≡ get_or (list_of deck.now.bytes.now list) i 0 }
    ensures below { result.0 < concept_count (content deck.now) }
{
    ConceptId(deck.item(list, i))
}
