// Consequents that add nothing, by their form.
ghost use Rattle.std.specs.Prelude.{◌≡◌, ◌<◌};
ghost use Rattle.deck.specs.Content.{deck_of};
ghost use Rattle.deck.specs.Deck.{concept_count};
ghost use Rattle.build.specs.Exists.{builds_at};

use deck::Deck;
use deck::concepts::ConceptExpr;
use deck::numbers::ConceptId;

// Is it a consequent that goes further: an And, or a Some with a named role?
pub fn goes_on(deck: &Deck, concept: ConceptId) -> bool
    requires concept_bound { concept.0 < concept_count (deck_of deck.now.bytes.now) }
    ensures { result ≡ builds_at (deck_of deck.now.bytes.now) concept.0 }
{
    let expr = deck.concept_at(concept);
    match expr {
        ConceptExpr::And(_) => true,
        ConceptExpr::Some(w, _) => !w.is_inverse(),
        _ => false,
    }
}
