// Whether a rule's antecedent holds at an element: by its required atoms, which a universal antecedent has none of.
ghost use Rattle.std.specs.Prelude.{◌≡◌, ◌&&◌, ◌<◌};
ghost use Rattle.deck.specs.Accepted.{content};
ghost use Rattle.deck.specs.Deck.{concept_count};
ghost use Rattle.atoms.specs.Antecedent.{has_atom, is_rule, holds_atoms};

use crate::floor::is_universal_antecedent;
use crate::leaves::Question;
use crate::short::answer_soon;
use deck::Deck;
use deck::numbers::ConceptId;

// Does the label have every required atom of the concept?
fn holds_atoms(deck: &Deck, label: &[u64], concept: ConceptId) -> bool
    requires concept_bound { concept.0 < concept_count (content deck.now) }
    ensures { result ≡ holds_atoms (content deck.now) label.now concept.0 }
{
    answer_soon(deck, &Question::Held(label), concept)
}

// Does the concept have a required atom?
fn has_atom(deck: &Deck, concept: ConceptId) -> bool
    requires concept_bound { concept.0 < concept_count (content deck.now) }
    ensures { result ≡ has_atom (content deck.now) concept.0 }
{
    !answer_soon(deck, &Question::Atomless, concept)
}

// Is the concept a rule's antecedent?
pub fn is_rule(deck: &Deck, concept: ConceptId) -> bool
    requires concept_bound { concept.0 < concept_count (content deck.now) }
    ensures { result ≡ is_rule (content deck.now) concept.0 }
{
    has_atom(deck, concept) || is_universal_antecedent(deck, concept)
}

// Does a rule with this antecedent fire at an element of this label? The atoms come first: they are what mostly fails.
#[inline(never)]
pub fn fires(deck: &Deck, label: &[u64], ante: ConceptId) -> bool
    requires ante_bound { ante.0 < concept_count (content deck.now) }
    ensures { result ≡ (holds_atoms (content deck.now) label.now ante.0 && is_rule (content deck.now) ante.0) }
{
    holds_atoms(deck, label, ante) && is_rule(deck, ante)
}
