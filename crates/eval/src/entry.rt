// Judging one concept or axiom over a lent structure. Nothing is taken for granted: what does not fit is refused.
// The structure goes as C gives it, in slices and numbers: `Lent::read` makes one value of them.
ghost use Rattle.std.specs.Prelude.{true, ◌≡◌};
ghost use Rattle.deck.specs.Content.{deck_of};
ghost use Rattle.deck.specs.Deck.{axiom_at};
ghost use Rattle.eval.specs.declared.judgement.Judgement.{Judgement};
ghost use Rattle.eval.specs.declared.verdict.Verdict.{Verdict};
ghost use Rattle.eval.specs.Entry.{shape_of, concept_answer, axiom_answer};
ghost use Rattle.eval.specs.Judge.{Right, truth};
ghost use Rattle.eval.specs.Justified.{Justified};
ghost use Rattle.eval.specs.Lent.{structure_of};
ghost use Rattle.eval.specs.Truth.{Choice, ext, plain};

use crate::judgement::Judgement;
use crate::lent::Lent;
use crate::shape::Shape;
use crate::verdict::Verdict;
use deck::numbers::{ConceptId, Element};
use deck::refusal::Refusal;

// Is the element in the concept, in the structure of the first `elements` labels and the first `edge_count` edges?
pub fn eval_concept_in(
    deck: &[u8],
    labels: &[u64],
    elements: u32,
    edges: &[[u32; 3]],
    edge_count: u32,
    concept: ConceptId,
    element: Element,
) -> Result<Judgement, Refusal>
    ensures is { result ≡ concept_answer deck.now labels.now edges.now (shape_of elements edge_count) concept.0 element.0 }
    ensures right { (j : Judgement) → result ≡ Ok j → (χ : Choice) → Right j (ext (deck_of deck.now) (structure_of (deck_of deck.now) labels.now edges.now (shape_of elements edge_count)) χ concept.0 element.0) }
    ensures exact { (j : Judgement) → result ≡ Ok j → plain (deck_of deck.now) concept.0 ≡ true → (χ : Choice) → j ≡ truth (ext (deck_of deck.now) (structure_of (deck_of deck.now) labels.now edges.now (shape_of elements edge_count)) χ concept.0 element.0) }
{
    let shape = Shape {
        elements,
        edges: edge_count,
    };
    let lent = Lent::read(deck, labels, edges, shape)?;
    if concept.0 >= lent.deck.concept_count() {
        return Err(Refusal::AbsentIndex);
    }
    if element.0 >= elements {
        return Err(Refusal::AbsentIndex);
    }
    Ok(lent.judge_concept(concept, element))
}

// Is the axiom satisfied in that structure?
pub fn check_axiom_in(
    deck: &[u8],
    labels: &[u64],
    elements: u32,
    edges: &[[u32; 3]],
    edge_count: u32,
    axiom: u32,
) -> Result<Verdict, Refusal>
    ensures is { result ≡ axiom_answer deck.now labels.now edges.now (shape_of elements edge_count) «axiom» }
    ensures justified { (v : Verdict) → result ≡ Ok v → Justified (deck_of deck.now) (structure_of (deck_of deck.now) labels.now edges.now (shape_of elements edge_count)) (axiom_at (deck_of deck.now) «axiom») v }
{
    let shape = Shape {
        elements,
        edges: edge_count,
    };
    let lent = Lent::read(deck, labels, edges, shape)?;
    if axiom >= lent.deck.axiom_count() {
        return Err(Refusal::AbsentIndex);
    }
    Ok(lent.judge_axiom(axiom))
}
