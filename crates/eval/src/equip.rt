// What judging works with besides the structure: an index of its edges and a table of judgements, on the stack, in two sizes.
// That the sizes do is asked for (`Room`): they are const arguments, and no type holds them.
ghost use Rattle.std.specs.Prelude.{◌&&◌, ◌≡◌, ◌*◌, ◌<◌, ltb};
ghost use Rattle.deck.specs.Deck.{concept_count, axiom_count, axiom_at};
ghost use Rattle.eval.specs.Equipped.{Room};
ghost use Rattle.eval.specs.InLent.{deck_in, structure};
ghost use Rattle.eval.specs.Judge.{judge};
ghost use Rattle.eval.specs.Justified.{Justified};
ghost use Rattle.eval.specs.Verdict.{verdict};

use crate::index::make_index;
use crate::judgement::Judgement;
use crate::lent::{Judging, Lent};
use crate::shape::Shape;
use crate::verdict::Verdict;
use deck::numbers::{ConceptId, Element};

// Does the small room hold the index of any structure of this shape, and a word for each concept below `concepts` at each
// element?
pub fn is_small(shape: Shape, concepts: u32) -> bool
    ensures { result ≡ (ltb shape.edges 513 && ltb (shape.elements * concepts) 2040) }
{
    shape.edges < 513 && (shape.elements as u64) * (concepts as u64) < 2040
}

impl<'a> Lent<'a> {
    // The structure with an index of its edges, made in the words that are lent for it.
    pub fn indexed(self, index: &'a mut [u32]) -> Judging<'a>
        ensures { result.lent ≡ self.entry }
    {
        make_index(self.edges, self.shape.edges, self.shape.elements, index);
        Judging { lent: self, index }
    }
}

impl Lent<'_> {
    // Is element e in the concept? In a room of its own, of I words for the index and M for the table: it is made only for a
    // structure that needs it.
    #[inline(never)]
    fn concept_in_room<const I: usize, const M: usize>(
        &self,
        concept: ConceptId,
        e: Element,
    ) -> Judgement
        requires room { Room I M }
        requires concept_bound { concept.0 < concept_count (deck_in self.now) }
        requires e_lt_elements { e.0 < self.now.shape.elements }
        ensures is { result ≡ judge (deck_in self.now) (structure self.now) concept.0 e.0 }
    {
        let mut index: [u32; I] = [0; I];
        let mut memo: [u16; M] = [0; M];
        self.indexed(&mut index).eval_concept(&mut memo, concept, e)
    }

    // Is element e in the concept?
    pub fn judge_concept(&self, concept: ConceptId, e: Element) -> Judgement
        requires concept_bound { concept.0 < concept_count (deck_in self.now) }
        requires e_lt_elements { e.0 < self.now.shape.elements }
        ensures is { result ≡ judge (deck_in self.now) (structure self.now) concept.0 e.0 }
    {
        if is_small(self.shape, concept.0) {
            return self.concept_in_room::<2048, 2039>(concept, e);
        }
        self.concept_in_room::<163843, 262139>(concept, e)
    }

    // Is the axiom satisfied? Such a room again, and not one function for both: what is asked in it would be passed as a closure,
    // whose contract would have to say all that `eval_concept` and `check_axiom` promise.
    #[inline(never)]
    fn axiom_in_room<const I: usize, const M: usize>(&self, axiom: u32) -> Verdict
        requires room { Room I M }
        requires axiom_bound { «axiom» < axiom_count (deck_in self.now) }
        ensures is { result ≡ verdict (deck_in self.now) (structure self.now) (axiom_at (deck_in self.now) «axiom») }
        ensures justified { Justified (deck_in self.now) (structure self.now) (axiom_at (deck_in self.now) «axiom») result }
    {
        let mut index: [u32; I] = [0; I];
        let mut memo: [u16; M] = [0; M];
        self.indexed(&mut index).check_axiom(&mut memo, axiom)
    }

    // Is the axiom satisfied?
    pub fn judge_axiom(&self, axiom: u32) -> Verdict
        requires axiom_bound { «axiom» < axiom_count (deck_in self.now) }
        ensures is { result ≡ verdict (deck_in self.now) (structure self.now) (axiom_at (deck_in self.now) «axiom») }
        ensures justified { Justified (deck_in self.now) (structure self.now) (axiom_at (deck_in self.now) «axiom») result }
    {
        if is_small(self.shape, self.deck.concept_count()) {
            return self.axiom_in_room::<2048, 2039>(axiom);
        }
        self.axiom_in_room::<163843, 262139>(axiom)
    }
}
