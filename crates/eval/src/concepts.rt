// Judging a concept at an element. Judging a concept calls on judging a list, and that on judging a concept: the concept
// number falls, and within a list what is left of it. What an And or a Some comes to is remembered.
ghost use Rattle.std.specs.Prelude.{◌≡◌, ◌<◌};
ghost use Rattle.deck.specs.Deck.{concept_count};
ghost use Rattle.eval.specs.InLent.{deck_in, structure, Remembered};
ghost use Rattle.eval.specs.Judge.{judge};
ghost use Rattle.eval.specs.Leaf.{AndAt, SomeAt, LeafRead};

use crate::edges::is_sub_role;
use crate::judgement::{Construct, Judgement};
use crate::lent::{Judging, Lent};
use crate::memo::{recall, remember};
use crate::standing::Standing;
use deck::concepts::ConceptExpr;
use deck::numbers::{ConceptId, Element, RoleWord};
use deck::rows::Span;

// A concept at an element, before another concept is judged: a judgement, or the And or the Some with a named role to judge.
#[derive(Clone, Copy)]
enum Leaf {
    Judged(Judgement),
    And(Span),
    Some(RoleWord, ConceptId),
}

impl Lent<'_> {
    fn eval_leaf(&self, concept: ConceptId, e: Element) -> Leaf
        requires concept_bound { concept.0 < concept_count (deck_in self.now) }
        requires e_lt_elements { e.0 < self.now.shape.elements }
        ensures { LeafRead self.now.deck.bytes.now self.now.labels.now self.now.shape concept.0 e.0 result }
    {
        let expr = self.deck.concept_at(concept);
        match expr {
            ConceptExpr::Top => Leaf::Judged(Judgement::True),
            ConceptExpr::Bot => Leaf::Judged(Judgement::False),
            ConceptExpr::Atomic(class) => {
                Leaf::Judged(Judgement::from(self.class_labels().has_class(e, class)))
            }
            ConceptExpr::Nominal(_) => Leaf::Judged(Judgement::Unresolved(Construct::Nominal)),
            ConceptExpr::SelfRestriction(_) => Leaf::Judged(Judgement::Unresolved(
                Construct::SelfRestriction,
            )),
            ConceptExpr::Not(_) => Leaf::Judged(Judgement::Unresolved(Construct::Not)),
            ConceptExpr::And(list) => Leaf::And(list),
            ConceptExpr::Or(_) => Leaf::Judged(Judgement::Unresolved(Construct::Or)),
            ConceptExpr::Some(role, body) => {
                if role.is_inverse() {
                    return Leaf::Judged(Judgement::Unresolved(Construct::InverseSome));
                }
                Leaf::Some(role, body)
            }
            ConceptExpr::All(_, _) => Leaf::Judged(Judgement::Unresolved(Construct::All)),
            ConceptExpr::Min(_, _, _) => Leaf::Judged(Judgement::Unresolved(Construct::Min)),
            ConceptExpr::Max(_, _, _) => Leaf::Judged(Judgement::Unresolved(Construct::Max)),
        }
    }
}

impl Judging<'_> {
    // Is element e in the concept?
    #[cycle(eval_and_eval_concept_eval_some)]
    pub fn eval_concept(&self, memo: &mut [u16], concept: ConceptId, e: Element) -> Judgement
        requires remembered { Remembered self.now.lent memo.old }
        requires concept_bound { concept.0 < concept_count (deck_in self.now.lent) }
        requires e_lt_elements { e.0 < self.now.lent.shape.elements }
        ensures is { result ≡ judge (deck_in self.now.lent) (structure self.now.lent) concept.0 e.0 }
        ensures kept { Remembered self.now.lent memo.new }
    {
        let leaf = self.lent.eval_leaf(concept, e);
        match leaf {
            Leaf::Judged(j) => j,
            Leaf::And(list) => self.eval_and(memo, concept, list, e),
            Leaf::Some(role, body) => self.eval_some(memo, concept, role, body, e),
        }
    }

    // Is e in each concept of the list, all below `owner`, which is the And of them?
    #[cycle(eval_and_eval_concept_eval_some)]
    fn eval_and(&self, memo: &mut [u16], owner: ConceptId, list: Span, e: Element) -> Judgement
        requires remembered { Remembered self.now.lent memo.old }
        requires owner_bound { owner.0 < concept_count (deck_in self.now.lent) }
        requires e_lt_elements { e.0 < self.now.lent.shape.elements }
        requires and_at { AndAt self.now.lent.deck.bytes.now owner.0 list }
        ensures is { result ≡ judge (deck_in self.now.lent) (structure self.now.lent) owner.0 e.0 }
        ensures kept { Remembered self.now.lent memo.new }
    {
        let elements = self.lent.shape.elements;
        if let Some(j) = recall(memo, elements, owner, e) {
            return j;
        }
        let mut standing = Standing::new();
        for i in 0..list.count {
            let operand = ConceptId(self.lent.deck.item(list, i));
            standing = standing.and(self.eval_concept(memo, operand, e));
            if standing.ended {
                return remember(memo, elements, owner, e, Judgement::False);
            }
        }
        remember(memo, elements, owner, e, standing.close_and())
    }

    // Has e a successor by the role, which is named, that is in `body`? One walk over the edges that leave e, in their own order.
    #[cycle(eval_and_eval_concept_eval_some)]
    fn eval_some(
        &self,
        memo: &mut [u16],
        owner: ConceptId,
        role: RoleWord,
        body: ConceptId,
        e: Element,
    ) -> Judgement
        requires remembered { Remembered self.now.lent memo.old }
        requires owner_bound { owner.0 < concept_count (deck_in self.now.lent) }
        requires e_lt_elements { e.0 < self.now.lent.shape.elements }
        requires some_at { SomeAt self.now.lent.deck.bytes.now owner.0 role.0 body.0 }
        ensures is { result ≡ judge (deck_in self.now.lent) (structure self.now.lent) owner.0 e.0 }
        ensures kept { Remembered self.now.lent memo.new }
    {
        let elements = self.lent.shape.elements;
        if let Some(j) = recall(memo, elements, owner, e) {
            return j;
        }
        let r = role.role_id();
        let mut standing = Standing::new();
        for edge in self.leaving(e) {
            if is_sub_role(&self.lent.deck, edge, r) {
                standing = standing.some(self.eval_concept(memo, body, edge.to));
                if standing.ended {
                    return remember(memo, elements, owner, e, Judgement::True);
                }
            }
        }
        remember(memo, elements, owner, e, standing.close_some())
    }
}
