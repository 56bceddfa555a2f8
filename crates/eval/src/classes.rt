// Axioms that are checked element by element: SubClassOf, EquivalentClasses, DisjointClasses.
ghost use Rattle.std.specs.Prelude.{◌≡◌, map, ◌+◌, ◌<◌, ◌≤◌};
ghost use Rattle.deck.specs.Deck.{concept_count, Axiom};
ghost use Rattle.deck.specs.Reads.{list_of, ListFits};
ghost use Rattle.eval.specs.InLent.{deck_in, structure, Remembered};
ghost use Rattle.eval.specs.Judge.{judge};
ghost use Rattle.eval.specs.Relation.{axiom_of};
ghost use Rattle.eval.specs.Verdict.{implies, no_votes, votes, verdict};

use crate::judgement::Judgement;
use crate::lent::Judging;
use crate::standing::Standing;
use crate::verdict::{Verdict, Witnesses, unresolved_or_holds};
use crate::votes::{Relation, Votes};
use deck::numbers::{ConceptId, Element};
use deck::rows::Span;

// `ante` implies `cons`, at one element: an unresolved superclass counts before an unresolved subclass.
fn implication(ante: Judgement, cons: Judgement) -> Judgement
    ensures { result ≡ implies ante cons }
{
    match cons {
        Judgement::True => Judgement::True,
        Judgement::False => match ante {
            Judgement::False => Judgement::True,
            Judgement::True => Judgement::False,
            Judgement::Unresolved(first) => Judgement::Unresolved(first),
        },
        Judgement::Unresolved(last) => match ante {
            Judgement::False => Judgement::True,
            Judgement::True => Judgement::Unresolved(last),
            Judgement::Unresolved(_) => Judgement::Unresolved(last),
        },
    }
}

impl Judging<'_> {
    // `sub` implies `sup` at e. Where the subclass is false the superclass is not looked at.
    fn implied_at(&self, memo: &mut [u16], sub: ConceptId, sup: ConceptId, e: Element) -> Judgement
        requires remembered { Remembered self.now.lent memo.old }
        requires sub_bound { sub.0 < concept_count (deck_in self.now.lent) }
        requires sup_bound { sup.0 < concept_count (deck_in self.now.lent) }
        requires e_lt_elements { e.0 < self.now.lent.shape.elements }
        ensures is { result ≡ implies (judge (deck_in self.now.lent) (structure self.now.lent) sub.0 e.0) (judge (deck_in self.now.lent) (structure self.now.lent) sup.0 e.0) }
        ensures kept { Remembered self.now.lent memo.new }
    {
        let ante = self.eval_concept(memo, sub, e);
        if let Judgement::False = ante {
            return Judgement::True;
        }
        let cons = self.eval_concept(memo, sup, e);
        implication(ante, cons)
    }

    pub fn check_sub_class_of(&self, memo: &mut [u16], sub: ConceptId, sup: ConceptId) -> Verdict
        requires remembered { Remembered self.now.lent memo.old }
        requires sub_bound { sub.0 < concept_count (deck_in self.now.lent) }
        requires sup_bound { sup.0 < concept_count (deck_in self.now.lent) }
        ensures is { result ≡ verdict (deck_in self.now.lent) (structure self.now.lent) (Axiom.SubClassOf sub.0 sup.0) }
        ensures kept { Remembered self.now.lent memo.new }
    {
        let mut standing = Standing::new();
        for e in 0..self.lent.shape.elements {
            let j = self.implied_at(memo, sub, sup, Element(e));
            standing = standing.and(j);
            if standing.ended {
                return Verdict::Fails(Witnesses::One(Element(e)));
            }
        }
        unresolved_or_holds(standing.noted)
    }

    // The judgements of the concepts of a list at e, counted.
    fn votes_at(&self, memo: &mut [u16], list: Span, e: Element) -> Votes
        requires remembered { Remembered self.now.lent memo.old }
        requires list_fits { ListFits self.now.lent.deck.bytes.now (concept_count (deck_in self.now.lent)) list }
        requires e_lt_elements { e.0 < self.now.lent.shape.elements }
        ensures counted { result ≡ votes no_votes (map (λ c. judge (deck_in self.now.lent) (structure self.now.lent) c e.0) (list_of self.now.lent.deck.bytes.now list)) }
        ensures few { result.trues + result.falses + result.unresolved ≤ list.count }
        ensures kept { Remembered self.now.lent memo.new }
    {
        let mut votes = Votes::new();
        for i in 0..list.count {
            let member = ConceptId(self.lent.deck.item(list, i));
            votes = votes.vote(self.eval_concept(memo, member, e));
        }
        votes
    }

    // The concepts of a list are equivalent, or disjoint.
    // The loop is like that of `check_sub_class_of`: of both, what is judged at an element would be a closure over the memo with a contract of its own.
    pub fn check_classes(&self, memo: &mut [u16], relation: Relation, list: Span) -> Verdict
        requires remembered { Remembered self.now.lent memo.old }
        requires list_fits { ListFits self.now.lent.deck.bytes.now (concept_count (deck_in self.now.lent)) list }
        ensures is { result ≡ verdict (deck_in self.now.lent) (structure self.now.lent) (axiom_of relation (list_of self.now.lent.deck.bytes.now list)) }
        ensures kept { Remembered self.now.lent memo.new }
    {
        let mut standing = Standing::new();
        for e in 0..self.lent.shape.elements {
            let votes = self.votes_at(memo, list, Element(e));
            standing = standing.and(votes.outcome(relation));
            if standing.ended {
                return Verdict::Fails(Witnesses::One(Element(e)));
            }
        }
        unresolved_or_holds(standing.noted)
    }
}
