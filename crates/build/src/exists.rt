// Building out a consequent from an element.
ghost use Rattle.std.specs.Prelude.{◌≡◌, ◌<◌, ◌≤◌, is_err, IfOk, OnOk};
ghost use Rattle.deck.specs.Deck.{role_count, concept_count};
ghost use Rattle.deck.specs.Reads.{list_of, ListFits};
ghost use Rattle.build.specs.Intern.{index_of};
ghost use Rattle.atoms.specs.Walk.{walk};
ghost use Rattle.build.specs.Exists as spec;
ghost use Rattle.build.specs.Building.{Ready, Holds, deck_in, model_of, model_by};
ghost use Rattle.build.specs.Again.{Right};

use crate::again::{Walked, given_again, remember};
use crate::building::{Build, Tripped};
use crate::idle::goes_on;
use atoms::body::body_label_known;
use atoms::reasons::{Stretch, note_again};
use atoms::visits::is_short;
use deck::concepts::ConceptExpr;
use deck::numbers::{ConceptId, Element, RoleId};
use deck::rows::Span;

impl Build<'_, '_> {
    // The element that a Some of the role with the body leads to, and the edge to it. A walk whose table remembers none is short, and so is that of the body.
    fn reach_body(
        &mut self,
        memo: &[Walked],
        role: RoleId,
        concept: ConceptId,
        from: Element,
    ) -> Result<Element, Tripped>
        requires ready { Ready self.old }
        requires role_bound { role.0 < role_count (deck_in self.old) }
        requires concept_bound { concept.0 < concept_count (deck_in self.old) }
        ensures holds { Holds self.old self.new (is_err result) (spec.reach_body (deck_in self.old) self.old.plan.floor.now self.old.plan.bounds role.0 concept.0 from.0 (model_of self.old)) }
        ensures place { IfOk result (λ e. e.0 ≡ index_of (model_of self.old).labels (spec.body_label (deck_in self.old) self.old.plan.floor.now self.old.plan.bounds role.0 concept.0 (model_of self.old))) }
    {
        let deck = self.plan.deck;
        let short = memo.len() < 8192;
        self.tally.reasons = body_label_known(
            &deck,
            role,
            concept,
            short,
            self.label,
            self.log,
            self.tally.reasons,
        );
        let (to, ended) = self.reach(role, from, 0);
        ended?;
        Ok(to)
    }

    // Every Some of the concept that an And or a Some leads to, from element e on. A turn goes down a Some, so only an And takes stack. The table has walks that were made before, and takes more of them in.
    #[cycle(work_concept_work_operands)]
    fn work_concept(
        &mut self,
        memo: &mut [Walked],
        concept: ConceptId,
        e: Element,
    ) -> Result<(), Tripped>
        requires ready { Ready self.old }
        requires concept_bound { concept.0 < concept_count (deck_in self.old) }
        requires right { Right (deck_in self.old) self.old.plan.floor.now self.old.plan.bounds memo.old (model_of self.old) }
        ensures holds { Holds self.old self.new (is_err result) (spec.work (deck_in self.old) self.old.plan.floor.now self.old.plan.bounds concept.0 e.0 (model_of self.old)) }
        ensures known { OnOk result (Right (deck_in self.old) self.old.plan.floor.now self.old.plan.bounds memo.new (model_by self.old self.new)) }
    {
        // A `loop`: each turn goes on from what the Some before it led to.
        let deck = self.plan.deck;
        let mut c = concept;
        let mut e = e;
        loop {
            let expr = deck.concept_at(c);
            match expr {
                ConceptExpr::And(l) => return self.work_operands(memo, c, l, e),
                ConceptExpr::Some(w, b) => {
                    if w.is_inverse() {
                        return Ok(());
                    }
                    let r = w.role_id();
                    e = self.reach_body(memo, r, b, e)?;
                    c = b;
                }
                _ => return Ok(()),
            }
        }
    }

    // The same of each concept of the list, all below `owner`, but for those that add nothing; a walk that was made before is not made again, what it gave is noted.
    #[cycle(work_concept_work_operands)]
    fn work_operands(
        &mut self,
        memo: &mut [Walked],
        owner: ConceptId,
        list: Span,
        e: Element,
    ) -> Result<(), Tripped>
        requires ready { Ready self.old }
        requires owner_bound { owner.0 < concept_count (deck_in self.old) }
        requires list_fits { ListFits self.old.plan.deck.bytes.now owner.0 list }
        requires right { Right (deck_in self.old) self.old.plan.floor.now self.old.plan.bounds memo.old (model_of self.old) }
        ensures holds { Holds self.old self.new (is_err result) (walk (λ o. spec.work (deck_in self.old) self.old.plan.floor.now self.old.plan.bounds o e.0) (list_of self.old.plan.deck.bytes.now list) (model_of self.old)) }
        ensures known { OnOk result (Right (deck_in self.old) self.old.plan.floor.now self.old.plan.bounds memo.new (model_by self.old self.new)) }
    {
        let deck = self.plan.deck;
        for i in 0..list.count {
            let o = ConceptId(deck.item(list, i));
            if !goes_on(&deck, o) {
                continue;
            }
            let held = self.tally;
            if let Some(given) = given_again(&deck, memo, held, o, e) {
                self.tally.reasons = note_again(self.log, held.reasons, given);
                continue;
            }
            self.work_concept(memo, o, e)?;
            remember(&deck, memo, held, self.tally, o, e);
        }
        Ok(())
    }

    // The same with a table of N walks, whose room is made in a frame of its own. One of 1 remembers none, and costs nothing to clear.
    #[inline(never)]
    fn work_with<const N: usize>(&mut self, concept: ConceptId, e: Element) -> Result<(), Tripped>
        requires walks { (0 < N) × (N ≤ 8192) }
        requires ready { Ready self.old }
        requires concept_bound { concept.0 < concept_count (deck_in self.old) }
        ensures { Holds self.old self.new (is_err result) (spec.work (deck_in self.old) self.old.plan.floor.now self.old.plan.bounds concept.0 e.0 (model_of self.old)) }
    {
        let none = Walked {
            word: 0,
            given: Stretch { first: 0, count: 0 },
        };
        let mut memo: [Walked; N] = [none; N];
        self.work_concept(&mut memo, concept, e)
    }

    // Every Some of the concept that an And or a Some leads to, from element e on. Where that walk is not short, by the sizes of the first concepts, no walk that leaves elements and edges as they were is made twice.
    pub fn materialise_exists(
        &mut self,
        sizes: &[u8],
        concept: ConceptId,
        e: Element,
    ) -> Result<(), Tripped>
        requires ready { Ready self.old }
        requires concept_bound { concept.0 < concept_count (deck_in self.old) }
        ensures { Holds self.old self.new (is_err result) (spec.work (deck_in self.old) self.old.plan.floor.now self.old.plan.bounds concept.0 e.0 (model_of self.old)) }
    {
        let deck = self.plan.deck;
        if is_short(&deck, sizes, concept) {
            return self.work_with::<1>(concept, e);
        }
        self.work_with::<8192>(concept, e)
    }
}
