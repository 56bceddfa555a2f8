// What an axiom asks of each pair of a role word.
ghost use Rattle.std.specs.Prelude.{◌≡◌, ◌*◌, ◌<◌};
ghost use Rattle.deck.specs.Deck.{role_count, role_id, role_of};
ghost use Rattle.eval.specs.Demand.{demand_at, blame, DemandFits};
ghost use Rattle.eval.specs.Edges.{edges_by, under};
ghost use Rattle.eval.specs.InLent.{deck_in, edges_in, structure, Remembered};
ghost use Rattle.eval.specs.Lent.{EdgeFits};
ghost use Rattle.eval.specs.Lowest.{Among, Seen};
ghost use Rattle.eval.specs.Structure.{pair};
ghost use Rattle.eval.specs.Verdict.{at_pairs};

use crate::edges::{Edge, edge_by, is_sub_role};
use crate::judgement::Judgement;
use crate::lent::Judging;
use crate::lowest::Lowest;
use crate::verdict::{Verdict, Witnesses, unresolved_or_holds};
use deck::numbers::{ConceptId, Element, RoleWord};

// The from or the to is in a concept, or the pair is one of another role word.
// That its numbers are the deck's is asked for (`DemandFits`), as it does not hold the deck.
#[derive(Clone, Copy)]
pub enum Demand {
    Domain(ConceptId),
    Range(ConceptId),
    Within(RoleWord),
}

impl Demand {
    // Does the edge, as the role word sees it, meet the demand?
    fn meets(self, judging: &Judging<'_>, memo: &mut [u16], e: Edge) -> Judgement
        requires remembered { Remembered judging.now.lent memo.old }
        requires demand_fits { DemandFits (deck_in judging.now.lent) self }
        requires edge_fits { EdgeFits (deck_in judging.now.lent) judging.now.lent.shape.elements e }
        ensures is { result ≡ demand_at (deck_in judging.now.lent) (structure judging.now.lent) self (pair e.from.0 e.to.0) }
        ensures kept { Remembered judging.now.lent memo.new }
    {
        match self {
            Demand::Domain(concept) => judging.eval_concept(memo, concept, e.from),
            Demand::Range(concept) => judging.eval_concept(memo, concept, e.to),
            Demand::Within(role) => Judgement::from(judging.has_pair(role, e.from, e.to)),
        }
    }

    // The witnesses where an edge fails.
    fn blame_at(self, from: Element, to: Element) -> Witnesses
        ensures { result ≡ blame self (pair from.0 to.0) }
    {
        match self {
            Demand::Domain(_) => Witnesses::One(from),
            Demand::Range(_) => Witnesses::One(to),
            Demand::Within(_) => Witnesses::Two(from, to),
        }
    }
}

impl Judging<'_> {
    // The lowest pair of the role word that fails the demand.
    fn lowest_failing(&self, memo: &mut [u16], role: RoleWord, demand: Demand) -> Lowest
        requires remembered { Remembered self.now.lent memo.old }
        requires role_bound { role.0 < 2 * role_count (deck_in self.now.lent) }
        requires demand_fits { DemandFits (deck_in self.now.lent) demand }
        ensures is { Seen (Among (under (deck_in self.now.lent) (role_id (role_of role.0))) (edges_by (role_of role.0) (edges_in self.now.lent))) (λ e. demand_at (deck_in self.now.lent) (structure self.now.lent) demand (pair e.from.0 e.to.0)) result }
        ensures kept { Remembered self.now.lent memo.new }
    {
        let r = role.role_id();
        let mut lowest = Lowest::new();
        for i in 0..self.lent.shape.edges as usize {
            let e = edge_by(self.lent.edges, i, role);
            if is_sub_role(&self.lent.deck, e, r) {
                lowest = lowest.next(demand.meets(self, memo, e), e);
            }
        }
        lowest
    }

    // Each pair of the role word meets the demand.
    pub fn check_pairs(&self, memo: &mut [u16], role: RoleWord, demand: Demand) -> Verdict
        requires remembered { Remembered self.now.lent memo.old }
        requires role_bound { role.0 < 2 * role_count (deck_in self.now.lent) }
        requires demand_fits { DemandFits (deck_in self.now.lent) demand }
        ensures is { result ≡ at_pairs (deck_in self.now.lent) (structure self.now.lent) (role_of role.0) (demand_at (deck_in self.now.lent) (structure self.now.lent) demand) (blame demand) }
        ensures kept { Remembered self.now.lent memo.new }
    {
        let lowest = self.lowest_failing(memo, role, demand);
        match lowest.failing {
            Some(e) => Verdict::Fails(demand.blame_at(e.from, e.to)),
            None => unresolved_or_holds(lowest.noted),
        }
    }
}
