// Two edges, one after the other: chains of two links and transitive roles.
ghost use Rattle.std.specs.Prelude.{◌≡◌, ◌<◌};
ghost use Rattle.deck.specs.Deck.{role_count};
ghost use Rattle.eval.specs.Edges.{leaves, under};
ghost use Rattle.eval.specs.InLent.{deck_in, edges_in, structure};
ghost use Rattle.eval.specs.Judge.{truth};
ghost use Rattle.eval.specs.Lowest.{Among, Seen};
ghost use Rattle.eval.specs.Structure.{has_edge};
ghost use Rattle.eval.specs.Verdict.{is_holds, onward, composed};

use crate::edges::{edge_at, is_sub_role, leaves_by};
use crate::judgement::Judgement;
use crate::lent::Judging;
use crate::lowest::Lowest;
use crate::verdict::{Verdict, Witnesses, holds};
use deck::numbers::{Element, RoleId};

impl Judging<'_> {
    // The lowest edge of b from y whose end is no edge of sup from x.
    fn lowest_onward(&self, b: RoleId, sup: RoleId, x: Element, y: Element) -> Lowest
        requires b_bound { b.0 < role_count (deck_in self.now.lent) }
        requires sup_bound { sup.0 < role_count (deck_in self.now.lent) }
        requires x_lt_elements { x.0 < self.now.lent.shape.elements }
        requires y_lt_elements { y.0 < self.now.lent.shape.elements }
        ensures { Seen (Among (leaves (deck_in self.now.lent) b.0 y.0) (edges_in self.now.lent)) (λ e. truth (has_edge (deck_in self.now.lent) (structure self.now.lent) sup.0 x.0 e.to.0)) result }
    {
        let mut lowest = Lowest::new();
        for e in self.leaving(y) {
            if leaves_by(&self.lent.deck, e, b, y) {
                let linked = self.has_edge(sup, x, e.to);
                lowest = lowest.next(Judgement::from(linked), e);
            }
        }
        lowest
    }

    // Each edge of b from y ends where an edge of sup from x does.
    fn check_onward(&self, b: RoleId, sup: RoleId, x: Element, y: Element) -> Verdict
        requires b_bound { b.0 < role_count (deck_in self.now.lent) }
        requires sup_bound { sup.0 < role_count (deck_in self.now.lent) }
        requires x_lt_elements { x.0 < self.now.lent.shape.elements }
        requires y_lt_elements { y.0 < self.now.lent.shape.elements }
        ensures { result ≡ onward (deck_in self.now.lent) (structure self.now.lent) b.0 sup.0 x.0 y.0 }
    {
        let lowest = self.lowest_onward(b, sup, x, y);
        match lowest.failing {
            Some(e) => Verdict::Fails(Witnesses::Three(x, y, e.to)),
            None => Verdict::Holds,
        }
    }

    // The lowest edge of a from which an edge of b goes on to an end that is no edge of sup.
    fn lowest_composed(&self, a: RoleId, b: RoleId, sup: RoleId) -> Lowest
        requires a_bound { a.0 < role_count (deck_in self.now.lent) }
        requires b_bound { b.0 < role_count (deck_in self.now.lent) }
        requires sup_bound { sup.0 < role_count (deck_in self.now.lent) }
        ensures { Seen (Among (under (deck_in self.now.lent) a.0) (edges_in self.now.lent)) (λ e. truth (is_holds (onward (deck_in self.now.lent) (structure self.now.lent) b.0 sup.0 e.from.0 e.to.0))) result }
    {
        let mut lowest = Lowest::new();
        for i in 0..self.lent.shape.edges as usize {
            let e = edge_at(self.lent.edges, i);
            if is_sub_role(&self.lent.deck, e, a) {
                let v = self.check_onward(b, sup, e.from, e.to);
                lowest = lowest.next(Judgement::from(holds(v)), e);
            }
        }
        lowest
    }

    // An edge of a and then one of b make an edge of sup.
    pub fn check_composed(&self, a: RoleId, b: RoleId, sup: RoleId) -> Verdict
        requires a_bound { a.0 < role_count (deck_in self.now.lent) }
        requires b_bound { b.0 < role_count (deck_in self.now.lent) }
        requires sup_bound { sup.0 < role_count (deck_in self.now.lent) }
        ensures { result ≡ composed (deck_in self.now.lent) (structure self.now.lent) a.0 b.0 sup.0 }
    {
        let lowest = self.lowest_composed(a, b, sup);
        match lowest.failing {
            Some(e) => self.check_onward(b, sup, e.from, e.to),
            None => Verdict::Holds,
        }
    }
}
