// Symmetric and inverse roles, which are to have no edges.
ghost use Rattle.std.specs.Prelude.{◌≡◌, map, ◌<◌};
ghost use Rattle.deck.specs.Deck.{role_count};
ghost use Rattle.eval.specs.Edges.{under};
ghost use Rattle.eval.specs.InLent.{deck_in, edges_in, structure};
ghost use Rattle.eval.specs.Lists.{any};
ghost use Rattle.eval.specs.Verdict.{guarded};

use crate::edges::{Edge, is_sub_role};
use crate::lent::Lent;
use crate::verdict::Verdict;
use deck::numbers::RoleId;

impl Lent<'_> {
    // Is one of the edges one of r?
    fn has_any(&self, r: RoleId) -> bool
        requires { r.0 < role_count (deck_in self.now) }
        ensures { result ≡ any (map (under (deck_in self.now) r.0) (edges_in self.now)) }
    {
        self.edges[..self.shape.edges as usize]
            .iter()
            .any(|row| is_sub_role(&self.deck, Edge::from(row), r))
    }

    // r has no edges.
    pub fn check_guarded(&self, r: RoleId) -> Verdict
        requires { r.0 < role_count (deck_in self.now) }
        ensures { result ≡ guarded (deck_in self.now) (structure self.now) r.0 }
    {
        if self.has_any(r) {
            return Verdict::GuardedRoleHasEdges(r);
        }
        Verdict::Holds
    }
}
