// A label is interned, and the edge to its element added: what both expansions do with a target.
ghost use Rattle.std.specs.Prelude.{◌≡◌, is_err};
ghost use Rattle.build.specs.Intern.{index_of};
ghost use Rattle.build.specs.Push.{Tail, edge};
ghost use Rattle.build.specs.Model as spec;
ghost use Rattle.build.specs.Building.{HasRoom, Ready, Pushed, Holds, label_in, model_of, state_of};

use crate::building::{Build, Tripped};
use atoms::reasons::{Bound, Reason};
use deck::numbers::{Element, RoleId};
use eval::edges::Edge;

impl Build<'_, '_> {
    // The edge of the role to an element; the element bound is tested before. The edges below `since` leave other elements.
    // In a frame of its own, where what the search for a known edge compares stays in registers.
    #[inline(never)]
    pub fn link(
        &mut self,
        role: RoleId,
        from: Element,
        to: Element,
        since: u32,
    ) -> Result<(), Tripped>
        requires room { HasRoom self.old }
        requires tail { Tail self.old.edges.now self.old.tally.edges since from.0 }
        ensures { Pushed self.old self.new (is_err result) (spec.linked self.old.plan.bounds self.old.tally.elements (edge role.0 from.0 to.0) (state_of self.old)) }
    {
        if self.plan.bounds.max_elements < self.tally.elements {
            self.note(Reason::bound_tripped(Bound::Elements, self.plan.bounds.max_elements));
            return Err(Tripped);
        }
        self.push_edge(Edge { role, from, to }, since)
    }

    // The element of the label in the making, and the edge of the role to it. The element is handed back where a bound trips too.
    pub fn reach(
        &mut self,
        role: RoleId,
        from: Element,
        since: u32,
    ) -> (Element, Result<(), Tripped>)
        requires ready { Ready self.old }
        requires tail { Tail self.old.edges.now self.old.tally.edges since from.0 }
        ensures holds { Holds self.old self.new (is_err result.1) (spec.reach self.old.plan.bounds role.0 from.0 (label_in self.old) (model_of self.old)) }
        ensures place { result.0.0 ≡ index_of (model_of self.old).labels (label_in self.old) }
    {
        let to = self.intern();
        (to, self.link(role, from, to, since))
    }
}
