// A structure in the making. Its steps are methods, each in the file of what it does.
ghost use Rattle.std.specs.Prelude.{◌≡◌};
ghost use Rattle.atoms.specs.Reasons.{noted, counted};
ghost use Rattle.build.specs.Building.{Same};

use crate::plan::Plan;
use crate::tally::Tally;
use atoms::reasons;
use atoms::reasons::Reason;

// What steps need of it (`HasRoom`, `HasPlace`, `Unseeded`, `Ready`, and `Closes` of model) is no invariant: a bound that trips ends it, and what stands then is still read.
// How much of the buffers is in use stands beside them, as they are lent longer than they are used.
// The label in the making, the labels of the elements, the edges and the log of reasons, and how much of these is in use.
#[derive(Drop)]
pub struct Build<'p, 'a> {
    pub plan: Plan<'p>,
    pub label: &'a mut [u64],
    pub labels: &'a mut [u64],
    pub edges: &'a mut [[u32; 3]],
    pub log: &'a mut [u32],
    pub tally: Tally,
}

// A bound tripped, which ends building: its reason is noted.
#[derive(Clone, Copy)]
pub struct Tripped;

impl Build<'_, '_> {
    // One more reason.
    pub fn note(&mut self, reason: Reason)
        ensures same { Same self.old self.new }
        ensures log { self.new.log.now ≡ noted self.old.log.now self.old.tally.reasons reason }
        ensures tally { self.new.tally ≡ record { elements = self.old.tally.elements; edges = self.old.tally.edges; reasons = counted self.old.tally.reasons } }
        ensures rest { (self.new.label ≡ self.old.label) × (self.new.labels ≡ self.old.labels) × (self.new.edges ≡ self.old.edges) }
    {
        self.tally.reasons = reasons::note(self.log, self.tally.reasons, reason);
    }
}
