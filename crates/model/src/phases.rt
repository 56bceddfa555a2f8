// The phases of a run.
ghost use Rattle.std.specs.Prelude.{◌≡◌, ◌+◌, ◌*◌, ◌<◌, ◌≤◌, length, is_err};
ghost use Rattle.eval.specs.Edges.{edges_of};
ghost use Rattle.eval.specs.Lent.{label_width};
ghost use Rattle.deck.specs.Content.{deck_of};
ghost use Rattle.model.specs.Closing.{EdgesFit};
ghost use Rattle.atoms.specs.Floor.{floor_label};
ghost use Rattle.build.specs.Building.{Ready, Same, Holds, deck_in, model_of};
ghost use Rattle.build.specs.Model.{lent, top};
ghost use Rattle.build.specs.Push.{Room};
ghost use Rattle.model.specs.Phases.{number, ReadAs, later_phases, Dropped, Constructed};

use crate::closing::close_chains_and_transitivity;
use crate::expand::expand;
use crate::rounds::expand_from_axioms;
use atoms::reasons::Reason;
use build::building::{Build, Tripped};
use build::plan::Plan;
use build::tally::Tally;
use deck::refusal::Refusal;

// By their numbers, in the order in which they come.
#[derive(Clone, Copy, Debug, PartialEq, Eq, PartialOrd, Ord)]
pub enum Phase {
    Seed = 1,
    Expand,
    Axioms,
    Close,
}

impl TryFrom<u32> for Phase {
    type Error = Refusal;

    ghost try_from_gives = { ReadAs };

    fn try_from(number: u32) -> Result<Phase, Refusal> {
        match number {
            1 => Ok(Phase::Seed),
            2 => Ok(Phase::Expand),
            3 => Ok(Phase::Axioms),
            4 => Ok(Phase::Close),
            _ => Err(Refusal::BadBounds),
        }
    }
}

// The phases after seeding, as far as the last; a bound that trips skips what follows.
fn later_phases(b: &mut Build<'_, '_>, last: Phase) -> Result<(), Tripped>
    requires ready { Ready b.old }
    requires edges_fit { EdgesFit (deck_in b.old) b.old.tally.elements (edges_of b.old.edges.now b.old.tally.edges) }
    requires floor { b.old.plan.floor.now ≡ floor_label (deck_in b.old) }
    ensures { Holds b.old b.new (is_err result) (later_phases (deck_in b.old) b.old.plan.bounds (number last) (model_of b.old)) }
{
    if last < Phase::Expand {
        return Ok(());
    }
    expand(b)?;
    if last < Phase::Axioms {
        return Ok(());
    }
    expand_from_axioms(b)?;
    if last < Phase::Close {
        return Ok(());
    }
    close_chains_and_transitivity(b)
}

// Reason 4, given last where axioms were dropped.
fn note_dropped(b: &mut Build<'_, '_>)
    ensures same { Same b.old b.new }
    ensures dropped { Dropped (deck_in b.old) b.old.log.now b.old.tally b.new.log.now b.new.tally }
    ensures rest { (b.new.labels ≡ b.old.labels) × (b.new.edges ≡ b.old.edges) }
{
    let deck = b.plan.deck;
    let dropped = deck.dropped_count();
    if dropped != 0 {
        b.note(Reason::axioms_dropped(dropped));
    }
}

// All that is built, in the labels, edges and log; how much of them is in use.
pub fn construct<'p, 'a>(
    plan: Plan<'p>,
    last: Phase,
    label: &'a mut [u64],
    labels: &'a mut [u64],
    edges: &'a mut [[u32; 3]],
    log: &'a mut [u32],
) -> Tally
    requires floor { plan.floor.now ≡ floor_label (deck_of plan.deck.bytes.now) }
    requires label_len { length label.old ≡ label_width (deck_of plan.deck.bytes.now) }
    requires top_bound { top (deck_of plan.deck.bytes.now) plan.bounds < 65536 }
    requires labels_len { (top (deck_of plan.deck.bytes.now) plan.bounds + 1) * label_width (deck_of plan.deck.bytes.now) ≤ length labels.old }
    requires room { Room plan.bounds.max_edges edges.old 0 }
    ensures { Constructed (deck_of plan.entry.deck.bytes.now) plan.entry.bounds (number last) (lent labels.old edges.old log.old) (lent labels.new edges.new log.new) result }
{
    let mut b = Build {
        plan,
        label,
        labels,
        edges,
        log,
        tally: Tally {
            elements: 0,
            edges: 0,
            reasons: 0,
        },
    };
    b.seed();
    // A bound that trips is among the reasons.
    let _ended = later_phases(&mut b, last);
    note_dropped(&mut b);
    b.tally
}
