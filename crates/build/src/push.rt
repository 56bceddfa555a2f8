// Adding edges to the lent list: only append writes a row of it.
ghost use Rattle.std.specs.Prelude.{◌≡◌, ◌<◌, ◌≤◌, length, set, is_err};
ghost use Rattle.eval.specs.Edges.{row_of, edges_of, edge_in};
ghost use Rattle.build.specs.Push.{Tail};
ghost use Rattle.build.specs.Push.{Left, Room, added, push_edge, start};
ghost use Rattle.build.specs.Building.{HasRoom, Pushed, state_of};

use crate::building::{Build, Tripped};
use crate::tally::Tally;
use atoms::reasons::{Bound, Reason, note};
use eval::edges::{Edge, edge_at};

// No From for a row: this is the only place that makes one.
fn append(edges: &mut [[u32; 3]], count: u32, e: Edge)
    requires { count < length edges.old }
    ensures { edges.new ≡ set edges.old count (row_of e) }
{
    let role = e.role.0;
    let from = e.from.0;
    let to = e.to.0;
    edges[count as usize] = [role, from, to];
}

// Does e stand in its role's own bucket, among the first `count` edges? Those below `since` leave other elements.
fn is_known(edges: &[[u32; 3]], count: u32, e: Edge, since: u32) -> bool
    requires count_in_bounds { count ≤ length edges.now }
    requires tail { Tail edges.now count since e.from.0 }
    ensures { result ≡ edge_in (edges_of edges.now count) e.role.0 e.from.0 e.to.0 }
{
    for i in since..count {
        if edge_at(edges, i as usize) == e {
            return true;
        }
    }
    false
}

// Adds e, and tests the bound after it. No method of `Build`, whose plan has a deck and a floor: this asks only for room.
pub fn add_edge(
    limit: u32,
    edges: &mut [[u32; 3]],
    log: &mut [u32],
    tally: &mut Tally,
    e: Edge,
) -> Result<(), Tripped>
    requires { Room limit edges.old tally.old.edges }
    ensures { Left limit edges.old log.old tally.old edges.new log.new (record { tally = tally.new; tripped = is_err result }) (added limit e (start edges.old log.old tally.old)) }
{
    append(edges, tally.edges, e);
    tally.edges += 1;
    if limit < tally.edges {
        tally.reasons = note(
            log,
            tally.reasons,
            Reason::bound_tripped(Bound::Edges, limit),
        );
        return Err(Tripped);
    }
    Ok(())
}

// Adds e unless it is known; it too asks for no plan.
pub fn push_edge(
    limit: u32,
    edges: &mut [[u32; 3]],
    log: &mut [u32],
    tally: &mut Tally,
    e: Edge,
    since: u32,
) -> Result<(), Tripped>
    requires room { Room limit edges.old tally.old.edges }
    requires tail { Tail edges.old tally.old.edges since e.from.0 }
    ensures { Left limit edges.old log.old tally.old edges.new log.new (record { tally = tally.new; tripped = is_err result }) (push_edge limit e (start edges.old log.old tally.old)) }
{
    if is_known(edges, tally.edges, e, since) {
        return Ok(());
    }
    add_edge(limit, edges, log, tally, e)
}

impl Build<'_, '_> {
    // Adds e, and tests the bound after it.
    pub fn add_edge(&mut self, e: Edge) -> Result<(), Tripped>
        requires { HasRoom self.old }
        ensures { Pushed self.old self.new (is_err result) (added self.old.plan.bounds.max_edges e (state_of self.old)) }
    {
        let limit = self.plan.bounds.max_edges;
        let edges = &mut *self.edges;
        let log = &mut *self.log;
        let tally = &mut self.tally;
        add_edge(limit, edges, log, tally, e)
    }

    // Adds e unless it is known.
    pub fn push_edge(&mut self, e: Edge, since: u32) -> Result<(), Tripped>
        requires room { HasRoom self.old }
        requires tail { Tail self.old.edges.now self.old.tally.edges since e.from.0 }
        ensures { Pushed self.old self.new (is_err result) (push_edge self.old.plan.bounds.max_edges e (state_of self.old)) }
    {
        let limit = self.plan.bounds.max_edges;
        let edges = &mut *self.edges;
        let log = &mut *self.log;
        let tally = &mut self.tally;
        push_edge(limit, edges, log, tally, e, since)
    }
}
