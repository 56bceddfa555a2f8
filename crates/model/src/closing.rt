// Closing the edges under two-link chains and transitive roles, until a pass adds nothing.
ghost use Rattle.std.specs.Prelude.{◌<◌, ◌≤◌, is_err};
ghost use Rattle.deck.specs.Deck.{axiom_at, axiom_count};
ghost use Rattle.eval.specs.Index.{Indexed};
ghost use Rattle.build.specs.Building.{HasRoom, Pushed, deck_in, state_of};
ghost use Rattle.model.specs.Closing as spec;
ghost use Rattle.model.specs.Closing.{Closes};
ghost use Rattle.model.specs.Ends.{add_ends, is_new};
ghost use Rattle.model.specs.Rules.{RuleFits};

use crate::ends::{Marks, mark_ends};
use crate::pairs::{Pairs, count_pairs};
use crate::rules::{Rule, rule_at};
use build::building::{Build, Tripped};
use build::tally::Tally;
use deck::numbers::{Element, RoleId};
use eval::edges::Edge;
use eval::index::{EdgeIndex, make_index};

// An edge of v from x to each element that is ahead and not known, rising. The `while` stays: an iterator for this one loop would be a type and a
// law more.
fn add_ends(b: &mut Build<'_, '_>, v: RoleId, x: Element, marks: &Marks) -> Result<(), Tripped>
    requires room { HasRoom b.old }
    requires elements_bound { b.old.tally.elements ≤ 65536 }
    ensures { Pushed b.old b.new (is_err result) (add_ends b.old.plan.bounds.max_edges v.0 x.0 (is_new marks.now.ahead marks.now.known) b.old.tally.elements (state_of b.old)) }
{
    let elements = b.tally.elements;
    let mut from = 0;
    while let Some(z) = marks.next_new(elements, from) {
        b.add_edge(Edge {
            role: v,
            from: x,
            to: z,
        })?;
        from = z.0 + 1;
    }
    Ok(())
}

// The index of the edges, made anew where it has fallen far behind.
fn refresh(b: &Build<'_, '_>, index: &mut [u32])
    requires closes { Closes b.now }
    requires indexed { Indexed b.now.edges.now b.now.tally.elements b.now.tally.edges index.old }
    ensures { Indexed b.now.edges.now b.now.tally.elements b.now.tally.edges index.new }
{
    if index.len() < 3 + b.tally.elements as usize {
        return;
    }
    let high = index[1] as u64;
    if high + high / 1024 + 64 < b.tally.edges as u64 {
        make_index(b.edges, b.tally.edges, b.tally.elements, index);
    }
}

// The pairs of the rule's first role one after the other, as they stand when this begins; from each (x, y) an edge of the third role
// from x to each end of the edges of the second from y, where there is none. `few`: there are so few that a look at all edges finds
// the next.
fn close_pairs(
    b: &mut Build<'_, '_>,
    rule: &Rule,
    few: bool,
    index: &mut [u32],
    marks: &mut Marks,
) -> Result<(), Tripped>
    requires closes { Closes b.old }
    requires rule_fits { RuleFits (deck_in b.old) rule.now }
    requires indexed { Indexed b.old.edges.now b.old.tally.elements b.old.tally.edges index.old }
    ensures { Pushed b.old b.new (is_err result) (spec.close_rule (deck_in b.old) b.old.tally.elements b.old.plan.bounds.max_edges rule.now.first.0 rule.now.second.0 rule.now.third.0 (state_of b.old)) }
{
    let deck = b.plan.deck;
    let elements = b.tally.elements;
    let seen = b.tally.edges;
    let mut after = 0;
    // A `loop`: each turn looks anew at the edges, as the turn before may have added some.
    loop {
        let count = b.tally.edges;
        let edges = &mut *b.edges;
        let all = EdgeIndex {
            edges,
            count,
            index,
            elements,
        };
        let pairs = Pairs {
            deck,
            all,
            seen,
            role: rule.first,
        };
        let Some(k) = pairs.next(after, few) else {
            return Ok(());
        };
        let x = Element((k / 65536) as u32);
        let y = Element((k % 65536) as u32);
        mark_ends(&deck, &all, rule.second, y, &mut marks.ahead);
        mark_ends(&deck, &all, rule.third, x, &mut marks.known);
        add_ends(b, rule.third, x, marks)?;
        after = k + 1;
        refresh(b, index);
    }
}

// By a rule, with an index of N words, whose room is made in a frame of its own.
#[inline(never)]
fn close_in_room<const N: usize>(
    b: &mut Build<'_, '_>,
    rule: &Rule,
    few: bool,
) -> Result<(), Tripped>
    requires words { N ≤ 163840 }
    requires closes { Closes b.old }
    requires rule_fits { RuleFits (deck_in b.old) rule.now }
    ensures { Pushed b.old b.new (is_err result) (spec.close_rule (deck_in b.old) b.old.tally.elements b.old.plan.bounds.max_edges rule.now.first.0 rule.now.second.0 rule.now.third.0 (state_of b.old)) }
{
    let mut index: [u32; N] = [0; N];
    let t = b.tally;
    let edges = &mut *b.edges;
    make_index(edges, t.edges, t.elements, &mut index);
    let mut marks = Marks {
        ahead: [0; 1024],
        known: [0; 1024],
    };
    close_pairs(b, rule, few, &mut index, &mut marks)
}

// Whether to look at all edges for each of the pairs costs less than to go through the elements.
fn is_few(pairs: usize, t: Tally) -> bool {
    let looks = t.elements as u64 * 16 / (t.edges as u64 + 1);
    pairs as u64 <= looks
}

// By a rule, with an index whose size goes by the elements and edges.
fn close_rule(b: &mut Build<'_, '_>, rule: &Rule) -> Result<(), Tripped>
    requires closes { Closes b.old }
    requires rule_fits { RuleFits (deck_in b.old) rule.now }
    ensures { Pushed b.old b.new (is_err result) (spec.close_rule (deck_in b.old) b.old.tally.elements b.old.plan.bounds.max_edges rule.now.first.0 rule.now.second.0 rule.now.third.0 (state_of b.old)) }
{
    let deck = b.plan.deck;
    let t = b.tally;
    let edges = &mut *b.edges;
    let pairs = count_pairs(&deck, edges, t.edges, rule.first);
    if pairs == 0 {
        return Ok(());
    }
    let few = is_few(pairs, t);
    let words = t.elements as u64 + t.edges as u64 * 4;
    if words <= 5000 {
        return close_in_room::<5120>(b, rule, few);
    }
    if words <= 40000 {
        return close_in_room::<40960>(b, rule, few);
    }
    close_in_room::<163840>(b, rule, few)
}

// By an axiom, if it has a rule.
fn close_axiom(b: &mut Build<'_, '_>, axiom: u32) -> Result<(), Tripped>
    requires closes { Closes b.old }
    requires axiom_bound { «axiom» < axiom_count (deck_in b.old) }
    ensures { Pushed b.old b.new (is_err result) (spec.close_axiom (deck_in b.old) b.old.tally.elements b.old.plan.bounds.max_edges (axiom_at (deck_in b.old) «axiom») (state_of b.old)) }
{
    let deck = b.plan.deck;
    match rule_at(&deck, axiom) {
        Some(rule) => close_rule(b, &rule),
        None => Ok(()),
    }
}

// All axioms once, in order.
fn close_pass(b: &mut Build<'_, '_>) -> Result<(), Tripped>
    requires { Closes b.old }
    ensures { Pushed b.old b.new (is_err result) (spec.close_pass (deck_in b.old) b.old.tally.elements b.old.plan.bounds.max_edges (state_of b.old)) }
{
    let deck = b.plan.deck;
    for i in 0..deck.axiom_count() {
        close_axiom(b, i)?;
    }
    Ok(())
}

// Closes the edges, pass by pass: until one adds nothing or trips the bound. A `loop`, as only the last pass tells how many there are.
pub fn close_chains_and_transitivity(b: &mut Build<'_, '_>) -> Result<(), Tripped>
    requires { Closes b.old }
    ensures { Pushed b.old b.new (is_err result) (spec.close (deck_in b.old) b.old.tally.elements b.old.plan.bounds.max_edges (state_of b.old)) }
{
    loop {
        let before = b.tally.edges;
        close_pass(b)?;
        if b.tally.edges == before {
            return Ok(());
        }
    }
}
