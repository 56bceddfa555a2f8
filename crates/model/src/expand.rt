// Expanding the elements by the facts: each fact of a class is an edge from each element of that class.
ghost use Rattle.std.specs.Prelude.{◌≡◌, cond, ℕ, ◌+◌, ◌*◌, ◌<◌, ◌≤◌, eqb, length, is_err, IfSome, OnOk, get_or, true, ◌&&◌, []};
ghost use Rattle.deck.specs.Deck.{class_count, fact_count, fact_at};
ghost use Rattle.atoms.specs.Label.{label_has};
ghost use Rattle.build.specs.Building.{Ready, Holds, deck_in, model_of};
ghost use Rattle.build.specs.Model as building;
ghost use Rattle.build.specs.Push.{Tail};
ghost use Rattle.build.specs.Seed.{row_label};
ghost use Rattle.model.specs.Expand as spec;
ghost use Rattle.model.specs.Expand.{highest, above};
ghost use Rattle.model.specs.FactIndex.{Passed, class_or};
ghost use Rattle.model.specs.Recall.{Recalls};

use crate::fact_index::{FactIndex, entry, index_facts, mark_facts};
use crate::recall::recall_rows;
use atoms::labels::{has_bit, insert_bit, label_at};
use atoms::reasons::Reason;
use atoms::subsumers::load_row;
use atoms::target_label::{Target, target_label};
use build::building::{Build, Tripped};
use deck::numbers::{ClassId, Element, RoleId};

// `known`, `facts` and `since` stay parameters (`Recalls`, `Tail`): what is asked of them is said of the structure, which every step changes, and a struct would be made anew for each.
// The edge of the role from e to the element of a class's row, which is remembered. Past the element bound a known label trips it too.
fn link_row(
    b: &mut Build<'_, '_>,
    known: &mut [u32],
    role: RoleId,
    e: Element,
    k: ClassId,
    since: u32,
) -> Result<(), Tripped>
    requires ready { Ready b.old }
    requires k_bound { k.0 < class_count (deck_in b.old) }
    requires tail { Tail b.old.edges.now b.old.tally.edges since e.0 }
    requires recalled { Recalls b.old b.old known.old }
    ensures holds { Holds b.old b.new (is_err result) (building.reach b.old.plan.bounds role.0 e.0 (row_label (deck_in b.old) b.old.plan.floor.now k.0) (model_of b.old)) }
    ensures kept { OnOk result (Recalls b.old b.new known.new) }
{
    if let Some(place) = entry(known, k.0 as usize) {
        return b.link(role, e, Element(place), since);
    }
    let deck = b.plan.deck;
    load_row(&deck, k, b.label);
    let (to, ended) = b.reach(role, e, since);
    ended?;
    known[k.0 as usize] = to.0 + 1;
    Ok(())
}

// The edge of a fact from e to its target, by how that is labelled: its reason first, if it has one.
fn work_fact(
    b: &mut Build<'_, '_>,
    known: &mut [u32],
    e: Element,
    fact: u32,
    since: u32,
) -> Result<(), Tripped>
    requires ready { Ready b.old }
    requires fact_bound { fact < fact_count (deck_in b.old) }
    requires tail { Tail b.old.edges.now b.old.tally.edges since e.0 }
    requires recalled { Recalls b.old b.old known.old }
    ensures holds { Holds b.old b.new (is_err result) (spec.work_fact (deck_in b.old) b.old.plan.floor.now b.old.plan.bounds e.0 (fact_at (deck_in b.old) fact) (model_of b.old)) }
    ensures kept { OnOk result (Recalls b.old b.new known.new) }
{
    let deck = b.plan.deck;
    let record = deck.fact_at(fact);
    let y = record.to;
    let role = record.role;
    let target = target_label(&deck, y, role);
    match target {
        Target::Row(k) => link_row(b, known, role, e, k, since),
        Target::Delta(k) => {
            b.note(Reason::run_delta(y));
            link_row(b, known, role, e, k, since)
        }
        Target::NotClosed => {
            b.note(Reason::label_not_closed(y, role));
            Ok(())
        }
    }
}

// The facts of class k, in order.
fn work_facts(
    b: &mut Build<'_, '_>,
    known: &mut [u32],
    facts: &FactIndex<'_>,
    e: Element,
    k: ClassId,
    since: u32,
) -> Result<(), Tripped>
    requires ready { Ready b.old }
    requires k_bound { k.0 < class_count (deck_in b.old) }
    requires own { facts.now.deck.bytes.now ≡ b.old.plan.deck.bytes.now }
    requires tail { Tail b.old.edges.now b.old.tally.edges since e.0 }
    requires recalled { Recalls b.old b.old known.old }
    ensures holds { Holds b.old b.new (is_err result) (spec.work_facts (deck_in b.old) b.old.plan.floor.now b.old.plan.bounds e.0 k.0 (model_of b.old)) }
    ensures kept { OnOk result (Recalls b.old b.new known.new) }
{
    for fact in facts.facts_of(k) {
        work_fact(b, known, e, fact, since)?;
    }
    Ok(())
}

// The next class from k on that e has and that a fact is of.
fn next_class(b: &Build<'_, '_>, facts: &FactIndex<'_>, e: Element, k: u32) -> Option<ClassId>
    requires ready { Ready b.now }
    requires own { facts.now.deck.bytes.now ≡ b.now.plan.deck.bytes.now }
    requires e_lt_elements { e.0 < b.now.tally.elements }
    requires k_bound { k ≤ class_count (deck_in b.now) }
    ensures passed { Passed (λ i. label_has (get_or (model_of b.now).labels e.0 []) i && label_has facts.now.mask.now i) (class_count (deck_in b.now)) k (class_or (class_count (deck_in b.now)) result) }
    ensures met { IfSome result (λ c. (c.0 < class_count (deck_in b.now)) × (label_has (get_or (model_of b.now).labels e.0 []) c.0 ≡ true)) }
{
    let deck = b.plan.deck;
    facts.next_class(label_at(&deck, b.labels, b.tally.elements, e), k)
}

// The classes of e, rising: from one that has a fact to the next. A `while`, as an iterator would keep the labels lent.
fn work_classes(
    b: &mut Build<'_, '_>,
    known: &mut [u32],
    facts: &FactIndex<'_>,
    e: Element,
    since: u32,
) -> Result<(), Tripped>
    requires ready { Ready b.old }
    requires own { facts.now.deck.bytes.now ≡ b.old.plan.deck.bytes.now }
    requires e_lt_elements { e.0 < b.old.tally.elements }
    requires tail { Tail b.old.edges.now b.old.tally.edges since e.0 }
    requires recalled { Recalls b.old b.old known.old }
    ensures holds { Holds b.old b.new (is_err result) (spec.work_classes (deck_in b.old) b.old.plan.floor.now b.old.plan.bounds e.0 (model_of b.old)) }
    ensures kept { OnOk result (Recalls b.old b.new known.new) }
{
    let mut from = 0;
    while let Some(k) = next_class(b, facts, e, from) {
        work_facts(b, known, facts, e, k, since)?;
        from = k.0 + 1;
    }
    Ok(())
}

// The highest element below n that is not taken.
fn highest_untaken(taken: &[u64], n: u32) -> Option<Element>
    requires { n ≤ length taken.now * 64 }
    ensures { highest taken.now n ≡ above result }
{
    for i in (0..n).rev() {
        if !has_bit(taken, i) {
            return Some(Element(i));
        }
    }
    None
}

// Where the next search begins: at the last element taken, or above the elements that were added.
fn resume(at: u32, old: u32, new: u32) -> u32
    ensures { result ≡ cond (eqb old new) at new }
{
    if old == new {
        return at;
    }
    new
}

// Where the edges of a turn begin, which all leave its element: where there was no edge at first, after those of earlier turns.
fn turn_start(first: u32, edges: u32) -> u32
    ensures { result ≡ cond (eqb first 0) edges 0 }
{
    if first == 0 {
        return edges;
    }
    0
}

// The highest element not yet taken first, new ones included.
// No `for`: elements that a turn adds come first after it.
fn turns(b: &mut Build<'_, '_>, known: &mut [u32], facts: &FactIndex<'_>) -> Result<(), Tripped>
    requires ready { Ready b.old }
    requires own { facts.now.deck.bytes.now ≡ b.old.plan.deck.bytes.now }
    requires recalled { Recalls b.old b.old known.old }
    ensures { (d : ℕ) → Holds b.old b.new (is_err result) (spec.expand_in (deck_in b.old) b.old.plan.floor.now b.old.plan.bounds (65536 + d) (model_of b.old)) }
{
    let first = b.tally.edges;
    let mut taken: [u64; 1024] = [0; 1024];
    let mut from = b.tally.elements;
    while let Some(e) = highest_untaken(&taken, from) {
        insert_bit(&mut taken, e.0);
        let elements = b.tally.elements;
        let since = turn_start(first, b.tally.edges);
        work_classes(b, known, facts, e, since)?;
        from = resume(e.0, elements, b.tally.elements);
    }
    Ok(())
}

// The same with tables for so many classes and facts, and for the rows of so many classes: their room is made in a frame of its own.
#[inline(never)]
fn expand_with<const N: usize, const K: usize>(b: &mut Build<'_, '_>) -> Result<(), Tripped>
    requires slots { (0 < N) × (N ≤ 20480) × (0 < K) × (K ≤ 4096) }
    requires ready { Ready b.old }
    requires deck_bound { class_count (deck_in b.old) + fact_count (deck_in b.old) ≤ N }
    requires deck_bound_2 { class_count (deck_in b.old) ≤ K }
    ensures { (d : ℕ) → Holds b.old b.new (is_err result) (spec.expand_in (deck_in b.old) b.old.plan.floor.now b.old.plan.bounds (65536 + d) (model_of b.old)) }
{
    let plan = b.plan;
    let mut words: [u32; N] = [0; N];
    index_facts(&plan.deck, &mut words);
    let mut mask: [u64; 64] = [0; 64];
    mark_facts(&plan.deck, &mut mask);
    let facts = FactIndex {
        deck: plan.deck,
        words: &words,
        mask: &mask,
    };
    // One more than the element of each class's row, where that is remembered; 0 is none, as in a table of zeros, in fixed memory.
    let mut known: [u32; K] = [0; K];
    let elements = b.tally.elements;
    let labels = &mut *b.labels;
    let label = &mut *b.label;
    recall_rows(&plan, &facts, labels, elements, label, &mut known);
    turns(b, &mut known, &facts)
}

// The highest element not yet taken first, new ones included. However many turns are allowed from 65,536 on, the answer is the same.
pub fn expand(b: &mut Build<'_, '_>) -> Result<(), Tripped>
    requires { Ready b.old }
    ensures { (d : ℕ) → Holds b.old b.new (is_err result) (spec.expand_in (deck_in b.old) b.old.plan.floor.now b.old.plan.bounds (65536 + d) (model_of b.old)) }
{
    let deck = b.plan.deck;
    let facts = deck.fact_count();
    if facts == 0 {
        return Ok(());
    }
    if deck.class_count() + facts <= 768 {
        return expand_with::<768, 768>(b);
    }
    expand_with::<20480, 4096>(b)
}
