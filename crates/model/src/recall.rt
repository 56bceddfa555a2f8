// The elements of the rows that facts lead to, found by fingerprint before expanding.
ghost use Rattle.std.specs.Prelude.{[], ◌≡◌, ◌*◌, ◌<◌, ◌≤◌, length, leb};
ghost use Rattle.deck.specs.Accepted.{content};
ghost use Rattle.deck.specs.Content.{deck_of};
ghost use Rattle.deck.specs.Deck.{class_count, fact_count};
ghost use Rattle.eval.specs.Lent.{label_width};
ghost use Rattle.atoms.specs.Label.{joined};
ghost use Rattle.atoms.specs.Rows.{rows_of};
ghost use Rattle.atoms.specs.Walk.{walk};
ghost use Rattle.build.specs.Prints.{Chained};
ghost use Rattle.build.specs.Intern.{Found};
ghost use Rattle.model.specs.FactIndex.{Recalled};
ghost use Rattle.model.specs.FactWalk.{facts_held};

use crate::fact_index::{FactIndex, entry};
use atoms::floor::apply_floor;
use atoms::labels::{join, label_at};
use atoms::subsumers::load_row;
use atoms::target_label::{Target, target_label};
use build::plan::Plan;
use build::prints::{chain, find_at, slot_of};
use deck::Deck;
use deck::numbers::{ClassId, Element};
use eval::labels::label_width;

// Are the tables those of a small deck (`expand`)?
fn is_small(known: &[u32]) -> bool
    ensures { result ≡ leb (length known.now) 768 }
{
    known.len() <= 768
}

// The labels of all elements by their slots.
// What is known stays beside it (`Knows`), as each step writes it.
#[derive(Clone, Copy)]
struct Printed<'t> {
    plan: Plan<'t>,
    labels: &'t [u64],
    elements: u32,
    heads: &'t [u32],
    links: &'t [u32],
    ghost room: { elements * label_width (deck_of plan.deck.bytes.now) ≤ length labels.now },
    ghost chained: { Chained (rows_of (label_width (deck_of plan.deck.bytes.now)) elements labels.now) heads.now links.now },
    ghost within: { elements ≤ length links.now },
    ghost few: { elements < 65536 },
}

impl Printed<'_> {
    ghost use Rattle.model.specs.Recall.{Knows};

    // The element whose label it is, if there is one.
    fn find(&self, label: &[u64]) -> Option<Element>
        requires label_len { length label.now ≡ label_width (deck_of self.now.plan.deck.bytes.now) }
        ensures { Found (rows_of (label_width (deck_of self.now.plan.deck.bytes.now)) self.now.elements self.now.labels.now) label.now result }
    {
        let h = slot_of(label, self.heads.len());
        find_at(self.labels, self.elements, label, self.heads, self.links, h)
    }

    // The element of a class's row, where there is one, is remembered.
    fn recall_row(&self, class: ClassId, label: &mut [u64], known: &mut [u32])
        requires class_bound { class.0 < class_count (deck_of self.now.plan.deck.bytes.now) }
        requires label_len { length label.old ≡ label_width (deck_of self.now.plan.deck.bytes.now) }
        requires recalled { Knows self.now known.old }
        ensures { Knows self.now known.new }
    {
        if entry(known, class.0 as usize).is_some() {
            return;
        }
        load_row(&self.plan.deck, class, label);
        apply_floor(&self.plan.deck, self.plan.floor, label);
        if let Some(e) = self.find(label) {
            known[class.0 as usize] = e.0 + 1;
        }
    }

    // That of the row that labels the target of a fact, if one does. In a small deck the search by a range of more than four classes costs more than a row known before saves.
    fn recall_target(&self, fact: u32, label: &mut [u64], known: &mut [u32])
        requires fact_bound { fact < fact_count (deck_of self.now.plan.deck.bytes.now) }
        requires label_len { length label.old ≡ label_width (deck_of self.now.plan.deck.bytes.now) }
        requires recalled { Knows self.now known.old }
        ensures { Knows self.now known.new }
    {
        let record = self.plan.deck.fact_at(fact);
        if is_small(known) && 4 < self.plan.deck.range_of(record.role).count {
            return;
        }
        let target = target_label(&self.plan.deck, record.to, record.role);
        match target {
            Target::Row(class) => self.recall_row(class, label, known),
            Target::Delta(class) => self.recall_row(class, label, known),
            Target::NotClosed => {}
        }
    }

    // Those of the facts of a class.
    fn recall_facts(
        &self,
        facts: &FactIndex<'_>,
        class: ClassId,
        label: &mut [u64],
        known: &mut [u32],
    )
        requires own { facts.now.deck.bytes.now ≡ self.now.plan.deck.bytes.now }
        requires class_bound { class.0 < class_count (deck_of self.now.plan.deck.bytes.now) }
        requires label_len { length label.old ≡ label_width (deck_of self.now.plan.deck.bytes.now) }
        requires recalled { Knows self.now known.old }
        ensures { Knows self.now known.new }
    {
        for fact in facts.facts_of(class) {
            self.recall_target(fact, label, known);
        }
    }

    // Those of the facts of the classes of a label. A `while`, from one class to the next.
    fn recall_targets(
        &self,
        facts: &FactIndex<'_>,
        held: &[u64],
        label: &mut [u64],
        known: &mut [u32],
    )
        requires own { facts.now.deck.bytes.now ≡ self.now.plan.deck.bytes.now }
        requires held_len { length held.now ≡ label_width (deck_of self.now.plan.deck.bytes.now) }
        requires label_len { length label.old ≡ label_width (deck_of self.now.plan.deck.bytes.now) }
        requires recalled { Knows self.now known.old }
        ensures { Knows self.now known.new }
    {
        let mut from = 0;
        while let Some(class) = facts.next_class(held, from) {
            self.recall_facts(facts, class, label, known);
            from = class.0 + 1;
        }
    }
}

// The classes of so many elements come into a label.
fn join_labels(deck: &Deck, labels: &[u64], elements: u32, held: &mut [u64])
    requires room { elements * label_width (content deck.now) ≤ length labels.now }
    requires held_len { length held.old ≡ label_width (content deck.now) }
    ensures taken { held.new ≡ walk (λ l all. joined all l) (rows_of (label_width (content deck.now)) elements labels.now) held.old }
    ensures size { length held.new ≡ length held.old }
{
    for e in 0..elements {
        join(held, label_at(deck, labels, elements, Element(e)));
    }
}

// Are there at least so many facts of the classes of a label? A `while`, from one class to the next.
fn has_facts(facts: &FactIndex<'_>, held: &[u64], least: usize) -> bool
    requires held_len { length held.now ≡ label_width (content facts.now.deck) }
    requires least_bound { (0 < least) × (least ≤ 64) }
    ensures { result ≡ leb least (facts_held (content facts.now.deck) held.now) }
{
    let mut count = 0;
    let mut from = 0;
    while let Some(class) = facts.next_class(held, from) {
        count += facts.facts_of(class).count();
        if least <= count {
            return true;
        }
        from = class.0 + 1;
    }
    false
}

// The labels of so many elements come into an empty table.
fn chain_labels(deck: &Deck, labels: &[u64], elements: u32, heads: &mut [u32], links: &mut [u32])
    requires room { elements * label_width (content deck.now) ≤ length labels.now }
    requires elements_in_bounds { elements ≤ length links.old }
    requires elements_bound { elements < 65536 }
    requires chained { Chained [] heads.old links.old }
    ensures { Chained (rows_of (label_width (content deck.now)) elements labels.now) heads.new links.new }
{
    for e in 0..elements {
        let label = label_at(deck, labels, elements, Element(e));
        let h = slot_of(label, heads.len());
        chain(heads, links, h, e);
    }
}

// The elements of the targets of the facts of classes that elements have, where the facts are many enough to pay for the table and the elements fit in it. Its room is made in a frame of its own.
#[inline(never)]
pub fn recall_rows(
    plan: &Plan<'_>,
    facts: &FactIndex<'_>,
    labels: &[u64],
    elements: u32,
    label: &mut [u64],
    known: &mut [u32],
)
    requires own { facts.now.deck.bytes.now ≡ plan.now.deck.bytes.now }
    requires room { elements * label_width (content plan.now.deck) ≤ length labels.now }
    requires label_len { length label.old ≡ label_width (content plan.now.deck) }
    requires recalled { Recalled (content plan.now.deck) plan.now.floor.now (rows_of (label_width (content plan.now.deck)) elements labels.now) known.old }
    ensures { Recalled (content plan.now.deck) plan.now.floor.now (rows_of (label_width (content plan.now.deck)) elements labels.now) known.new }
{
    if plan.deck.fact_count() <= 128 || 4096 < elements {
        return;
    }
    let mut held: [u64; 64] = [0; 64];
    let held = &mut held[..label_width(&plan.deck)];
    join_labels(&plan.deck, labels, elements, held);
    let least = if is_small(known) { 64 } else { 1 };
    if !has_facts(facts, held, least) {
        return;
    }
    let mut heads: [u32; 4096] = [0; 4096];
    let mut links: [u32; 4096] = [0; 4096];
    chain_labels(&plan.deck, labels, elements, &mut heads, &mut links);
    let printed = Printed {
        plan: *plan,
        labels,
        elements,
        heads: &heads,
        links: &links,
    };
    printed.recall_targets(facts, held, label, known);
}
