// The label of the target of a Some, from its body's required atoms.
ghost use Rattle.std.specs.Prelude.{◌≡◌, ◌<◌, length};
ghost use mathlib.Core.List.{flat_map};
ghost use Rattle.deck.specs.Accepted.{content};
ghost use Rattle.deck.specs.Deck.{class_count, role_count, concept_count, role_at};
ghost use Rattle.deck.specs.Reads.{list_of, ListFits};
ghost use Rattle.eval.specs.Lent.{label_width};
ghost use Rattle.atoms.specs.Label.{insert_all};
ghost use Rattle.atoms.specs.Walk.{walk};
ghost use Rattle.atoms.specs.Body.{body, met, row_of_class, join_atom, join_atoms, body_of, Joined};

use crate::labels;
use crate::large::body_large;
use crate::lists::operand;
use crate::reasons::{Reason, note};
use crate::subsumers::insert_subsumers;
use crate::target_label::{Target, join_target};
use crate::visits::visits;
use deck::Deck;
use deck::concepts::ConceptExpr;
use deck::numbers::{ClassId, ConceptId, RoleId};
use deck::rows::Span;

// What the atoms so far gave: the first of them, whether one was not closed, and the total of reasons. The flag is no Option around
// the others: all three are kept side by side, and an atom that is not closed need not be the first.
#[derive(Clone, Copy)]
pub struct Atoms {
    pub first: Option<ClassId>,
    pub unclosed: bool,
    pub reasons: u32,
}

impl Atoms {
    // One more atom: the first of all is kept.
    fn with(self, a: ClassId) -> Atoms
        ensures { result ≡ met a.0 self }
    {
        Atoms {
            first: self.first.or(Some(a)),
            ..self
        }
    }
}

// The label takes one atom in, by the label of its target by r. Role, label and log go through the walk as parameters: a struct of them
// would hold two `&mut`, and each step would have to say that they stay the same ones.
fn join_atom(
    deck: &Deck,
    r: RoleId,
    a: ClassId,
    label: &mut [u64],
    log: &mut [u32],
    j: Atoms,
) -> Atoms
    requires r_bound { r.0 < role_count (content deck.now) }
    requires a_bound { a.0 < class_count (content deck.now) }
    requires label_len { length label.old ≡ label_width (content deck.now) }
    ensures { body label.new log.new result ≡ join_atom (content deck.now) r.0 a.0 (body label.old log.old j) }
{
    let met = j.with(a);
    match join_target(deck, r, a, label) {
        Target::Row(_) => met,
        Target::Delta(_) => {
            let reasons = note(log, met.reasons, Reason::RunDelta(a));
            Atoms { reasons, ..met }
        }
        Target::NotClosed => Atoms {
            unclosed: true,
            ..met
        },
    }
}

// The label takes the required atoms of a concept in.
#[cycle(join_atoms_join_operands_atoms)]
fn join_atoms(
    deck: &Deck,
    r: RoleId,
    concept: ConceptId,
    label: &mut [u64],
    log: &mut [u32],
    j: Atoms,
) -> Atoms
    requires r_bound { r.0 < role_count (content deck.now) }
    requires concept_bound { concept.0 < concept_count (content deck.now) }
    requires label_len { length label.old ≡ label_width (content deck.now) }
    ensures { body label.new log.new result ≡ join_atoms (content deck.now) r.0 concept.0 (body label.old log.old j) }
{
    let expr = deck.concept_at(concept);
    match expr {
        ConceptExpr::Atomic(class) => join_atom(deck, r, class, label, log, j),
        ConceptExpr::And(list) => join_operands_atoms(deck, r, concept, list, label, log, j),
        _ => j,
    }
}

// The same of each concept of the list, all below `owner`. Each walk has its own such loop (here, in occurrences.rt, short.rt and visits.rt, and in build's exists.rt): a
// shared one would take the step as a closure, and a closure in a cycle of calls wants the step's whole contract written again.
#[cycle(join_atoms_join_operands_atoms)]
fn join_operands_atoms(
    deck: &Deck,
    r: RoleId,
    owner: ConceptId,
    list: Span,
    label: &mut [u64],
    log: &mut [u32],
    j: Atoms,
) -> Atoms
    requires r_bound { r.0 < role_count (content deck.now) }
    requires owner_bound { owner.0 < concept_count (content deck.now) }
    requires list_fits { ListFits deck.now.bytes.now owner.0 list }
    requires label_len { length label.old ≡ label_width (content deck.now) }
    ensures { body label.new log.new result ≡ walk (join_atoms (content deck.now) r.0) (list_of deck.now.bytes.now list) (body label.old log.old j) }
{
    let mut held = j;
    for i in 0..list.count {
        held = join_atoms(deck, r, operand(deck, owner, list, i), label, log, held);
    }
    held
}

// The label takes the rows of r's range classes in.
pub fn join_ranges(deck: &Deck, r: RoleId, label: &mut [u64])
    requires r_bound { r.0 < role_count (content deck.now) }
    requires label_len { length label.old ≡ label_width (content deck.now) }
    ensures { label.new ≡ insert_all label.old (flat_map (row_of_class (content deck.now)) (role_at (content deck.now) r.0).range) }
{
    let list = deck.range_of(r);
    for i in 0..list.count {
        insert_subsumers(deck, ClassId(deck.item(list, i)), label);
    }
}

// The label becomes that of a body's target by r, by a walk over every occurrence of its required atoms; the total of reasons after those.
fn body_walked(
    deck: &Deck,
    r: RoleId,
    concept: ConceptId,
    label: &mut [u64],
    log: &mut [u32],
    reasons: u32,
) -> u32
    requires r_bound { r.0 < role_count (content deck.now) }
    requires concept_bound { concept.0 < concept_count (content deck.now) }
    requires label_len { length label.old ≡ label_width (content deck.now) }
    ensures { Joined label.new log.new result (body_of (content deck.now) r.0 concept.0 log.old reasons) }
{
    labels::clear(label);
    let none = Atoms {
        first: None,
        unclosed: false,
        reasons,
    };
    let j = join_atoms(deck, r, concept, label, log, none);
    let Some(first) = j.first else {
        join_ranges(deck, r, label);
        return j.reasons;
    };
    if !j.unclosed {
        return j.reasons;
    }
    note(log, j.reasons, Reason::LabelNotClosed(first, r))
}

// The same: by a walk where that is short, or known to be, and else by tables.
pub fn body_label_known(
    deck: &Deck,
    r: RoleId,
    concept: ConceptId,
    short: bool,
    label: &mut [u64],
    log: &mut [u32],
    reasons: u32,
) -> u32
    requires r_bound { r.0 < role_count (content deck.now) }
    requires concept_bound { concept.0 < concept_count (content deck.now) }
    requires label_len { length label.old ≡ label_width (content deck.now) }
    ensures { Joined label.new log.new result (body_of (content deck.now) r.0 concept.0 log.old reasons) }
{
    if !short {
        if visits(deck, concept, false, 256) == 0 {
            return body_large(deck, r, concept, label, log, reasons);
        }
    }
    body_walked(deck, r, concept, label, log, reasons)
}

// The same where nothing is known of the walk.
pub fn body_label(
    deck: &Deck,
    r: RoleId,
    concept: ConceptId,
    label: &mut [u64],
    log: &mut [u32],
    reasons: u32,
) -> u32
    requires r_bound { r.0 < role_count (content deck.now) }
    requires concept_bound { concept.0 < concept_count (content deck.now) }
    requires label_len { length label.old ≡ label_width (content deck.now) }
    ensures { Joined label.new log.new result (body_of (content deck.now) r.0 concept.0 log.old reasons) }
{
    body_label_known(deck, r, concept, false, label, log, reasons)
}
