// The label of the target of a Some where shared operands make its body's required atoms many: each concept is taken once, and reasons are noted by tables.
ghost use Rattle.std.specs.Prelude.{◌≡◌, true, false, [], ◌∷◌, map, ◌<◌, length, get_or};
ghost use Rattle.deck.specs.Accepted.{content};
ghost use Rattle.deck.specs.Deck.{class_count, role_count, concept_count, concept_at};
ghost use Rattle.eval.specs.Lent.{label_width};
ghost use Rattle.eval.specs.Lists.{any};
ghost use Rattle.atoms.specs.Floor.{required_atoms};
ghost use Rattle.atoms.specs.Reasons.{label_not_closed, noted, counted};
ghost use Rattle.atoms.specs.Body.{body_of, Joined};
ghost use Rattle.atoms.specs.Occurrences.{logs, noted_deltas};
ghost use Rattle.atoms.specs.Leaves.{IsLeaf};
ghost use Rattle.atoms.specs.Large.{seen_as, gathered, is_any, atom_gives, took, SeenOf, noted_all};

use crate::body::join_ranges;
use crate::labels;
use crate::marks::Leaves;
use crate::occurrences::{fill_deltas, fill_firsts, note_deltas};
use crate::reasons::{Reason, note};
use crate::target_label::join_target;
use deck::Deck;
use deck::concepts::ConceptExpr;
use deck::numbers::{ClassId, ConceptId, RoleId};

// What the atoms so far gave: whether there was one, whether one was not closed, and whether one gives a RunDelta. All three are counted alike, each by an or over the atoms, so the first is no Option around the others.
#[derive(Clone, Copy)]
pub struct Seen {
    pub found: bool,
    pub unclosed: bool,
    pub delta: bool,
}

// The label takes one atom in, by the label of its target by r.
fn join_by(deck: &Deck, r: RoleId, a: ClassId, label: &mut [u64], seen: Seen) -> Seen
    requires r_bound { r.0 < role_count (content deck.now) }
    requires a_bound { a.0 < class_count (content deck.now) }
    requires label_len { length label.old ≡ label_width (content deck.now) }
    ensures { gathered label.new result ≡ took (content deck.now) r.0 (a.0 ∷ []) (gathered label.old seen) }
{
    let target = join_target(deck, r, a, label);
    Seen {
        found: true,
        unclosed: seen.unclosed | target.is_open(),
        delta: seen.delta | target.is_delta(),
    }
}

// The label takes a concept in that is no And: only an atom gives something.
fn join_leaf(deck: &Deck, r: RoleId, concept: ConceptId, label: &mut [u64], seen: Seen) -> Seen
    requires r_bound { r.0 < role_count (content deck.now) }
    requires concept_bound { concept.0 < concept_count (content deck.now) }
    requires leaf { IsLeaf (concept_at (content deck.now) concept.0) }
    requires label_len { length label.old ≡ label_width (content deck.now) }
    ensures { gathered label.new result ≡ took (content deck.now) r.0 (required_atoms (content deck.now) concept.0) (gathered label.old seen) }
{
    let expr = deck.concept_at(concept);
    match expr {
        ConceptExpr::Atomic(class) => join_by(deck, r, class, label, seen),
        _ => seen,
    }
}

// The label takes the required atoms of a concept in, each concept once.
fn join_leaves(deck: &Deck, r: RoleId, concept: ConceptId, label: &mut [u64]) -> Seen
    requires r_bound { r.0 < role_count (content deck.now) }
    requires concept_bound { concept.0 < concept_count (content deck.now) }
    requires label_len { length label.old ≡ label_width (content deck.now) }
    ensures { gathered label.new result ≡ took (content deck.now) r.0 (required_atoms (content deck.now) concept.0) (gathered label.old (seen_as false false false)) }
{
    let mut seen = Seen {
        found: false,
        unclosed: false,
        delta: false,
    };
    for leaf in Leaves::of_concept(deck, concept) {
        seen = join_leaf(deck, r, leaf, label, seen);
    }
    seen
}

// The RunDeltas of a concept's required atoms, where there are any; the new total.
fn note_counted(
    deck: &Deck,
    r: RoleId,
    concept: ConceptId,
    delta: bool,
    table: &mut [u32],
    log: &mut [u32],
    total: u32,
) -> u32
    requires r_bound { r.0 < role_count (content deck.now) }
    requires concept_bound { concept.0 < concept_count (content deck.now) }
    requires delta_value { delta ≡ any (map (atom_gives (content deck.now) r.0) (required_atoms (content deck.now) concept.0)) }
    requires concept_in_bounds { concept.0 < length table.old }
    ensures { logs log.new result ≡ noted_deltas (content deck.now) r.0 concept.0 (logs log.old total) }
{
    if !delta {
        return total;
    }
    fill_deltas(deck, r, table, concept.0 + 1);
    let mut places: [u32; 16384] = [0; 16384];
    note_deltas(deck, r, concept, table, &mut places, log, total)
}

// LabelNotClosed of a concept's first required atom and r, where it has one; the new total.
fn note_open(
    deck: &Deck,
    r: RoleId,
    concept: ConceptId,
    table: &mut [u32],
    log: &mut [u32],
    total: u32,
) -> u32
    requires concept_bound { concept.0 < concept_count (content deck.now) }
    requires concept_value { any (map is_any (required_atoms (content deck.now) concept.0)) ≡ true }
    requires concept_in_bounds { concept.0 < length table.old }
    ensures { (log.new ≡ noted log.old total (label_not_closed (get_or (required_atoms (content deck.now) concept.0) 0 0) r.0)) × (result ≡ counted total) }
{
    fill_firsts(deck, table, concept.0 + 1);
    let k = concept.0 as usize;
    note(log, total, Reason::LabelNotClosed(ClassId(table[k]), r))
}

// All reasons of a body with required atoms; the new total.
fn note_all(
    deck: &Deck,
    r: RoleId,
    concept: ConceptId,
    seen: Seen,
    log: &mut [u32],
    reasons: u32,
) -> u32
    requires r_bound { r.0 < role_count (content deck.now) }
    requires concept_bound { concept.0 < concept_count (content deck.now) }
    requires seen_of { SeenOf (content deck.now) r.0 concept.0 seen }
    requires found_value { seen.found ≡ true }
    ensures { logs log.new result ≡ noted_all (content deck.now) r.0 concept.0 (logs log.old reasons) }
{
    let mut table: [u32; 16384] = [0; 16384];
    let total = note_counted(deck, r, concept, seen.delta, &mut table, log, reasons);
    if !seen.unclosed {
        return total;
    }
    note_open(deck, r, concept, &mut table, log, total)
}

// The label becomes that of a body's target by r; the total of reasons after those of its atoms. With a frame of its own its room is made only where it is needed.
#[inline(never)]
pub fn body_large(
    deck: &Deck,
    r: RoleId,
    concept: ConceptId,
    label: &mut [u64],
    log: &mut [u32],
    reasons: u32,
) -> u32
    requires r_bound { r.0 < role_count (content deck.now) }
    requires concept_bound { concept.0 < concept_count (content deck.now) }
    requires label_len { length label.old ≡ label_width (content deck.now) }
    ensures { Joined label.new log.new result (body_of (content deck.now) r.0 concept.0 log.old reasons) }
{
    labels::clear(label);
    let seen = join_leaves(deck, r, concept, label);
    if !seen.found {
        join_ranges(deck, r, label);
        return reasons;
    }
    note_all(deck, r, concept, seen, log, reasons)
}
