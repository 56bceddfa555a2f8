// The occurrences of a body's required atoms where shared operands make them many: tables over the concepts, and the RunDeltas in order.
// The tables stay parameters whose length is asked for: a struct of one would hold a `&mut`, and each step would have to say that it stays the same one.
ghost use Rattle.std.specs.Prelude.{◌≡◌, ◌+◌, ◌<◌, ◌≤◌, length};
ghost use mathlib.Core.List.{flat_map};
ghost use Rattle.deck.specs.Accepted.{content};
ghost use Rattle.deck.specs.Deck.{class_count, role_count, concept_count};
ghost use Rattle.deck.specs.Reads.{list_of, ListFits};
ghost use Rattle.atoms.specs.Walk.{walk};
ghost use Rattle.atoms.specs.Floor.{required_atoms};
ghost use Rattle.atoms.specs.Body.{atom_delta};
ghost use Rattle.atoms.specs.Occurrences.{capped, sum_of, entry_at, logs, delta_count, noted_deltas, DeltasTo, Places, IsFirst, FirstsTo};

use crate::lists::operand;
use crate::reasons::{Reason, Stretch, has_room, note, note_again};
use crate::target_label::{Target, target_label};
use deck::Deck;
use deck::concepts::ConceptExpr;
use deck::numbers::{ClassId, ConceptId, RoleId};
use deck::rows::Span;

// How many RunDeltas an atom gives: 0 or 1.
fn atom_count(deck: &Deck, r: RoleId, a: ClassId) -> u32
    requires r_bound { r.0 < role_count (content deck.now) }
    requires a_bound { a.0 < class_count (content deck.now) }
    ensures { result ≡ length (atom_delta (content deck.now) r.0 a.0) }
{
    let by = target_label(deck, a, r);
    match by {
        Target::Row(_) => 0,
        Target::Delta(_) => 1,
        Target::NotClosed => 0,
    }
}

// The sum of the table's words for the concepts of the list, all below `owner`.
fn sum_entries(deck: &Deck, owner: ConceptId, list: Span, table: &[u32]) -> u32
    requires list_fits { ListFits deck.now.bytes.now owner.0 list }
    requires owner_in_bounds { owner.0 ≤ length table.now }
    ensures { result ≡ capped (sum_of (entry_at table.now) (list_of deck.now.bytes.now list)) }
{
    let mut sum: u32 = 0;
    for i in 0..list.count {
        let o = operand(deck, owner, list, i).0 as usize;
        sum = sum.saturating_add(table[o]);
    }
    sum
}

// How many RunDeltas a concept's required atoms give, by the counts of the concepts below it.
fn delta_entry(deck: &Deck, r: RoleId, concept: ConceptId, table: &[u32]) -> u32
    requires r_bound { r.0 < role_count (content deck.now) }
    requires concept_bound { concept.0 < concept_count (content deck.now) }
    requires concept_in_bounds { concept.0 ≤ length table.now }
    requires deltas_to { DeltasTo (content deck.now) r.0 table.now concept.0 }
    ensures { result ≡ delta_count (content deck.now) r.0 concept.0 }
{
    let expr = deck.concept_at(concept);
    match expr {
        ConceptExpr::Atomic(class) => atom_count(deck, r, class),
        ConceptExpr::And(list) => sum_entries(deck, concept, list, table),
        _ => 0,
    }
}

// The table takes the counts of the first `count` concepts in.
pub fn fill_deltas(deck: &Deck, r: RoleId, table: &mut [u32], count: u32)
    requires r_bound { r.0 < role_count (content deck.now) }
    requires count_bound { count ≤ concept_count (content deck.now) }
    requires count_in_bounds { count ≤ length table.old }
    ensures { DeltasTo (content deck.now) r.0 table.new count }
{
    for k in 0..count {
        table[k as usize] = delta_entry(deck, r, ConceptId(k), table);
    }
}

// The RunDeltas of a concept's required atoms, in order; the new total. Those that stand in the log already are noted once more; without room for one only the count is taken.
#[cycle(note_deltas_note_first_note_operands)]
pub fn note_deltas(
    deck: &Deck,
    r: RoleId,
    concept: ConceptId,
    table: &[u32],
    places: &mut [u32],
    log: &mut [u32],
    total: u32,
) -> u32
    requires concept_bound { concept.0 < concept_count (content deck.now) }
    requires concept_in_bounds { (concept.0 < length table.now) × (concept.0 < length places.old) }
    requires deltas_to { DeltasTo (content deck.now) r.0 table.now (concept.0 + 1) }
    requires places { Places (content deck.now) r.0 places.old log.old total }
    ensures log { logs log.new result ≡ noted_deltas (content deck.now) r.0 concept.0 (logs log.old total) }
    ensures places { Places (content deck.now) r.0 places.new log.new result }
{
    let k = concept.0 as usize;
    let count = table[k];
    if count == 0 {
        return total;
    }
    let place = places[k];
    if place != 0 {
        let first = place - 1;
        return note_again(log, total, Stretch { first, count });
    }
    if !has_room(log, total) {
        return total.saturating_add(count);
    }
    let held = note_first(deck, r, concept, table, places, log, total);
    places[k] = total + 1;
    held
}

// The same where they stand nowhere yet.
#[cycle(note_deltas_note_first_note_operands)]
fn note_first(
    deck: &Deck,
    r: RoleId,
    concept: ConceptId,
    table: &[u32],
    places: &mut [u32],
    log: &mut [u32],
    total: u32,
) -> u32
    requires concept_bound { concept.0 < concept_count (content deck.now) }
    requires concept_in_bounds { (concept.0 < length table.now) × (concept.0 < length places.old) }
    requires some { delta_count (content deck.now) r.0 concept.0 ≡ 0 → ⊥ }
    requires deltas_to { DeltasTo (content deck.now) r.0 table.now (concept.0 + 1) }
    requires places { Places (content deck.now) r.0 places.old log.old total }
    ensures log { logs log.new result ≡ noted_deltas (content deck.now) r.0 concept.0 (logs log.old total) }
    ensures places { Places (content deck.now) r.0 places.new log.new result }
{
    let expr = deck.concept_at(concept);
    match expr {
        ConceptExpr::Atomic(class) => note(log, total, Reason::RunDelta(class)),
        ConceptExpr::And(list) => note_operands(deck, r, concept, list, table, places, log, total),
        _ => total,
    }
}

// The same of each concept of the list, all below `owner`.
#[cycle(note_deltas_note_first_note_operands)]
fn note_operands(
    deck: &Deck,
    r: RoleId,
    owner: ConceptId,
    list: Span,
    table: &[u32],
    places: &mut [u32],
    log: &mut [u32],
    total: u32,
) -> u32
    requires owner_bound { owner.0 < concept_count (content deck.now) }
    requires list_fits { ListFits deck.now.bytes.now owner.0 list }
    requires owner_in_bounds { (owner.0 ≤ length table.now) × (owner.0 ≤ length places.old) }
    requires deltas_to { DeltasTo (content deck.now) r.0 table.now owner.0 }
    requires places { Places (content deck.now) r.0 places.old log.old total }
    ensures log { logs log.new result ≡ walk (noted_deltas (content deck.now) r.0) (list_of deck.now.bytes.now list) (logs log.old total) }
    ensures places { Places (content deck.now) r.0 places.new log.new result }
{
    let mut held = total;
    for i in 0..list.count {
        held = note_deltas(
            deck,
            r,
            operand(deck, owner, list, i),
            table,
            places,
            log,
            held,
        );
    }
    held
}

// The first atom of the concepts of the list, all below `owner`, or 4,294,967,295 for none: a word of the table, whose words have no room for an Option beside the number.
fn first_in(deck: &Deck, owner: ConceptId, list: Span, table: &[u32]) -> u32
    requires list_fits { ListFits deck.now.bytes.now owner.0 list }
    requires owner_in_bounds { owner.0 ≤ length table.now }
    requires firsts_to { FirstsTo (content deck.now) table.now owner.0 }
    ensures { IsFirst (flat_map (required_atoms (content deck.now)) (list_of deck.now.bytes.now list)) result }
{
    for i in 0..list.count {
        let o = operand(deck, owner, list, i).0 as usize;
        let x = table[o];
        if x != 4294967295 {
            return x;
        }
    }
    4294967295
}

// A concept's first required atom, by those of the concepts below it.
fn first_entry(deck: &Deck, concept: ConceptId, table: &[u32]) -> u32
    requires concept_bound { concept.0 < concept_count (content deck.now) }
    requires concept_in_bounds { concept.0 ≤ length table.now }
    requires firsts_to { FirstsTo (content deck.now) table.now concept.0 }
    ensures { IsFirst (required_atoms (content deck.now) concept.0) result }
{
    let expr = deck.concept_at(concept);
    match expr {
        ConceptExpr::Atomic(class) => class.0,
        ConceptExpr::And(list) => first_in(deck, concept, list, table),
        _ => 4294967295,
    }
}

// The table takes the first required atoms of the first `count` concepts in.
// Beside `fill_deltas`: of both, the entry would be a closure with the contract of either written again.
pub fn fill_firsts(deck: &Deck, table: &mut [u32], count: u32)
    requires count_bound { count ≤ concept_count (content deck.now) }
    requires count_in_bounds { count ≤ length table.old }
    ensures { FirstsTo (content deck.now) table.new count }
{
    for k in 0..count {
        table[k as usize] = first_entry(deck, ConceptId(k), table);
    }
}
