// The top floor: what every element without a real class has.
ghost use Rattle.std.specs.Prelude.{◌≡◌, ◌+◌, ◌*◌, ◌%◌, ◌^◌, ◌<◌, ◌≤◌, length, get_or, drop};
ghost use mathlib.Core.List.{map, flat_map};
ghost use Rattle.deck.specs.Accepted.{content};
ghost use Rattle.deck.specs.Below.{any_below};
ghost use Rattle.deck.specs.Deck.{Axiom, concept_count, concept_at, axiom_count, axiom_at};
ghost use Rattle.deck.specs.Reads.{list_of, ListFits};
ghost use Rattle.eval.specs.Lists.{any};
ghost use Rattle.eval.specs.Lent.{bit, label_width};
ghost use Rattle.atoms.specs.Label.{insert_all};
ghost use Rattle.atoms.specs.Leaves.{IsLeaf};
ghost use Rattle.atoms.specs.Floor.{universal, atom_rows, member_rows, floor_of, floor_label, has_real, floored};

use crate::labels;
use crate::leaves::{Question, every_leaf, is_and, leaf_answer};
use crate::lists::{member, operand};
use crate::marks::Leaves;
use crate::subsumers::insert_satisfiable;
use deck::Deck;
use deck::concepts::ConceptExpr;
use deck::numbers::ConceptId;
use deck::rows::Span;

// Is the concept universal? By the one walk from the concept's number downward, so that no operand list is read twice.
pub fn is_universal_antecedent(deck: &Deck, concept: ConceptId) -> bool
    requires concept_bound { concept.0 < concept_count (content deck.now) }
    ensures { result ≡ universal (content deck.now) concept.0 }
{
    if is_and(deck, concept) {
        return every_leaf(deck, &Question::Universal, concept);
    }
    leaf_answer(deck, &Question::Universal, concept)
}

// The label takes the row of a concept that is a satisfiable atom in.
fn join_leaf(deck: &Deck, concept: ConceptId, label: &mut [u64])
    requires concept_bound { concept.0 < concept_count (content deck.now) }
    requires leaf { IsLeaf (concept_at (content deck.now) concept.0) }
    requires label_len { length label.old ≡ label_width (content deck.now) }
    ensures { label.new ≡ insert_all label.old (atom_rows (content deck.now) concept.0) }
{
    let expr = deck.concept_at(concept);
    match expr {
        ConceptExpr::Atomic(class) => insert_satisfiable(deck, class, label),
        _ => {}
    }
}

// The same of all that the operands from the first on lead to, all below `owner`: what is shared is joined once.
fn join_rest(deck: &Deck, owner: ConceptId, list: Span, first: u32, label: &mut [u64])
    requires owner_bound { owner.0 < concept_count (content deck.now) }
    requires list_fits { ListFits deck.now.bytes.now owner.0 list }
    requires label_len { length label.old ≡ label_width (content deck.now) }
    ensures { label.new ≡ insert_all label.old (flat_map (atom_rows (content deck.now)) (drop first (list_of deck.now.bytes.now list))) }
{
    for leaf in Leaves::of_operands(deck, owner, list, first) {
        join_leaf(deck, leaf, label);
    }
}

// The same of the whole list: marks only from the first And on.
// A loop of its own beside `operands_answer`: of both, the step would be a closure whose contract tells what the label has taken in, or what was answered.
fn join_operands(deck: &Deck, owner: ConceptId, list: Span, label: &mut [u64])
    requires owner_bound { owner.0 < concept_count (content deck.now) }
    requires list_fits { ListFits deck.now.bytes.now owner.0 list }
    requires label_len { length label.old ≡ label_width (content deck.now) }
    ensures { label.new ≡ insert_all label.old (flat_map (atom_rows (content deck.now)) (list_of deck.now.bytes.now list)) }
{
    for i in 0..list.count {
        let o = operand(deck, owner, list, i);
        if is_and(deck, o) {
            return join_rest(deck, owner, list, i, label);
        }
        join_leaf(deck, o, label);
    }
}

// The label takes the rows of the concept's satisfiable required atoms in.
pub fn join_required_atoms(deck: &Deck, concept: ConceptId, label: &mut [u64])
    requires concept_bound { concept.0 < concept_count (content deck.now) }
    requires label_len { length label.old ≡ label_width (content deck.now) }
    ensures { label.new ≡ insert_all label.old (atom_rows (content deck.now) concept.0) }
{
    let expr = deck.concept_at(concept);
    match expr {
        ConceptExpr::And(list) => join_operands(deck, concept, list, label),
        _ => join_leaf(deck, concept, label),
    }
}

// Is a member universal?
// This and the like of model's triggers.rt stay: each is one line, and one of all would take that line as a closure.
fn any_universal(deck: &Deck, list: Span) -> bool
    requires list_fits { ListFits deck.now.bytes.now (concept_count (content deck.now)) list }
    ensures { result ≡ any (map (universal (content deck.now)) (list_of deck.now.bytes.now list)) }
{
    (0..list.count).any(|i| is_universal_antecedent(deck, member(deck, list, i)))
}

// A member that is not universal gives its atoms' rows.
fn join_member(deck: &Deck, member: ConceptId, label: &mut [u64])
    requires member_bound { member.0 < concept_count (content deck.now) }
    requires label_len { length label.old ≡ label_width (content deck.now) }
    ensures { label.new ≡ insert_all label.old (member_rows (content deck.now) member.0) }
{
    if is_universal_antecedent(deck, member) {
        return;
    }
    join_required_atoms(deck, member, label);
}

fn join_members(deck: &Deck, list: Span, label: &mut [u64])
    requires list_fits { ListFits deck.now.bytes.now (concept_count (content deck.now)) list }
    requires label_len { length label.old ≡ label_width (content deck.now) }
    ensures { label.new ≡ insert_all label.old (flat_map (member_rows (content deck.now)) (list_of deck.now.bytes.now list)) }
{
    for i in 0..list.count {
        join_member(deck, member(deck, list, i), label);
    }
}

// SubClassOf: where the subclass is universal.
fn join_sub_class(deck: &Deck, sub: ConceptId, sup: ConceptId, label: &mut [u64])
    requires sub_bound { sub.0 < concept_count (content deck.now) }
    requires sup_bound { sup.0 < concept_count (content deck.now) }
    requires label_len { length label.old ≡ label_width (content deck.now) }
    ensures { label.new ≡ insert_all label.old (floor_of (content deck.now) (Axiom.SubClassOf sub.0 sup.0)) }
{
    if is_universal_antecedent(deck, sub) {
        join_required_atoms(deck, sup, label);
    }
}

// EquivalentClasses: where a member is universal.
fn join_equivalent(deck: &Deck, list: Span, label: &mut [u64])
    requires list_fits { ListFits deck.now.bytes.now (concept_count (content deck.now)) list }
    requires label_len { length label.old ≡ label_width (content deck.now) }
    ensures { label.new ≡ insert_all label.old (floor_of (content deck.now) (Axiom.EquivalentClasses (list_of deck.now.bytes.now list))) }
{
    if any_universal(deck, list) {
        join_members(deck, list, label);
    }
}

// What an axiom gives the floor.
fn join_axiom(deck: &Deck, axiom: u32, label: &mut [u64])
    requires axiom_bound { «axiom» < axiom_count (content deck.now) }
    requires label_len { length label.old ≡ label_width (content deck.now) }
    ensures { label.new ≡ insert_all label.old (floor_of (content deck.now) (axiom_at (content deck.now) «axiom»)) }
{
    // By the record's own tag, as document 01 has it: an enum of the 26 would have 24 arms that give nothing.
    let record = deck.axiom_at(axiom);
    let tag = record.tag;
    let x = record.first;
    let y = record.second;
    match tag {
        0 => join_sub_class(deck, ConceptId(x), ConceptId(y), label),
        1 => join_equivalent(deck, Span { start: x, count: y }, label),
        _ => {}
    }
}

// The floor: the rows that all axioms give.
// `load_facts` of build is alike and stays: two lines, over another part of a deck.
pub fn compute_top_floor(deck: &Deck, floor: &mut [u64])
    requires floor_len { length floor.old ≡ label_width (content deck.now) }
    ensures { floor.new ≡ floor_label (content deck.now) }
{
    labels::clear(floor);
    for i in 0..deck.axiom_count() {
        join_axiom(deck, i, floor);
    }
}

// Whether word i has a bit below b.
fn has_bit_below(label: &[u64], i: usize, b: u64) -> bool
    requires b_in_bounds { i * 64 + b ≤ length label.now * 64 }
    requires b_bound { b < 64 }
    ensures { result ≡ any_below (bit (get_or label.now i 0)) b }
{
    if b == 0 {
        return false;
    }
    low_bits(label[i], b) != 0
}

// The bits of a word below b.
fn low_bits(w: u64, b: u64) -> u64
    requires { b < 64 }
    ensures { result ≡ w % 2 ^ b }
{
    w % (1 << b)
}

// Whether the label has a class below M: word by word, then the rest of the last word.
fn has_real(deck: &Deck, label: &[u64]) -> bool
    requires label_len { length label.now ≡ label_width (content deck.now) }
    ensures { result ≡ has_real (content deck.now) label.now }
{
    let real = deck.real_count() as usize;
    let words = real / 64;
    for i in 0..words {
        if label[i] != 0 {
            return true;
        }
    }
    has_bit_below(label, words, (real % 64) as u64)
}

// A label without a class below M takes the floor in.
pub fn apply_floor(deck: &Deck, floor: &[u64], label: &mut [u64])
    requires floor_len { length floor.now ≡ label_width (content deck.now) }
    requires label_len { length label.old ≡ label_width (content deck.now) }
    ensures { label.new ≡ floored (content deck.now) floor.now label.old }
{
    if has_real(deck, label) {
        return;
    }
    labels::join(label, floor);
}
