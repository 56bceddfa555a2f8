// What an axiom's rules need before they can add something, and the table of it that a phase of rounds reads.
ghost use Rattle.std.specs.Prelude.{◌≡◌, [], ◌∷◌, map, ◌+◌, ◌<◌, ◌≤◌, length, IfSome};
ghost use Rattle.deck.specs.Accepted.{content};
ghost use Rattle.deck.specs.Deck.{Axiom, concept_count, axiom_count, axiom_at};
ghost use Rattle.deck.specs.Reads.{list_of, ListFits};
ghost use Rattle.eval.specs.Lists.{every, any};
ghost use Rattle.atoms.specs.Antecedent.{is_rule, holds_atoms};
ghost use Rattle.build.specs.Exists.{builds_at};
ghost use Rattle.model.specs.Triggers.{may_add, Needs, IsTrigger, word_of, Triggers, Steps, Next};

use atoms::antecedent::is_rule;
use atoms::labels::has_bit;
use atoms::lists::{member, operand};
use build::idle::goes_on;
use deck::Deck;
use deck::concepts::ConceptExpr;
use deck::numbers::{ClassId, ConceptId};
use deck::rows::Span;

// What an axiom's rules need: a class; nothing that is known; or they never add anything.
#[derive(Clone, Copy, PartialEq, Eq)]
pub enum Trigger {
    Needs(ClassId),
    Always,
    Never,
}

impl Trigger {
    // Its word in the table, where so many axioms after its own never add anything: the class, which is below 4,096; 4,096; or more by the number of axioms from its own on that never do.
    // A word, since the table is in fixed memory, and a `Trigger` would not tell how far to jump.
    fn word(self, never: u32) -> u32
        requires { never ≤ 16384 }
        ensures { result ≡ word_of self never }
    {
        match self {
            Trigger::Needs(class) => class.0,
            Trigger::Always => 4096,
            Trigger::Never => 4097 + never,
        }
    }
}

// Does an operand go further, of a list all below `owner`?
fn any_builds(deck: &Deck, owner: ConceptId, list: Span) -> bool
    requires owner_bound { owner.0 < concept_count (content deck.now) }
    requires list_fits { ListFits deck.now.bytes.now owner.0 list }
    ensures { result ≡ any (map (builds_at (content deck.now)) (list_of deck.now.bytes.now list)) }
{
    (0..list.count).any(|i| goes_on(deck, operand(deck, owner, list, i)))
}

// May the concept add something as a consequent? An And of atoms does not.
pub fn may_add(deck: &Deck, concept: ConceptId) -> bool
    requires concept_bound { concept.0 < concept_count (content deck.now) }
    ensures { result ≡ may_add (content deck.now) concept.0 }
{
    match deck.concept_at(concept) {
        ConceptExpr::And(list) => any_builds(deck, concept, list),
        _ => goes_on(deck, concept),
    }
}

// May a member add something?
fn any_adds(deck: &Deck, list: Span) -> bool
    requires list_fits { ListFits deck.now.bytes.now (concept_count (content deck.now)) list }
    ensures { result ≡ any (map (may_add (content deck.now)) (list_of deck.now.bytes.now list)) }
{
    (0..list.count).any(|i| may_add(deck, member(deck, list, i)))
}

// Is a member a rule's antecedent?
fn any_rule(deck: &Deck, list: Span) -> bool
    requires list_fits { ListFits deck.now.bytes.now (concept_count (content deck.now)) list }
    ensures { result ≡ any (map (is_rule (content deck.now)) (list_of deck.now.bytes.now list)) }
{
    (0..list.count).any(|i| is_rule(deck, member(deck, list, i)))
}

// The class that an atomic concept is.
fn atom_of(deck: &Deck, concept: ConceptId) -> Option<ClassId>
    requires concept_bound { concept.0 < concept_count (content deck.now) }
    ensures { IfSome result (Needs (content deck.now) (λ label. holds_atoms (content deck.now) label concept.0)) }
{
    match deck.concept_at(concept) {
        ConceptExpr::Atomic(class) => Some(class),
        _ => None,
    }
}

// The class of the first atomic operand.
fn first_atom(deck: &Deck, list: Span) -> Option<ClassId>
    requires list_fits { ListFits deck.now.bytes.now (concept_count (content deck.now)) list }
    ensures { IfSome result (Needs (content deck.now) (λ label. every (map (holds_atoms (content deck.now) label) (list_of deck.now.bytes.now list)))) }
{
    (0..list.count).find_map(|i| atom_of(deck, member(deck, list, i)))
}

// A class without which the antecedent does not hold, if one is known.
fn class_needed(deck: &Deck, concept: ConceptId) -> Option<ClassId>
    requires concept_bound { concept.0 < concept_count (content deck.now) }
    ensures { IfSome result (Needs (content deck.now) (λ label. holds_atoms (content deck.now) label concept.0)) }
{
    match deck.concept_at(concept) {
        ConceptExpr::And(list) => first_atom(deck, list),
        _ => atom_of(deck, concept),
    }
}

// The trigger of SubClassOf.
fn sub_class_trigger(deck: &Deck, sub: ConceptId, sup: ConceptId) -> Trigger
    requires sub_bound { sub.0 < concept_count (content deck.now) }
    requires sup_bound { sup.0 < concept_count (content deck.now) }
    ensures { IsTrigger (content deck.now) (Axiom.SubClassOf sub.0 sup.0) result }
{
    if !may_add(deck, sup) || !is_rule(deck, sub) {
        return Trigger::Never;
    }
    match class_needed(deck, sub) {
        Some(class) => Trigger::Needs(class),
        None => Trigger::Always,
    }
}

// The trigger of EquivalentClasses with two members: of SubClassOf both ways.
fn pair_trigger(deck: &Deck, a: ConceptId, b: ConceptId) -> Trigger
    requires a_bound { a.0 < concept_count (content deck.now) }
    requires b_bound { b.0 < concept_count (content deck.now) }
    ensures { IsTrigger (content deck.now) (Axiom.EquivalentClasses (a.0 ∷ b.0 ∷ [])) result }
{
    let forward = sub_class_trigger(deck, a, b);
    let backward = sub_class_trigger(deck, b, a);
    match (forward, backward) {
        (Trigger::Never, _) => backward,
        (_, Trigger::Never) => forward,
        (Trigger::Needs(j), Trigger::Needs(k)) if j == k => forward,
        _ => Trigger::Always,
    }
}

// The trigger of EquivalentClasses with any number of members.
fn members_trigger(deck: &Deck, list: Span) -> Trigger
    requires list_fits { ListFits deck.now.bytes.now (concept_count (content deck.now)) list }
    ensures { IsTrigger (content deck.now) (Axiom.EquivalentClasses (list_of deck.now.bytes.now list)) result }
{
    if any_adds(deck, list) && any_rule(deck, list) {
        return Trigger::Always;
    }
    Trigger::Never
}

// The trigger of EquivalentClasses.
fn equivalent_trigger(deck: &Deck, list: Span) -> Trigger
    requires list_fits { ListFits deck.now.bytes.now (concept_count (content deck.now)) list }
    ensures { IsTrigger (content deck.now) (Axiom.EquivalentClasses (list_of deck.now.bytes.now list)) result }
{
    if list.count == 2 {
        let a = member(deck, list, 0);
        let b = member(deck, list, 1);
        return pair_trigger(deck, a, b);
    }
    members_trigger(deck, list)
}

// An axiom's trigger.
fn trigger_of(deck: &Deck, axiom: u32) -> Trigger
    requires axiom_bound { «axiom» < axiom_count (content deck.now) }
    ensures { IsTrigger (content deck.now) (axiom_at (content deck.now) «axiom») result }
{
    let record = deck.axiom_at(axiom);
    let x = record.first;
    let y = record.second;
    // By the record's own tag, as `AxiomRecord` of deck says.
    match record.tag {
        0 => sub_class_trigger(deck, ConceptId(x), ConceptId(y)),
        1 => equivalent_trigger(deck, Span { start: x, count: y }),
        _ => Trigger::Never,
    }
}

// The table of all axioms, a word for each.
pub fn read_triggers<'t>(deck: &Deck, room: &'t mut [u32]) -> &'t [u32]
    requires { axiom_count (content deck.now) ≤ length room.old }
    ensures { Triggers (content deck.now) result.now 0 }
{
    let count = deck.axiom_count();
    let table = &mut room[..count as usize];
    let mut never = 0;
    for i in (0..count).rev() {
        let word = trigger_of(deck, i).word(never);
        table[i as usize] = word;
        never = word.saturating_sub(4096);
    }
    table
}

// The next axiom, from the first on, that may add something at an element of this label. No `for`: a word may pass over many.
pub fn next_axiom(label: &[u64], triggers: &[u32], first: u32) -> Option<u32>
    requires steps { Steps triggers.now label.now }
    requires few { length triggers.now ≤ 16384 }
    requires first_in_bounds { first ≤ length triggers.now }
    ensures { Next triggers.now label.now first result }
{
    let mut i = first;
    while let Some(&word) = triggers.get(i as usize) {
        if word < 4096 {
            if has_bit(label, word) {
                return Some(i);
            }
            i += 1;
            continue;
        }
        if word == 4096 {
            return Some(i);
        }
        i += word - 4096;
    }
    None
}
