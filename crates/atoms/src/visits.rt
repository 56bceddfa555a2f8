// How large a concept is to walk: estimates, on which no answer depends. What is left of them is a number, and 0 is none left: no Option is
// plainer, as every step takes one away.
ghost use Rattle.std.specs.Prelude.{◌<◌, ◌≤◌, length};
ghost use Rattle.deck.specs.Accepted.{content};
ghost use Rattle.deck.specs.Deck.{concept_count};
ghost use Rattle.deck.specs.Reads.{ListFits};

use crate::lists::operand;
use deck::Deck;
use deck::concepts::ConceptExpr;
use deck::numbers::ConceptId;
use deck::rows::Span;

// Does a walk end at the concept: no And, and where `deep` no Some?
fn is_end(deck: &Deck, concept: ConceptId, deep: bool) -> bool
    requires concept_bound { concept.0 < concept_count (content deck.now) }
{
    let expr = deck.concept_at(concept);
    match expr {
        ConceptExpr::And(_) => false,
        ConceptExpr::Some(_, _) => !deep,
        _ => true,
    }
}

// What is left of `left` visits after a walk of the concept through its Ands, and where `deep` through the bodies of its Somes with a named role. A concept met twice is walked twice; where nothing is left, 0, the walk stops.
#[cycle(visits_visits_all)]
pub fn visits(deck: &Deck, concept: ConceptId, deep: bool, left: u32) -> u32
    requires concept_bound { concept.0 < concept_count (content deck.now) }
    ensures { result ≤ left }
{
    if left == 0 {
        return 0;
    }
    let rest = left - 1;
    let expr = deck.concept_at(concept);
    match expr {
        ConceptExpr::And(list) => visits_all(deck, concept, list, deep, rest),
        ConceptExpr::Some(w, body) => {
            if !deep {
                return rest;
            }
            if w.is_inverse() {
                return rest;
            }
            visits(deck, body, deep, rest)
        }
        _ => rest,
    }
}

// The same of each concept of the list, all below `owner`.
#[cycle(visits_visits_all)]
fn visits_all(deck: &Deck, owner: ConceptId, list: Span, deep: bool, left: u32) -> u32
    requires owner_bound { owner.0 < concept_count (content deck.now) }
    requires list_fits { ListFits deck.now.bytes.now owner.0 list }
    ensures { result ≤ left }
{
    let mut rest = left;
    for i in 0..list.count {
        if rest == 0 {
            return 0;
        }
        let o = operand(deck, owner, list, i);
        if is_end(deck, o, deep) {
            rest -= 1;
            continue;
        }
        rest = visits(deck, o, deep, rest);
    }
    rest
}

// The size of an And of the list, all below `owner`, whose sizes the table has.
// Beside `sum_entries`: it sums bytes, and as an estimate promises nothing.
fn size_of_and(deck: &Deck, sizes: &[u8], owner: ConceptId, list: Span) -> u8
    requires list_fits { ListFits deck.now.bytes.now owner.0 list }
    requires owner_in_bounds { owner.0 ≤ length sizes.now }
{
    let mut size: u8 = 1;
    for i in 0..list.count {
        size = size.saturating_add(sizes[operand(deck, owner, list, i).0 as usize]);
        // No more of the list is read than it takes to know.
        if size == 255 {
            return size;
        }
    }
    size
}

// How many concepts a walk of the concept meets, through Ands and the bodies of Somes with a named role, by the sizes of those below it. 255 stands for more too.
fn size_of(deck: &Deck, sizes: &[u8], concept: ConceptId) -> u8
    requires concept_bound { concept.0 < concept_count (content deck.now) }
    requires concept_in_bounds { concept.0 ≤ length sizes.now }
{
    let expr = deck.concept_at(concept);
    match expr {
        ConceptExpr::And(list) => size_of_and(deck, sizes, concept, list),
        ConceptExpr::Some(w, body) => {
            if w.is_inverse() {
                return 1;
            }
            sizes[body.0 as usize].saturating_add(1)
        }
        _ => 1,
    }
}

// The table of sizes, as far as it reaches.
pub fn fill_sizes(deck: &Deck, sizes: &mut [u8]) {
    for k in 0..deck.concept_count() {
        if sizes.len() <= k as usize {
            return;
        }
        sizes[k as usize] = size_of(deck, sizes, ConceptId(k));
    }
}

// Is a walk of the concept short? By the table as far as it reaches, and else by the walk itself.
pub fn is_short(deck: &Deck, sizes: &[u8], concept: ConceptId) -> bool
    requires concept_bound { concept.0 < concept_count (content deck.now) }
{
    let k = concept.0 as usize;
    if k < sizes.len() {
        return sizes[k] < 255;
    }
    0 < visits(deck, concept, true, 255)
}
