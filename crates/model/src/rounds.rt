// Rounds of rules over the elements, until a round adds no element. What is asked of an element or of the table of triggers is said of the structure,
// which every step changes: a struct with an invariant would be made anew for each, and so these are parameters beside it.
ghost use Rattle.std.specs.Prelude.{◌≡◌, ◌&&◌, ◌<◌, ◌≤◌, [], length, get_or, is_err, IfOk};
ghost use Rattle.deck.specs.Deck.{Axiom, concept_count, axiom_at, axiom_count};
ghost use Rattle.deck.specs.Reads.{list_of, ListFits};
ghost use Rattle.eval.specs.Lent.{label_width};
ghost use Rattle.atoms.specs.Antecedent.{is_rule, holds_atoms};
ghost use Rattle.build.specs.Building.{Ready, Holds, deck_in, model_of, model_by};
ghost use Rattle.model.specs.Rounds as spec;
ghost use Rattle.model.specs.Triggers.{Triggers};
ghost use Rattle.model.specs.Still.{Stands};

use crate::still::Still;
use crate::triggers::{may_add, next_axiom, read_triggers};
use atoms::antecedent;
use atoms::lists::member;
use atoms::reasons::{Bound, Reason};
use atoms::visits::fill_sizes;
use build::building::{Build, Tripped};
use build::intern::row;
use deck::Deck;
use deck::numbers::{ConceptId, Element};
use deck::rows::Span;

// The label of element e, as wide as the label in the making: that is quicker to read than the number of the deck's classes.
#[inline(always)]
fn label_of<'b>(b: &'b Build<'_, '_>, e: Element) -> &'b [u64]
    requires ready { Ready b.now }
    requires e_lt_elements { e.0 < b.now.tally.elements }
    ensures is { result.now ≡ get_or (model_of b.now).labels e.0 [] }
    ensures wide { length result.now ≡ label_width (deck_in b.now) }
{
    row(b.labels, e.0, b.tally.elements, b.label.len())
}

// Does a rule with this antecedent fire at element e?
#[inline(always)]
fn fires(b: &Build<'_, '_>, ante: ConceptId, e: Element) -> bool
    requires ready { Ready b.now }
    requires ante_bound { ante.0 < concept_count (deck_in b.now) }
    requires e_lt_elements { e.0 < b.now.tally.elements }
    ensures { result ≡ (holds_atoms (deck_in b.now) (get_or (model_of b.now).labels e.0 []) ante.0 && is_rule (deck_in b.now) ante.0) }
{
    let deck = b.plan.deck;
    antecedent::fires(&deck, label_of(b, e), ante)
}

// A rule at element e.
fn fire(
    b: &mut Build<'_, '_>,
    sizes: &[u8],
    ante: ConceptId,
    sup: ConceptId,
    e: Element,
) -> Result<(), Tripped>
    requires ready { Ready b.old }
    requires ante_bound { ante.0 < concept_count (deck_in b.old) }
    requires sup_bound { sup.0 < concept_count (deck_in b.old) }
    requires e_lt_elements { e.0 < b.old.tally.elements }
    ensures { Holds b.old b.new (is_err result) (spec.fire (deck_in b.old) b.old.plan.floor.now b.old.plan.bounds e.0 ante.0 sup.0 (model_of b.old)) }
{
    if fires(b, ante, e) {
        return b.materialise_exists(sizes, sup, e);
    }
    Ok(())
}

// A pair of members of EquivalentClasses, where their concept numbers differ and the second may add something.
fn fire_pair(
    b: &mut Build<'_, '_>,
    sizes: &[u8],
    ante: ConceptId,
    sup: ConceptId,
    e: Element,
) -> Result<(), Tripped>
    requires ready { Ready b.old }
    requires ante_bound { ante.0 < concept_count (deck_in b.old) }
    requires sup_bound { sup.0 < concept_count (deck_in b.old) }
    requires e_lt_elements { e.0 < b.old.tally.elements }
    ensures { Holds b.old b.new (is_err result) (spec.fire_pair (deck_in b.old) b.old.plan.floor.now b.old.plan.bounds e.0 ante.0 sup.0 (model_of b.old)) }
{
    let deck = b.plan.deck;
    if ante == sup || !may_add(&deck, sup) {
        return Ok(());
    }
    fire(b, sizes, ante, sup, e)
}

// From one member to each.
fn fire_from(
    b: &mut Build<'_, '_>,
    sizes: &[u8],
    list: Span,
    ante: ConceptId,
    e: Element,
) -> Result<(), Tripped>
    requires ready { Ready b.old }
    requires list_fits { ListFits b.old.plan.deck.bytes.now (concept_count (deck_in b.old)) list }
    requires ante_bound { ante.0 < concept_count (deck_in b.old) }
    requires e_lt_elements { e.0 < b.old.tally.elements }
    ensures { Holds b.old b.new (is_err result) (spec.fire_from (deck_in b.old) b.old.plan.floor.now b.old.plan.bounds e.0 (list_of b.old.plan.deck.bytes.now list) ante.0 (model_of b.old)) }
{
    let deck = b.plan.deck;
    for i in 0..list.count {
        fire_pair(b, sizes, ante, member(&deck, list, i), e)?;
    }
    Ok(())
}

// From one member to each, where it fires at all and may change something; what is known of the members after it.
fn fire_member(
    b: &mut Build<'_, '_>,
    sizes: &[u8],
    list: Span,
    ante: ConceptId,
    e: Element,
    still: Still,
) -> Result<Still, Tripped>
    requires ready { Ready b.old }
    requires list_fits { ListFits b.old.plan.deck.bytes.now (concept_count (deck_in b.old)) list }
    requires ante_bound { ante.0 < concept_count (deck_in b.old) }
    requires e_lt_elements { e.0 < b.old.tally.elements }
    requires stands { Stands (deck_in b.old) b.old.plan.floor.now b.old.plan.bounds e.0 (list_of b.old.plan.deck.bytes.now list) still (model_of b.old) }
    ensures holds { Holds b.old b.new (is_err result) (spec.fire_from (deck_in b.old) b.old.plan.floor.now b.old.plan.bounds e.0 (list_of b.old.plan.deck.bytes.now list) ante.0 (model_of b.old)) }
    ensures stands { IfOk result (λ still. Stands (deck_in b.old) b.old.plan.floor.now b.old.plan.bounds e.0 (list_of b.old.plan.deck.bytes.now list) still (model_by b.old b.new)) }
{
    if still.passes(ante) || !fires(b, ante, e) {
        return Ok(still);
    }
    let held = b.tally;
    fire_from(b, sizes, list, ante, e)?;
    Ok(still.after(ante, held == b.tally))
}

// From each member to each, until none would change anything.
fn fire_equivalent(
    b: &mut Build<'_, '_>,
    sizes: &[u8],
    list: Span,
    e: Element,
) -> Result<(), Tripped>
    requires ready { Ready b.old }
    requires list_fits { ListFits b.old.plan.deck.bytes.now (concept_count (deck_in b.old)) list }
    requires e_lt_elements { e.0 < b.old.tally.elements }
    ensures { Holds b.old b.new (is_err result) (spec.fire_axiom (deck_in b.old) b.old.plan.floor.now b.old.plan.bounds e.0 (Axiom.EquivalentClasses (list_of b.old.plan.deck.bytes.now list)) (model_of b.old)) }
{
    let deck = b.plan.deck;
    let mut still = Still::Unknown;
    for i in 0..list.count {
        still = fire_member(b, sizes, list, member(&deck, list, i), e, still)?;
    }
    Ok(())
}

// An axiom's rules at element e.
fn fire_axiom(b: &mut Build<'_, '_>, sizes: &[u8], axiom: u32, e: Element) -> Result<(), Tripped>
    requires ready { Ready b.old }
    requires axiom_bound { «axiom» < axiom_count (deck_in b.old) }
    requires e_lt_elements { e.0 < b.old.tally.elements }
    ensures { Holds b.old b.new (is_err result) (spec.fire_axiom (deck_in b.old) b.old.plan.floor.now b.old.plan.bounds e.0 (axiom_at (deck_in b.old) «axiom») (model_of b.old)) }
{
    let deck = b.plan.deck;
    let record = deck.axiom_at(axiom);
    let x = record.first;
    let y = record.second;
    // By the record's own tag, as `AxiomRecord` of deck says.
    match record.tag {
        0 => fire(b, sizes, ConceptId(x), ConceptId(y), e),
        1 => fire_equivalent(b, sizes, Span { start: x, count: y }, e),
        _ => Ok(()),
    }
}

// All rules at element e: from one axiom that may add something to the next. No `for`: the table jumps, by a label that no iterator can hold while what fires has all of b.
fn visit(b: &mut Build<'_, '_>, triggers: &[u32], sizes: &[u8], e: Element) -> Result<(), Tripped>
    requires ready { Ready b.old }
    requires triggers { Triggers (deck_in b.old) triggers.now 0 }
    requires e_lt_elements { e.0 < b.old.tally.elements }
    ensures { Holds b.old b.new (is_err result) (spec.visit (deck_in b.old) b.old.plan.floor.now b.old.plan.bounds e.0 (model_of b.old)) }
{
    let mut first = 0;
    while let Some(axiom) = next_axiom(label_of(b, e), triggers, first) {
        fire_axiom(b, sizes, axiom, e)?;
        first = axiom + 1;
    }
    Ok(())
}

// Every element that is present when the round begins.
fn round(b: &mut Build<'_, '_>, triggers: &[u32], sizes: &[u8]) -> Result<(), Tripped>
    requires ready { Ready b.old }
    requires triggers { Triggers (deck_in b.old) triggers.now 0 }
    ensures { Holds b.old b.new (is_err result) (spec.round (deck_in b.old) b.old.plan.floor.now b.old.plan.bounds (model_of b.old)) }
{
    for i in 0..b.tally.elements {
        visit(b, triggers, sizes, Element(i))?;
    }
    Ok(())
}

// The rounds, with the table of triggers: a first one, whatever their bound.
fn rounds_by(b: &mut Build<'_, '_>, triggers: &[u32], sizes: &[u8]) -> Result<(), Tripped>
    requires ready { Ready b.old }
    requires triggers { Triggers (deck_in b.old) triggers.now 0 }
    ensures { Holds b.old b.new (is_err result) (spec.expand_from_axioms (deck_in b.old) b.old.plan.floor.now b.old.plan.bounds (model_of b.old)) }
{
    let limit = b.plan.bounds.max_rounds;
    for _ in 0..limit.max(1) {
        let count = b.tally.elements;
        round(b, triggers, sizes)?;
        if b.tally.elements == count {
            return Ok(());
        }
    }
    b.note(Reason::bound_tripped(Bound::Rounds, limit));
    Err(Tripped)
}

// The rounds of up to N axioms: the room of their table is made in a frame of its own.
#[inline(never)]
fn rounds_of<const N: usize>(b: &mut Build<'_, '_>, sizes: &[u8]) -> Result<(), Tripped>
    requires words { N ≤ 16384 }
    requires ready { Ready b.old }
    requires deck_bound { axiom_count (deck_in b.old) ≤ N }
    ensures { Holds b.old b.new (is_err result) (spec.expand_from_axioms (deck_in b.old) b.old.plan.floor.now b.old.plan.bounds (model_of b.old)) }
{
    let mut table: [u32; N] = [0; N];
    let deck = b.plan.deck;
    rounds_by(b, read_triggers(&deck, &mut table), sizes)
}

// Rounds with a table of sizes, as far as it reaches. A table of few triggers costs little to clear.
fn rounds_with(b: &mut Build<'_, '_>, sizes: &[u8]) -> Result<(), Tripped>
    requires { Ready b.old }
    ensures { Holds b.old b.new (is_err result) (spec.expand_from_axioms (deck_in b.old) b.old.plan.floor.now b.old.plan.bounds (model_of b.old)) }
{
    let deck = b.plan.deck;
    if deck.axiom_count() <= 512 {
        return rounds_of::<512>(b, sizes);
    }
    rounds_of::<16384>(b, sizes)
}

// Rounds with the sizes of the first N concepts.
#[inline(never)]
fn rounds_sized<const N: usize>(b: &mut Build<'_, '_>) -> Result<(), Tripped>
    requires words { N ≤ 16384 }
    requires ready { Ready b.old }
    ensures { Holds b.old b.new (is_err result) (spec.expand_from_axioms (deck_in b.old) b.old.plan.floor.now b.old.plan.bounds (model_of b.old)) }
{
    let mut sizes: [u8; N] = [0; N];
    let deck = b.plan.deck;
    fill_sizes(&deck, &mut sizes);
    rounds_with(b, &sizes)
}

// Is the table of sizes worth its making: are there eight and more pairs of an element and an axiom for each concept?
fn is_worth(deck: &Deck, elements: u32) -> bool {
    if elements == 0 {
        return false;
    }
    (8 * deck.concept_count() + 4096) / elements < deck.axiom_count()
}

// Rounds until one adds no element or trips a bound.
pub fn expand_from_axioms(b: &mut Build<'_, '_>) -> Result<(), Tripped>
    requires { Ready b.old }
    ensures { Holds b.old b.new (is_err result) (spec.expand_from_axioms (deck_in b.old) b.old.plan.floor.now b.old.plan.bounds (model_of b.old)) }
{
    let deck = b.plan.deck;
    if is_worth(&deck, b.tally.elements) {
        return rounds_sized::<16384>(b);
    }
    rounds_sized::<1>(b)
}
