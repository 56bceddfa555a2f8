// The rules of closing, each read from its axiom.
ghost use Rattle.std.specs.Prelude.{◌≡◌, map, ◌<◌};
ghost use Rattle.deck.specs.Content.{deck_of};
ghost use Rattle.deck.specs.Deck.{axiom_at, axiom_count, role_of};
ghost use Rattle.deck.specs.Reads.{list_of, Within};
ghost use Rattle.model.specs.Rules.{links, chain_rule, rule_of};

use deck::Deck;
use deck::numbers::{RoleId, RoleWord};
use deck::rows::Span;

// An edge of the first role and then one of the second make one of the third.
// That they are roles of the deck is asked for (`RuleFits`), as a rule does not hold the deck.
#[derive(Clone, Copy)]
pub struct Rule {
    pub first: RoleId,
    pub second: RoleId,
    pub third: RoleId,
}

// The rule of a then b makes v, if no word is inverse.
fn link_rule(a: RoleWord, b: RoleWord, v: RoleWord) -> Option<Rule>
    ensures { result ≡ links (role_of a.0) (role_of b.0) (role_of v.0) }
{
    if a.is_inverse() || b.is_inverse() || v.is_inverse() {
        return None;
    }
    Some(Rule {
        first: a.role_id(),
        second: b.role_id(),
        third: v.role_id(),
    })
}

// The rule of a chain, if it has two links.
fn chain_rule(deck: &Deck<'_>, list: Span, v: RoleWord) -> Option<Rule>
    requires within { Within deck.now.bytes.now list }
    ensures { result ≡ chain_rule (map role_of (list_of deck.now.bytes.now list)) (role_of v.0) }
{
    if list.count != 2 {
        return None;
    }
    let a = RoleWord(deck.item(list, 0));
    let b = RoleWord(deck.item(list, 1));
    link_rule(a, b, v)
}

// The rule of an axiom, if it has one.
pub fn rule_at(deck: &Deck<'_>, axiom: u32) -> Option<Rule>
    requires axiom_bound { «axiom» < axiom_count (deck_of deck.now.bytes.now) }
    ensures { result ≡ rule_of (axiom_at (deck_of deck.now.bytes.now) «axiom») }
{
    let record = deck.axiom_at(axiom);
    let x = record.first;
    let y = record.second;
    let z = record.third;
    // By the record's own tag, as `AxiomRecord` of deck says.
    match record.tag {
        5 => chain_rule(deck, Span { start: x, count: y }, RoleWord(z)),
        11 => link_rule(RoleWord(x), RoleWord(x), RoleWord(x)),
        _ => None,
    }
}
