// Axioms about roles: each is left open where a role word is inverse, else checked over the edges.
ghost use Rattle.std.specs.Prelude.{◌≡◌, map, [], ◌∷◌, ◌*◌, ◌<◌};
ghost use Rattle.deck.specs.Deck.{role_count, role_of, Axiom};
ghost use Rattle.deck.specs.Reads.{list_of, ListFits};
ghost use Rattle.eval.specs.Demand.{demand_at, blame, DemandFits};
ghost use Rattle.eval.specs.InLent.{deck_in, structure, Remembered};
ghost use Rattle.eval.specs.Verdict.{at_pairs, links, unless_inverse, verdict};

use crate::demand::Demand;
use crate::lent::Judging;
use crate::verdict::{Unhandled, Verdict, holds};
use deck::numbers::RoleWord;
use deck::rows::Span;

impl Judging<'_> {
    // Each edge of sub is one of sup.
    pub fn check_sub_property(&self, memo: &mut [u16], sub: RoleWord, sup: RoleWord) -> Verdict
        requires remembered { Remembered self.now.lent memo.old }
        requires sub_bound { sub.0 < 2 * role_count (deck_in self.now.lent) }
        requires sup_bound { sup.0 < 2 * role_count (deck_in self.now.lent) }
        ensures is { result ≡ verdict (deck_in self.now.lent) (structure self.now.lent) (Axiom.SubObjectPropertyOf (role_of sub.0) (role_of sup.0)) }
        ensures kept { Remembered self.now.lent memo.new }
    {
        if sub.is_inverse() {
            return Verdict::UnhandledAxiom(4, Unhandled::Inverse);
        }
        if sup.is_inverse() {
            return Verdict::UnhandledAxiom(4, Unhandled::Inverse);
        }
        self.check_pairs(memo, sub, Demand::Within(sup))
    }

    // The from, or the to, of each edge is in the concept: an axiom with this tag.
    pub fn check_ends(&self, memo: &mut [u16], tag: u32, role: RoleWord, demand: Demand) -> Verdict
        requires remembered { Remembered self.now.lent memo.old }
        requires role_bound { role.0 < 2 * role_count (deck_in self.now.lent) }
        requires demand_fits { DemandFits (deck_in self.now.lent) demand }
        ensures is { result ≡ unless_inverse tag (role_of role.0 ∷ []) (at_pairs (deck_in self.now.lent) (structure self.now.lent) (role_of role.0) (demand_at (deck_in self.now.lent) (structure self.now.lent) demand) (blame demand)) }
        ensures kept { Remembered self.now.lent memo.new }
    {
        if role.is_inverse() {
            return Verdict::UnhandledAxiom(tag, Unhandled::Inverse);
        }
        self.check_pairs(memo, role, demand)
    }

    // Two edges, one after the other, make an edge.
    pub fn check_transitive(&self, role: RoleWord) -> Verdict
        requires role_bound { role.0 < 2 * role_count (deck_in self.now.lent) }
        ensures { result ≡ verdict (deck_in self.now.lent) (structure self.now.lent) (Axiom.TransitiveRole (role_of role.0)) }
    {
        if role.is_inverse() {
            return Verdict::UnhandledAxiom(11, Unhandled::Inverse);
        }
        let r = role.role_id();
        self.check_composed(r, r, r)
    }

    // The role is to have no edges.
    pub fn check_symmetric(&self, role: RoleWord) -> Verdict
        requires role_bound { role.0 < 2 * role_count (deck_in self.now.lent) }
        ensures { result ≡ verdict (deck_in self.now.lent) (structure self.now.lent) (Axiom.SymmetricRole (role_of role.0)) }
    {
        if role.is_inverse() {
            return Verdict::UnhandledAxiom(12, Unhandled::Inverse);
        }
        self.lent.check_guarded(role.role_id())
    }

    // Both roles are to have no edges.
    pub fn check_inverse_properties(&self, p: RoleWord, q: RoleWord) -> Verdict
        requires p_bound { p.0 < 2 * role_count (deck_in self.now.lent) }
        requires q_bound { q.0 < 2 * role_count (deck_in self.now.lent) }
        ensures { result ≡ verdict (deck_in self.now.lent) (structure self.now.lent) (Axiom.InverseObjectProperties (role_of p.0) (role_of q.0)) }
    {
        if p.is_inverse() {
            return Verdict::UnhandledAxiom(8, Unhandled::Inverse);
        }
        if q.is_inverse() {
            return Verdict::UnhandledAxiom(8, Unhandled::Inverse);
        }
        let first = self.lent.check_guarded(p.role_id());
        if !holds(first) {
            return first;
        }
        self.lent.check_guarded(q.role_id())
    }

    // A chain a, b of named roles makes an edge of sup.
    fn check_links(&self, a: RoleWord, b: RoleWord, sup: RoleWord) -> Verdict
        requires a_bound { a.0 < 2 * role_count (deck_in self.now.lent) }
        requires b_bound { b.0 < 2 * role_count (deck_in self.now.lent) }
        requires sup_bound { sup.0 < 2 * role_count (deck_in self.now.lent) }
        ensures { result ≡ links (deck_in self.now.lent) (structure self.now.lent) (role_of a.0) (role_of b.0) (role_of sup.0) }
    {
        if a.is_inverse() {
            return Verdict::UnhandledAxiom(5, Unhandled::Inverse);
        }
        if b.is_inverse() {
            return Verdict::UnhandledAxiom(5, Unhandled::Inverse);
        }
        if sup.is_inverse() {
            return Verdict::UnhandledAxiom(5, Unhandled::Inverse);
        }
        self.check_composed(a.role_id(), b.role_id(), sup.role_id())
    }

    // A chain of two links makes an edge of sup; other lengths are left open, tested before inverse words.
    pub fn check_chain(&self, list: Span, sup: RoleWord) -> Verdict
        requires list_fits { ListFits self.now.lent.deck.bytes.now (2 * role_count (deck_in self.now.lent)) list }
        requires sup_bound { sup.0 < 2 * role_count (deck_in self.now.lent) }
        ensures { result ≡ verdict (deck_in self.now.lent) (structure self.now.lent) (Axiom.SubObjectPropertyChain (map role_of (list_of self.now.lent.deck.bytes.now list)) (role_of sup.0)) }
    {
        if list.count != 2 {
            return Verdict::UnhandledAxiom(5, Unhandled::ChainLength);
        }
        let a = RoleWord(self.lent.deck.item(list, 0));
        let b = RoleWord(self.lent.deck.item(list, 1));
        self.check_links(a, b, sup)
    }
}
