// Equivalent roles: the first member held against each, and each against the first.
ghost use Rattle.std.specs.Prelude.{◌≡◌, false, map, ◌*◌, ◌<◌};
ghost use Rattle.deck.specs.Deck.{role_count, role_of, Axiom};
ghost use Rattle.deck.specs.Reads.{list_of, ListFits};
ghost use Rattle.eval.specs.InLent.{deck_in, structure, Remembered};
ghost use Rattle.eval.specs.Structure.{any_inverse};
ghost use Rattle.eval.specs.Verdict.{across_by, in_turn, verdict, equivalent};

use crate::demand::Demand;
use crate::lent::{Judging, Lent};
use crate::verdict::{Unhandled, Verdict, holds};
use deck::numbers::RoleWord;
use deck::rows::Span;

impl Lent<'_> {
    // Is one of the role words inverse?
    fn any_inverse(&self, list: Span) -> bool
        requires list_fits { ListFits self.now.deck.bytes.now (2 * role_count (deck_in self.now)) list }
        ensures { result ≡ any_inverse (map role_of (list_of self.now.deck.bytes.now list)) }
    {
        for i in 0..list.count {
            let member = RoleWord(self.deck.item(list, i));
            if member.is_inverse() {
                return true;
            }
        }
        false
    }
}

impl Judging<'_> {
    // The pairs of a in b, or, `turned`, those of b in a; a role is not held against itself.
    // `turned` stays a bool: it only says which of the two roles is held against the other, and an enum would say no more.
    fn check_across(&self, memo: &mut [u16], a: RoleWord, b: RoleWord, turned: bool) -> Verdict
        requires remembered { Remembered self.now.lent memo.old }
        requires a_bound { a.0 < 2 * role_count (deck_in self.now.lent) }
        requires b_bound { b.0 < 2 * role_count (deck_in self.now.lent) }
        ensures is { result ≡ across_by turned (deck_in self.now.lent) (structure self.now.lent) (role_of a.0) (role_of b.0) }
        ensures kept { Remembered self.now.lent memo.new }
    {
        if a.role_id() == b.role_id() {
            return Verdict::Holds;
        }
        if turned {
            self.check_pairs(memo, b, Demand::Within(a))
        } else {
            self.check_pairs(memo, a, Demand::Within(b))
        }
    }

    // The pairs of a in each member of the list, or, `turned`, those of each in a.
    fn check_against(&self, memo: &mut [u16], a: RoleWord, list: Span, turned: bool) -> Verdict
        requires remembered { Remembered self.now.lent memo.old }
        requires a_bound { a.0 < 2 * role_count (deck_in self.now.lent) }
        requires list_fits { ListFits self.now.lent.deck.bytes.now (2 * role_count (deck_in self.now.lent)) list }
        ensures is { result ≡ in_turn (map (across_by turned (deck_in self.now.lent) (structure self.now.lent) (role_of a.0)) (map role_of (list_of self.now.lent.deck.bytes.now list))) }
        ensures kept { Remembered self.now.lent memo.new }
    {
        for i in 0..list.count {
            let b = RoleWord(self.lent.deck.item(list, i));
            let v = self.check_across(memo, a, b, turned);
            if !holds(v) {
                return v;
            }
        }
        Verdict::Holds
    }

    // The pairs of the first member in each, then those of each in the first. Inclusion is transitive: no other two can fail.
    fn check_members(&self, memo: &mut [u16], list: Span) -> Verdict
        requires remembered { Remembered self.now.lent memo.old }
        requires list_fits { ListFits self.now.lent.deck.bytes.now (2 * role_count (deck_in self.now.lent)) list }
        requires list_value { any_inverse (map role_of (list_of self.now.lent.deck.bytes.now list)) ≡ false }
        ensures is { result ≡ equivalent (deck_in self.now.lent) (structure self.now.lent) (map role_of (list_of self.now.lent.deck.bytes.now list)) }
        ensures kept { Remembered self.now.lent memo.new }
    {
        if list.count == 0 {
            return Verdict::Holds;
        }
        let first = RoleWord(self.lent.deck.item(list, 0));
        let v = self.check_against(memo, first, list, false);
        if !holds(v) {
            return v;
        }
        self.check_against(memo, first, list, true)
    }

    // The members have the same edges.
    pub fn check_equivalent_properties(&self, memo: &mut [u16], list: Span) -> Verdict
        requires remembered { Remembered self.now.lent memo.old }
        requires list_fits { ListFits self.now.lent.deck.bytes.now (2 * role_count (deck_in self.now.lent)) list }
        ensures is { result ≡ verdict (deck_in self.now.lent) (structure self.now.lent) (Axiom.EquivalentObjectProperties (map role_of (list_of self.now.lent.deck.bytes.now list))) }
        ensures kept { Remembered self.now.lent memo.new }
    {
        if self.lent.any_inverse(list) {
            return Verdict::UnhandledAxiom(6, Unhandled::Inverse);
        }
        self.check_members(memo, list)
    }
}
