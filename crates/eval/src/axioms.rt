// Checking an axiom, by its tag. Document 01 has it so, with these ranges.
ghost use Rattle.std.specs.Prelude.{◌≡◌, ◌<◌, ◌≤◌};
ghost use Rattle.deck.specs.Content.{axiom_of};
ghost use Rattle.deck.specs.Deck.{axiom_count, axiom_at, concept_count};
ghost use Rattle.deck.specs.Reads.{FormFits};
ghost use Rattle.deck.specs.Records.{axiom_form};
ghost use Rattle.eval.specs.InLent.{deck_in, structure, Remembered};
ghost use Rattle.eval.specs.Justified.{Justified};
ghost use Rattle.eval.specs.Verdict.{verdict};

use crate::demand::Demand;
use crate::lent::Judging;
use crate::verdict::{Unhandled, Verdict};
use crate::votes::Relation;
use deck::axioms::AxiomRecord;
use deck::numbers::{ConceptId, RoleWord};
use deck::rows::Span;

impl Judging<'_> {
    // Is the class axiom satisfied, SubClassOf, EquivalentClasses or DisjointClasses? DisjointUnion is left open.
    fn check_class_axiom(&self, memo: &mut [u16], record: AxiomRecord) -> Verdict
        requires remembered { Remembered self.now.lent memo.old }
        requires form_fits { FormFits self.now.lent.deck.bytes.now (concept_count (deck_in self.now.lent)) (axiom_form «record».tag) «record».first «record».second «record».third }
        requires record_bound { «record».tag < 4 }
        ensures is { result ≡ verdict (deck_in self.now.lent) (structure self.now.lent) (axiom_of self.now.lent.deck.bytes.now «record».tag «record».first «record».second «record».third) }
        ensures kept { Remembered self.now.lent memo.new }
    {
        let tag = record.tag;
        let x = record.first;
        let y = record.second;
        let members = Span { start: x, count: y };
        match tag {
            0 => self.check_sub_class_of(memo, ConceptId(x), ConceptId(y)),
            1 => self.check_classes(memo, Relation::Equivalent, members),
            2 => self.check_classes(memo, Relation::Disjoint, members),
            _ => Verdict::UnhandledAxiom(3, Unhandled::Variety),
        }
    }

    // Is the role axiom satisfied, from SubObjectPropertyOf to SymmetricRole? DisjointObjectProperties is left open.
    fn check_role_axiom(&self, memo: &mut [u16], record: AxiomRecord) -> Verdict
        requires remembered { Remembered self.now.lent memo.old }
        requires form_fits { FormFits self.now.lent.deck.bytes.now (concept_count (deck_in self.now.lent)) (axiom_form «record».tag) «record».first «record».second «record».third }
        requires bound { 4 ≤ «record».tag }
        requires record_bound { «record».tag < 13 }
        ensures is { result ≡ verdict (deck_in self.now.lent) (structure self.now.lent) (axiom_of self.now.lent.deck.bytes.now «record».tag «record».first «record».second «record».third) }
        ensures kept { Remembered self.now.lent memo.new }
    {
        let tag = record.tag;
        let x = record.first;
        let y = record.second;
        let z = record.third;
        let role = RoleWord(x);
        let members = Span { start: x, count: y };
        match tag {
            4 => self.check_sub_property(memo, role, RoleWord(y)),
            5 => self.check_chain(members, RoleWord(z)),
            6 => self.check_equivalent_properties(memo, members),
            8 => self.check_inverse_properties(role, RoleWord(y)),
            9 => self.check_ends(memo, 9, role, Demand::Domain(ConceptId(y))),
            10 => self.check_ends(memo, 10, role, Demand::Range(ConceptId(y))),
            11 => self.check_transitive(role),
            12 => self.check_symmetric(role),
            _ => Verdict::UnhandledAxiom(7, Unhandled::Variety),
        }
    }

    // Is the axiom satisfied?
    pub fn check_axiom(&self, memo: &mut [u16], axiom: u32) -> Verdict
        requires remembered { Remembered self.now.lent memo.old }
        requires axiom_bound { «axiom» < axiom_count (deck_in self.now.lent) }
        ensures is { result ≡ verdict (deck_in self.now.lent) (structure self.now.lent) (axiom_at (deck_in self.now.lent) «axiom») }
        ensures justified { Justified (deck_in self.now.lent) (structure self.now.lent) (axiom_at (deck_in self.now.lent) «axiom») result }
        ensures kept { Remembered self.now.lent memo.new }
    {
        let record = self.lent.deck.axiom_at(axiom);
        let tag = record.tag;
        match tag {
            0..=3 => self.check_class_axiom(memo, record),
            4..=12 => self.check_role_axiom(memo, record),
            13..=17 => Verdict::UnhandledAxiom(tag, Unhandled::Variety),
            18..=22 => Verdict::UnhandledAxiom(tag, Unhandled::Variety),
            23..=25 => Verdict::Holds,
            _ => Verdict::UnhandledAxiom(tag, Unhandled::Variety),
        }
    }
}
