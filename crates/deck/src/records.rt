// The tests 12, 13, 14, 6 and 7 of a record of each part, and of all records in part order.
ghost use Rattle.std.specs.Prelude.{◌≡◌, true, false, ◌<◌};
ghost use Rattle.deck.specs.Answer.{first_refusal, unless};
ghost use Rattle.deck.specs.Trailer.{part_count};
ghost use Rattle.deck.specs.Records.{class_shape, class_order, class_answer, role_shape, role_order, role_answer};
ghost use Rattle.deck.specs.Records.{injected_order, injected_answer, concept_shape, concept_answer, axiom_answer, fact_answer};
ghost use Rattle.deck.specs.Records.{record_answer, part_answer};
ghost use Rattle.deck.specs.declared.refusal.Refusal.TheVariants.{BadOrder};

use crate::forms::{CLASS_FORM, Draft, FACT_FORM, INJECTED_FORM, axiom_form, concept_form};
use crate::parts::Parts;
use crate::refusal::Refusal;

// Refused with BadOrder, unless the order is kept.
fn in_order(kept: bool) -> Result<(), Refusal>
    ensures { result ≡ unless kept BadOrder (Ok tt) }
{
    if kept { Ok(()) } else { Err(Refusal::BadOrder) }
}

impl Parts<'_> {
    // A satisfiable class is in its own row, which rises.
    fn class_order(&self, k: usize) -> bool
        requires k_bound { k < part_count self.now.bytes.now 0 }
        requires k_value { class_shape self.now.bytes.now k ≡ true }
        ensures { result ≡ class_order self.now.bytes.now k }
    {
        let start = self.part_word(0, k, 1) as usize;
        let count = self.part_word(0, k, 2) as usize;
        if !self.row_rises(start, count) {
            return false;
        }
        if self.part_word(0, k, 0) == 1 {
            return true;
        }
        self.find(start, count, k)
    }

    // Both rows of a role lie within lists, and their words are roles and classes.
    fn role_shape(&self, k: usize) -> bool
        requires { k < part_count self.now.bytes.now 1 }
        ensures { result ≡ role_shape self.now.bytes.now k }
    {
        if !self.row_shape(
            self.part_word(1, k, 0),
            self.part_word(1, k, 1),
            self.count(1),
        ) {
            return false;
        }
        self.row_shape(
            self.part_word(1, k, 2),
            self.part_word(1, k, 3),
            self.count(0),
        )
    }

    // Both rows rise, and the role is in its own sub-role row.
    fn role_order(&self, k: usize) -> bool
        requires k_bound { k < part_count self.now.bytes.now 1 }
        requires k_value { role_shape self.now.bytes.now k ≡ true }
        ensures { result ≡ role_order self.now.bytes.now k }
    {
        let start = self.part_word(1, k, 0) as usize;
        let count = self.part_word(1, k, 1) as usize;
        if !self.row_rises(start, count) {
            return false;
        }
        if !self.row_rises(
            self.part_word(1, k, 2) as usize,
            self.part_word(1, k, 3) as usize,
        ) {
            return false;
        }
        self.find(start, count, k)
    }

    // The class and the role are above those of the record before. By hand: the second words are read only where the first are alike.
    fn injected_order(&self, k: usize) -> bool
        requires { k < part_count self.now.bytes.now 2 }
        ensures { result ≡ injected_order self.now.bytes.now k }
    {
        if k == 0 {
            return true;
        }
        let before = self.part_word(2, k - 1, 0);
        let class = self.part_word(2, k, 0);
        if before < class {
            return true;
        }
        if before != class {
            return false;
        }
        self.part_word(2, k - 1, 1) < self.part_word(2, k, 1)
    }
}

impl Draft<'_> {
    fn class_answer(&self, k: usize) -> Result<(), Refusal>
        requires { k < part_count self.now.parts.bytes.now 0 }
        ensures { result ≡ class_answer self.now.parts.bytes.now k }
    {
        if !self.form_fits(0, k, 0, 0, CLASS_FORM) {
            return self.record_fault(0, k);
        }
        in_order(self.parts.class_order(k))
    }

    fn role_answer(&self, k: usize) -> Result<(), Refusal>
        requires { k < part_count self.now.parts.bytes.now 1 }
        ensures { result ≡ role_answer self.now.parts.bytes.now k }
    {
        if !self.parts.role_shape(k) {
            return self.record_fault(1, k);
        }
        in_order(self.parts.role_order(k))
    }

    // Like that of a class: a function of both would take the form and the order as parameters, and be longer than either.
    fn injected_answer(&self, k: usize) -> Result<(), Refusal>
        requires { k < part_count self.now.parts.bytes.now 2 }
        ensures { result ≡ injected_answer self.now.parts.bytes.now k }
    {
        if !self.form_fits(2, k, 0, 0, INJECTED_FORM) {
            return self.record_fault(2, k);
        }
        in_order(self.parts.injected_order(k))
    }

    // A concept that does not fit where operands are below it: whether it would where they are below C.
    #[cold]
    fn concept_refusal(&self, k: usize) -> Result<(), Refusal>
        requires k_bound { k < part_count self.now.parts.bytes.now 3 }
        requires k_value { concept_shape self.now.parts.bytes.now k k ≡ false }
        ensures { result ≡ concept_answer self.now.parts.bytes.now k }
    {
        let form = concept_form(self.parts.part_word(3, k, 0));
        if self.form_fits(3, k, 1, self.parts.count(3), form) {
            return Err(Refusal::ForwardOperand);
        }
        self.record_fault(3, k)
    }

    // Operands that are below the concept are below C too, so a good list is gone through once.
    fn concept_answer(&self, k: usize) -> Result<(), Refusal>
        requires { k < part_count self.now.parts.bytes.now 3 }
        ensures { result ≡ concept_answer self.now.parts.bytes.now k }
    {
        let form = concept_form(self.parts.part_word(3, k, 0));
        if self.form_fits(3, k, 1, k, form) {
            return Ok(());
        }
        self.concept_refusal(k)
    }

    fn axiom_answer(&self, k: usize) -> Result<(), Refusal>
        requires { k < part_count self.now.parts.bytes.now 4 }
        ensures { result ≡ axiom_answer self.now.parts.bytes.now k }
    {
        let form = axiom_form(self.parts.part_word(4, k, 0));
        if self.form_fits(4, k, 1, self.parts.count(3), form) {
            return Ok(());
        }
        self.record_fault(4, k)
    }

    fn fact_answer(&self, k: usize) -> Result<(), Refusal>
        requires { k < part_count self.now.parts.bytes.now 5 }
        ensures { result ≡ fact_answer self.now.parts.bytes.now k }
    {
        if self.form_fits(5, k, 0, 0, FACT_FORM) {
            return Ok(());
        }
        self.record_fault(5, k)
    }

    // By the part's number, as all parts are gone through in order.
    fn record_answer(&self, p: usize, k: usize) -> Result<(), Refusal>
        requires p_bound { p < 6 }
        requires k_bound { k < part_count self.now.parts.bytes.now p }
        ensures { result ≡ record_answer self.now.parts.bytes.now p k }
    {
        match p {
            0 => self.class_answer(k),
            1 => self.role_answer(k),
            2 => self.injected_answer(k),
            3 => self.concept_answer(k),
            4 => self.axiom_answer(k),
            _ => self.fact_answer(k),
        }
    }

    // The first refusal of a record of part p.
    fn part_answer(&self, p: usize) -> Result<(), Refusal>
        requires { p < 6 }
        ensures { result ≡ part_answer self.now.parts.bytes.now p }
    {
        for k in 0..self.parts.count(p) {
            self.record_answer(p, k)?;
        }
        Ok(())
    }

    // The first refusal of a record, in part order.
    pub fn records_answer(&self) -> Result<(), Refusal>
        ensures { result ≡ first_refusal (part_answer self.now.parts.bytes.now) 6 }
    {
        for p in 0..6 {
            self.part_answer(p)?;
        }
        Ok(())
    }
}
