// The fault of a record, with its word: looked for only after a test has failed.
ghost use Rattle.std.specs.Prelude.{◌≡◌, ◌+◌, ◌<◌, ◌≤◌};
ghost use Rattle.deck.specs.Trailer.{part_count, width_of};
ghost use Rattle.deck.specs.Parts.{part_place};
ghost use Rattle.deck.specs.Faults.{fault_of, word_faults, piece_faults, pieces_of, faults_of, first};
ghost use Rattle.deck.specs.Faults.Piece.{Field, Items};
ghost use Rattle.deck.specs.Records.{record_fault};

use crate::forms::{
    CLASS_FORM, Draft, FACT_FORM, Form, INJECTED_FORM, Kind, axiom_form, concept_form,
};
use crate::numbers::WordIndex;
use crate::parts::Parts;
use crate::refusal::Refusal;

// What is wrong with a word that is not of its kind.
fn fault_of(kind: Kind, word: WordIndex) -> Refusal
    ensures { result ≡ fault_of kind word.0 }
{
    match kind {
        Kind::Zero => Refusal::FilledField(word),
        Kind::Flag => Refusal::UnknownTag(word),
        _ => Refusal::OutOfRange(word),
    }
}

impl Parts<'_> {
    // Where field f of record k of part p stands.
    fn word_index(&self, p: usize, k: usize, f: usize) -> WordIndex
        requires p_bound { p < 7 }
        requires k_bound { k < part_count self.now.bytes.now p }
        requires f_bound { f < width_of p }
        ensures { result.0 ≡ part_place self.now.bytes.now p k f }
    {
        WordIndex(self.part_place(p, k, f) as u32)
    }

    // The first word of a row or list within lists that is not below n.
    fn word_fault(&self, start: usize, count: usize, n: usize) -> Result<(), Refusal>
        requires { start + count ≤ part_count self.now.bytes.now 6 }
        ensures { result ≡ first (word_faults self.now.bytes.now start n count) }
    {
        for i in 0..count {
            let at = start + i;
            if self.list_word(at) as usize >= n {
                return Err(Refusal::OutOfRange(self.word_index(6, at, 0)));
            }
        }
        Ok(())
    }
}

impl Draft<'_> {
    fn field_fault(&self, p: usize, k: usize, f: usize, kind: Kind) -> Result<(), Refusal>
        requires p_bound { p < 6 }
        requires k_bound { k < part_count self.now.parts.bytes.now p }
        requires f_bound { f < width_of p }
        ensures { result ≡ first (piece_faults self.now.parts.bytes.now p k (Field f kind)) }
    {
        let w = self.parts.part_word(p, k, f);
        if self.field_fits(self.parts.count(3), kind, w) {
            return Ok(());
        }
        Err(fault_of(kind, self.parts.word_index(p, k, f)))
    }

    // A row or list whose start is field f, and its count the field after.
    fn items_fault(&self, p: usize, k: usize, f: usize, kind: Kind) -> Result<(), Refusal>
        requires p_bound { p < 6 }
        requires k_bound { k < part_count self.now.parts.bytes.now p }
        requires f_bound { f + 1 < width_of p }
        ensures { result ≡ first (piece_faults self.now.parts.bytes.now p k (Items f kind)) }
    {
        let next = f + 1;
        let start = self.parts.part_word(p, k, f) as usize;
        let count = self.parts.part_word(p, k, next) as usize;
        if start + count <= self.parts.count(6) {
            let bound = self.bound(self.parts.count(3), kind);
            return self.parts.word_fault(start, count, bound);
        }
        Err(Refusal::OutOfRange(self.parts.word_index(p, k, f)))
    }

    // The three fields from field f on.
    fn form_fault(&self, p: usize, k: usize, f: usize, form: Form) -> Result<(), Refusal>
        requires p_bound { p < 6 }
        requires k_bound { k < part_count self.now.parts.bytes.now p }
        requires f_bound { f + 2 < width_of p }
        ensures { result ≡ first (faults_of self.now.parts.bytes.now p k (pieces_of f form)) }
    {
        match form {
            Form::Fields(a, b, c) => {
                self.field_fault(p, k, f, a)?;
                self.field_fault(p, k, f + 1, b)?;
                self.field_fault(p, k, f + 2, c)
            }
            Form::ListField(e, a) => {
                self.items_fault(p, k, f, e)?;
                self.field_fault(p, k, f + 2, a)
            }
            Form::FieldList(a, e) => {
                self.field_fault(p, k, f, a)?;
                self.items_fault(p, k, f + 1, e)
            }
            Form::Unknown => Err(Refusal::UnknownTag(self.parts.word_index(p, k, 0))),
        }
    }

    // The two rows of a role.
    fn role_fault(&self, k: usize) -> Result<(), Refusal>
        requires { k < part_count self.now.parts.bytes.now 1 }
        ensures { result ≡ record_fault self.now.parts.bytes.now 1 k }
    {
        self.items_fault(1, k, 0, Kind::Role)?;
        self.items_fault(1, k, 2, Kind::Class)
    }

    // The fault of record k of part p.
    // By the part's number, as the definition is: one cold function for the tests of all parts.
    #[cold]
    pub fn record_fault(&self, p: usize, k: usize) -> Result<(), Refusal>
        requires p_bound { p < 6 }
        requires k_bound { k < part_count self.now.parts.bytes.now p }
        ensures { result ≡ record_fault self.now.parts.bytes.now p k }
    {
        match p {
            0 => self.form_fault(0, k, 0, CLASS_FORM),
            1 => self.role_fault(k),
            2 => self.form_fault(2, k, 0, INJECTED_FORM),
            3 => self.form_fault(3, k, 1, concept_form(self.parts.part_word(3, k, 0))),
            4 => self.form_fault(4, k, 1, axiom_form(self.parts.part_word(4, k, 0))),
            _ => self.form_fault(5, k, 0, FACT_FORM),
        }
    }
}
