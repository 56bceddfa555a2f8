// What the fields of a record hold, and the test of it.
ghost use Rattle.std.specs.Prelude.{◌≡◌, ◌+◌, ◌<◌};
ghost use Rattle.deck.specs.Trailer.{part_count, width_of};
ghost use Rattle.deck.specs.Parts.{part_word};
ghost use Rattle.deck.specs.Rows.{row_shape};
ghost use Rattle.deck.specs.Forms.{counts_of, bound_of, bounds_of, fits, form_shape};
ghost use Rattle.deck.specs.Records.{concept_form, axiom_form};

use crate::parts::Parts;

// A field: nothing, a flag, a number of something, or any word.
#[derive(Clone, Copy, Debug, PartialEq, Eq)]
pub enum Kind {
    Zero,
    Flag,
    Class,
    RealClass,
    Role,
    RoleWord,
    Concept,
    Any,
}

// Three fields: a field each, or a list (start and count) before or after a field.
// An unknown tag has no form.
#[derive(Clone, Copy, Debug, PartialEq, Eq)]
pub enum Form {
    Fields(Kind, Kind, Kind),
    ListField(Kind, Kind),
    FieldList(Kind, Kind),
    Unknown,
}

pub const CLASS_FORM: Form = Form::FieldList(Kind::Flag, Kind::Class);

pub const INJECTED_FORM: Form = Form::Fields(Kind::Class, Kind::Role, Kind::RealClass);

pub const FACT_FORM: Form = Form::Fields(Kind::Class, Kind::Role, Kind::Class);

// The fields of a concept, by its tag. A match and no table: one read by tag is made on the stack at each read, and under the older kit
// the check of a deck took twice as long (docs/DECISIONS.md, 53).
pub fn concept_form(tag: u32) -> Form
    ensures { result ≡ concept_form tag }
{
    match tag {
        0 => Form::Fields(Kind::Zero, Kind::Zero, Kind::Zero),
        1 => Form::Fields(Kind::Zero, Kind::Zero, Kind::Zero),
        2 => Form::Fields(Kind::Class, Kind::Zero, Kind::Zero),
        3 => Form::Fields(Kind::Any, Kind::Zero, Kind::Zero),
        4 => Form::Fields(Kind::RoleWord, Kind::Zero, Kind::Zero),
        5 => Form::Fields(Kind::Concept, Kind::Zero, Kind::Zero),
        6 => Form::ListField(Kind::Concept, Kind::Zero),
        7 => Form::ListField(Kind::Concept, Kind::Zero),
        8 => Form::Fields(Kind::RoleWord, Kind::Concept, Kind::Zero),
        9 => Form::Fields(Kind::RoleWord, Kind::Concept, Kind::Zero),
        10 => Form::Fields(Kind::Any, Kind::RoleWord, Kind::Concept),
        11 => Form::Fields(Kind::Any, Kind::RoleWord, Kind::Concept),
        _ => Form::Unknown,
    }
}

// The fields of an axiom, by its tag; a match as above.
pub fn axiom_form(tag: u32) -> Form
    ensures { result ≡ axiom_form tag }
{
    match tag {
        0 => Form::Fields(Kind::Concept, Kind::Concept, Kind::Zero),
        1 => Form::ListField(Kind::Concept, Kind::Zero),
        2 => Form::ListField(Kind::Concept, Kind::Zero),
        3 => Form::FieldList(Kind::Class, Kind::Concept),
        4 => Form::Fields(Kind::RoleWord, Kind::RoleWord, Kind::Zero),
        5 => Form::ListField(Kind::RoleWord, Kind::RoleWord),
        6 => Form::ListField(Kind::RoleWord, Kind::Zero),
        7 => Form::ListField(Kind::RoleWord, Kind::Zero),
        8 => Form::Fields(Kind::RoleWord, Kind::RoleWord, Kind::Zero),
        9 => Form::Fields(Kind::RoleWord, Kind::Concept, Kind::Zero),
        10 => Form::Fields(Kind::RoleWord, Kind::Concept, Kind::Zero),
        11 => Form::Fields(Kind::RoleWord, Kind::Zero, Kind::Zero),
        12 => Form::Fields(Kind::RoleWord, Kind::Zero, Kind::Zero),
        13 => Form::Fields(Kind::RoleWord, Kind::Zero, Kind::Zero),
        14 => Form::Fields(Kind::RoleWord, Kind::Zero, Kind::Zero),
        15 => Form::Fields(Kind::RoleWord, Kind::Zero, Kind::Zero),
        16 => Form::Fields(Kind::RoleWord, Kind::Zero, Kind::Zero),
        17 => Form::Fields(Kind::RoleWord, Kind::Zero, Kind::Zero),
        18 => Form::Fields(Kind::Concept, Kind::Any, Kind::Zero),
        19 => Form::Fields(Kind::RoleWord, Kind::Any, Kind::Any),
        20 => Form::Fields(Kind::RoleWord, Kind::Any, Kind::Any),
        21 => Form::ListField(Kind::Any, Kind::Zero),
        22 => Form::ListField(Kind::Any, Kind::Zero),
        23 => Form::Fields(Kind::Class, Kind::Zero, Kind::Zero),
        24 => Form::Fields(Kind::Role, Kind::Zero, Kind::Zero),
        25 => Form::Fields(Kind::Any, Kind::Zero, Kind::Zero),
        _ => Form::Unknown,
    }
}

// A deck whose records are being tested: its parts, and what words of each kind but concepts are below,
// by the kind's number.
// The bounds stay a table by the kind's number: a match would read the counts again for each field.
#[derive(Clone, Copy)]
pub struct Draft<'a> {
    pub parts: Parts<'a>,
    bounds: [usize; 8],
    ghost are_bounds: { bounds ≡ bounds_of (counts_of parts.bytes.now) },
}

impl<'a> Draft<'a> {
    pub fn new(parts: Parts<'a>) -> Draft<'a>
        ensures { result.parts.bytes.now ≡ parts.entry.bytes.now }
    {
        let roles = parts.count(1);
        let bounds = [
            1,
            2,
            parts.count(0),
            parts.real(),
            roles,
            2 * roles,
            0,
            4294967296,
        ];
        Draft { parts, bounds }
    }

    // What a word of a kind is below, where concepts are below `concepts`.
    #[inline(always)]
    pub fn bound(&self, concepts: usize, kind: Kind) -> usize
        ensures { result ≡ bound_of (counts_of self.now.parts.bytes.now) concepts kind }
    {
        if kind == Kind::Concept {
            return concepts;
        }
        self.bounds[kind as usize]
    }

    // Whether a word is of a kind.
    #[inline(always)]
    pub fn field_fits(&self, concepts: usize, kind: Kind, w: u32) -> bool
        ensures { result ≡ fits (counts_of self.now.parts.bytes.now) concepts kind w }
    {
        (w as usize) < self.bound(concepts, kind)
    }

    // Whether field f of record k of part p is of a kind.
    #[inline(always)]
    fn field_at_fits(&self, p: usize, k: usize, f: usize, concepts: usize, kind: Kind) -> bool
        requires p_bound { p < 6 }
        requires k_bound { k < part_count self.now.parts.bytes.now p }
        requires f_bound { f < width_of p }
        ensures { result ≡ fits (counts_of self.now.parts.bytes.now) concepts kind (part_word self.now.parts.bytes.now p k f) }
    {
        self.field_fits(concepts, kind, self.parts.part_word(p, k, f))
    }

    // Whether a list, from a start, so many, lies within lists, its words of a kind.
    #[inline(never)]
    fn list_fits(&self, start: u32, count: u32, concepts: usize, kind: Kind) -> bool
        ensures { result ≡ row_shape self.now.parts.bytes.now start count (bound_of (counts_of self.now.parts.bytes.now) concepts kind) }
    {
        self.parts
            .row_shape(start, count, self.bound(concepts, kind))
    }

    // Whether the list whose start is field f, and its count the field after, lies within lists, its words of a kind.
    // Inlined, so that the two words are read where the part is known: a class took twice the instructions when they were read in the call.
    #[inline(always)]
    fn list_at_fits(&self, p: usize, k: usize, f: usize, concepts: usize, kind: Kind) -> bool
        requires p_bound { p < 6 }
        requires k_bound { k < part_count self.now.parts.bytes.now p }
        requires f_bound { f + 1 < width_of p }
        ensures { result ≡ row_shape self.now.parts.bytes.now (part_word self.now.parts.bytes.now p k f) (part_word self.now.parts.bytes.now p k (f + 1)) (bound_of (counts_of self.now.parts.bytes.now) concepts kind) }
    {
        let start = self.parts.part_word(p, k, f);
        let count = self.parts.part_word(p, k, f + 1);
        self.list_fits(start, count, concepts, kind)
    }

    // The same, with the test of the words compiled where it is called: for the rows of classes, which are many and mostly short.
    #[inline(always)]
    fn row_at_fits(&self, p: usize, k: usize, f: usize, concepts: usize, kind: Kind) -> bool
        requires p_bound { p < 6 }
        requires k_bound { k < part_count self.now.parts.bytes.now p }
        requires f_bound { f + 1 < width_of p }
        ensures { result ≡ row_shape self.now.parts.bytes.now (part_word self.now.parts.bytes.now p k f) (part_word self.now.parts.bytes.now p k (f + 1)) (bound_of (counts_of self.now.parts.bytes.now) concepts kind) }
    {
        let start = self.parts.part_word(p, k, f);
        let count = self.parts.part_word(p, k, f + 1);
        self.parts
            .row_shape(start, count, self.bound(concepts, kind))
    }

    // Whether the three fields from field f on are of a form, where concepts are below `concepts`.
    #[inline(always)]
    pub fn form_fits(&self, p: usize, k: usize, f: usize, concepts: usize, form: Form) -> bool
        requires p_bound { p < 6 }
        requires k_bound { k < part_count self.now.parts.bytes.now p }
        requires f_bound { f + 2 < width_of p }
        ensures { result ≡ form_shape self.now.parts.bytes.now p k f concepts form }
    {
        match form {
            Form::Fields(a, b, c) => {
                self.field_at_fits(p, k, f, concepts, a)
                    && self.field_at_fits(p, k, f + 1, concepts, b)
                    && self.field_at_fits(p, k, f + 2, concepts, c)
            }
            Form::ListField(e, a) => {
                self.field_at_fits(p, k, f + 2, concepts, a)
                    && self.list_at_fits(p, k, f, concepts, e)
            }
            Form::FieldList(a, e) => {
                self.field_at_fits(p, k, f, concepts, a)
                    && self.row_at_fits(p, k, f + 1, concepts, e)
            }
            Form::Unknown => false,
        }
    }
}
