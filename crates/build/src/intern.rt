// The labels of the elements, one after the other from the start of the lent buffer on, each of as many words as the label
// in the making has. Equal labels are one element. Four leaves know how labels lie: `row` here, `store`, which appends one,
// atoms' `label_at`, and eval's `Labels::word`.
ghost use Rattle.std.specs.Prelude.{◌≡◌, true, ◌+◌, ◌*◌, ◌<◌, ◌≤◌, length, IfSome};
ghost use Rattle.std.proofs.Math.Seq.{paste};
ghost use Rattle.atoms.specs.Rows.{row_at, rows_of};
ghost use Rattle.build.specs.Intern.{index_of, Found};
ghost use Rattle.build.specs.Building.{HasPlace, Interns, label_in, model_of};

use crate::building::Build;
use atoms::floor::apply_floor;
use deck::numbers::Element;

// The last word of the label that has a class, where labels mostly differ.
fn last_word(label: &[u64]) -> Option<usize>
    ensures { IfSome result (λ w. w < length label.now) }
{
    for i in (0..label.len()).rev() {
        if label[i] != 0 {
            return Some(i);
        }
    }
    None
}

// Where row e of w words starts, in a table of n rows.
pub fn row_start(e: usize, n: usize, w: usize, room: usize) -> usize
    requires { (e < n) × (n * w ≤ room) }
    ensures { (result ≡ e * w) × (result + w ≤ room) }
{
    e * w
}

// The label of element e, of n elements with w words each.
pub fn row(labels: &[u64], e: u32, n: u32, w: usize) -> &[u64]
    requires { (e < n) × (n * w ≤ length labels.now) }
    ensures words { result.now ≡ row_at w labels.now (e * w) }
    ensures size { length result.now ≡ w }
{
    let at = row_start(e as usize, n as usize, w, labels.len());
    &labels[at..at + w]
}

// Whether two labels of one width differ in their first word, or in their last: so labels mostly differ from one without a class.
fn ends_differ(a: &[u64], b: &[u64]) -> bool
    requires { length a.now ≡ length b.now }
    ensures { result ≡ true → a.now ≡ b.now → ⊥ }
{
    if a.is_empty() {
        return false;
    }
    let end = a.len() - 1;
    if a[0] != b[0] {
        return true;
    }
    a[end] != b[end]
}

// Whether two labels of one width differ in their word `last`, or where there is none at an end.
fn differs(a: &[u64], b: &[u64], last: Option<usize>) -> bool
    requires same { length a.now ≡ length b.now }
    requires last { IfSome last (λ w. w < length b.now) }
    ensures { result ≡ true → a.now ≡ b.now → ⊥ }
{
    match last {
        Some(w) => a[w] != b[w],
        None => ends_differ(a, b),
    }
}

// The element whose label it is, if there is one.
fn find(labels: &[u64], elements: u32, label: &[u64]) -> Option<Element>
    requires { elements * length label.now ≤ length labels.now }
    ensures { Found (rows_of (length label.now) elements labels.now) label.now result }
{
    let last = last_word(label);
    for e in 0..elements {
        let other = row(labels, e, elements, label.len());
        if differs(other, label, last) {
            continue;
        }
        if other == label {
            return Some(Element(e));
        }
    }
    None
}

// The words from `at` on become the label. Word by word: a copy of the whole part would need `memmove` of whoever links the library.
pub fn store(labels: &mut [u64], at: usize, label: &[u64])
    requires { at + length label.now ≤ length labels.old }
    ensures { labels.new ≡ paste labels.old at label.now (length label.now) }
{
    for i in 0..label.len() {
        labels[at + i] = label[i];
    }
}

impl Build<'_, '_> {
    // The label in the making, which is new, is appended; its element.
    pub(crate) fn append_label(&mut self) -> Element
        requires place { HasPlace self.old }
        requires new { index_of (model_of self.old).labels self.old.label.now ≡ length (model_of self.old).labels }
        ensures { Interns self.old self.new self.old.label.now result.0 }
    {
        let count = self.tally.elements;
        let many = count as usize;
        let width = self.label.len();
        let room = self.labels.len();
        let at = row_start(many, many + 1, width, room);
        let label = &mut *self.label;
        store(self.labels, at, label);
        self.tally.elements = count + 1;
        Element(count)
    }

    // The element of the label in the making, which takes the floor in first where it has no real class.
    pub fn intern(&mut self) -> Element
        requires { HasPlace self.old }
        ensures { Interns self.old self.new (label_in self.old) result.0 }
    {
        let deck = self.plan.deck;
        apply_floor(&deck, self.plan.floor, self.label);
        let count = self.tally.elements;
        let labels = &mut *self.labels;
        let label = &mut *self.label;
        match find(labels, count, label) {
            Some(e) => e,
            None => self.append_label(),
        }
    }
}
