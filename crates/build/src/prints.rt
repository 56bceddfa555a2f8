// Labels found by fingerprint, for seeding and for the targets of facts: the elements of one slot are a chain, the last first. `heads` has one more than the
// first of each chain, `links` one more than the next after each element. 0 is none, so that a table of zeros, in fixed memory, is an empty one.
// The two stay slices of their own: a struct of both would hold two `&mut`, and each step would have to say that they stay the same ones.
ghost use Rattle.std.specs.Prelude.{◌≡◌, ◌+◌, ◌*◌, ◌<◌, ◌≤◌, length, get_or, set};
ghost use Rattle.atoms.specs.Rows.{rows_of};
ghost use Rattle.build.specs.Intern.{interned, Found};
ghost use Rattle.build.specs.Building.{HasPlace, Interns, label_in, model_of};
ghost use Rattle.build.specs.Prints.{mixed, print_to, slot_of, Chained};

use crate::building::Build;
use crate::intern::row;
use atoms::floor::apply_floor;
use deck::numbers::Element;

// A fingerprint takes word w of place i in.
fn mix(h: u64, i: u64, w: u64) -> u64
    requires { h < 4294967296 }
    ensures { (result ≡ mixed h i w) × (result < 4294967296) }
{
    let low = w % 4294967296 * 836962823;
    let high = w / 4294967296 * 732373165;
    (h * 487559885 + low + high + i % 64 * 955026045) % 4294967291
}

// The fingerprint of a label: most words are 0.
fn fingerprint(label: &[u64]) -> u64
    ensures { result ≡ print_to label.now (length label.now) }
{
    let mut h = 0;
    for i in 0..label.len() {
        if label[i] != 0 {
            h = mix(h, i as u64, label[i]);
        }
    }
    h
}

// The slot of a label in a table of so many.
pub fn slot_of(label: &[u64], size: usize) -> usize
    requires { 0 < size }
    ensures { (result ≡ slot_of size label.now) × (result < size) }
{
    (fingerprint(label) % (size as u64)) as usize
}

// The element whose label it is, if there is one; h is the label's slot.
pub fn find_at(
    labels: &[u64],
    elements: u32,
    label: &[u64],
    heads: &[u32],
    links: &[u32],
    h: usize,
) -> Option<Element>
    requires label_in_bounds { elements * length label.now ≤ length labels.now }
    requires chained { Chained (rows_of (length label.now) elements labels.now) heads.now links.now }
    requires elements_in_bounds { elements ≤ length links.now }
    requires h_value { (h ≡ slot_of (length heads.now) label.now) × (h < length heads.now) }
    ensures { Found (rows_of (length label.now) elements labels.now) label.now result }
{
    // No `for`: where a chain goes on is known at each of its elements. To its end, as the first element with the label comes last in it.
    let mut found = None;
    let mut p = heads[h];
    while p != 0 {
        let e = p - 1;
        if row(labels, e, elements, label.len()) == label {
            found = Some(Element(e));
        }
        p = links[e as usize];
    }
    found
}

// A new element becomes the first of its chain.
pub fn chain(heads: &mut [u32], links: &mut [u32], h: usize, element: u32)
    requires h_in_bounds { h < length heads.old }
    requires element_in_bounds { element < length links.old }
    requires element_bound { element < 65536 }
    ensures heads_after { heads.new ≡ set heads.old h (element + 1) }
    ensures links_after { links.new ≡ set links.old element (get_or heads.old h 0) }
{
    links[element as usize] = heads[h];
    heads[h] = element + 1;
}

impl Build<'_, '_> {
    // The element of the label in the making, which takes the floor in first where it has no real class. A new one becomes the first of its chain.
    // Beside `intern`, which keeps no table: the search and what a new label does differ, two of the three steps.
    pub fn intern_by(&mut self, heads: &mut [u32], links: &mut [u32]) -> Element
        requires place { HasPlace self.old }
        requires elements_in_bounds { self.old.tally.elements < length links.old }
        requires chained { Chained (model_of self.old).labels heads.old links.old }
        ensures interns { Interns self.old self.new (label_in self.old) result.0 }
        ensures chained_after { Chained (interned (model_of self.old).labels (label_in self.old)) heads.new links.new }
    {
        let deck = self.plan.deck;
        apply_floor(&deck, self.plan.floor, self.label);
        let count = self.tally.elements;
        let labels = &mut *self.labels;
        let label = &mut *self.label;
        let h = slot_of(label, heads.len());
        match find_at(labels, count, label, heads, links, h) {
            Some(e) => e,
            None => {
                chain(heads, links, h, count);
                self.append_label()
            }
        }
    }
}
