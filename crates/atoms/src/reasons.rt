// The log of reasons: three words a reason.
ghost use Rattle.std.specs.Prelude.{◌≡◌, ◌/◌, ◌<◌, ◌≤◌, List, length};
ghost use Rattle.atoms.specs.declared.reasons.Reason.{Reason};
ghost use Rattle.atoms.specs.Walk.{walk};
ghost use Rattle.atoms.specs.Reasons.{bound_number, label_not_closed, run_delta, bound_tripped, axioms_dropped, words_of, reason_at, written, has_room, noted, counted, note};
ghost use Rattle.atoms.specs.Occurrences.{logs, Standing};

use deck::numbers::{ClassId, RoleId};

// A bound of a run, by its number in the log.
#[derive(Clone, Copy, Debug, PartialEq, Eq)]
pub enum Bound {
    Elements = 0,
    Edges = 1,
    Rounds = 2,
}

// A bound that tripped has its limit with it. The axioms are those dropped at conversion.
#[derive(Clone, Copy, Debug, PartialEq, Eq)]
pub enum Reason {
    LabelNotClosed(ClassId, RoleId),
    RunDelta(ClassId),
    BoundTripped(Bound, u32),
    AxiomsDropped(u32),
}

impl Reason {
    // The four below stay: they are public, and promise the reasons as document 01 numbers them.
    pub fn label_not_closed(class: ClassId, role: RoleId) -> Reason
        ensures { result ≡ label_not_closed class.0 role.0 }
    {
        Reason::LabelNotClosed(class, role)
    }

    pub fn run_delta(class: ClassId) -> Reason
        ensures { result ≡ run_delta class.0 }
    {
        Reason::RunDelta(class)
    }

    pub fn bound_tripped(bound: Bound, limit: u32) -> Reason
        ensures { result ≡ bound_tripped (bound_number bound) limit }
    {
        Reason::BoundTripped(bound, limit)
    }

    pub fn axioms_dropped(dropped: u32) -> Reason
        ensures { result ≡ axioms_dropped dropped }
    {
        Reason::AxiomsDropped(dropped)
    }

    // As the log has it: a reason's number, and its two words. Variants with fields have no numbers of their own. No From, as only the log asks for them.
    fn words(self) -> [u32; 3]
        ensures { result ≡ words_of self }
    {
        match self {
            Reason::LabelNotClosed(class, role) => [1, class.0, role.0],
            Reason::RunDelta(class) => [2, class.0, 0],
            Reason::BoundTripped(bound, limit) => [3, bound as u32, limit],
            Reason::AxiomsDropped(dropped) => [4, dropped, 0],
        }
    }
}

// Reason n of the log.
fn at(log: &[u32], n: usize) -> [u32; 3]
    requires { n < length log.now / 3 }
    ensures { result ≡ reason_at log.now n }
{
    [log[n * 3], log[n * 3 + 1], log[n * 3 + 2]]
}

// Reason n of the log becomes these words.
fn store(log: &mut [u32], n: usize, words: [u32; 3])
    requires { n < length log.old / 3 }
    ensures { log.new ≡ written log.old n words }
{
    log[n * 3] = words[0];
    log[n * 3 + 1] = words[1];
    log[n * 3 + 2] = words[2];
}

// Would one more reason be written, where `total` were given?
pub fn has_room(log: &[u32], total: u32) -> bool
    ensures { result ≡ has_room log.now total }
{
    total < u32::MAX && (total as usize) < log.len() / 3
}

// One more reason, where `total` were given; the new total. A struct of both would hold a `&mut`, and every function that takes it would have to say that it stays the same one.
pub fn note(log: &mut [u32], total: u32, r: Reason) -> u32
    ensures { (log.new ≡ noted log.old total r) × (result ≡ counted total) }
{
    if has_room(log, total) {
        store(log, total as usize, r.words());
    }
    total.saturating_add(1)
}

// Reasons that stand in the log: the number of the first, and how many.
#[derive(Clone, Copy)]
pub struct Stretch {
    pub first: u32,
    pub count: u32,
}

// The reasons of a stretch once more, where `total` were given; the new total. Seldom called: never inlined, it takes no registers from the loops that call it.
#[inline(never)]
pub fn note_again(log: &mut [u32], total: u32, stretch: Stretch) -> u32
    requires { stretch.first ≤ total }
    ensures { (xs : List Reason) → Standing log.old stretch total xs → logs log.new result ≡ walk note xs (logs log.old total) }
{
    for j in 0..stretch.count {
        if !has_room(log, total + j) {
            break;
        }
        let words = at(log, (stretch.first + j) as usize);
        store(log, (total + j) as usize, words);
    }
    total.saturating_add(stretch.count)
}
