// An index of the edges by where they leave: a loop over the edges of one element goes from run to run of them.
// A run is edges that follow one another and leave the same element. Words 0 to 2 say which edges are covered and how
// many runs there are; then come each element's first run and, for each run, where it starts and which is the next one.
// Runs are counted from 1, and 0 is none: all of it lies in words that are lent, which have no room for an Option. A walk
// holds the number as it stands there.
ghost use Rattle.std.specs.Prelude.{◌≡◌, true, ℕ, ◌+◌, ◌*◌, ◌<◌, ◌≤◌, length, get_or, set};
ghost use Rattle.eval.specs.Index.{from_at, used, head, stop_of, Indexed, Ahead, Jumped, Follows, Built, Entered};

use crate::edges::edge_at;
use deck::numbers::Element;

// A place in the list of edges, and the run that comes after the present one.
#[derive(Clone, Copy)]
pub struct Walk {
    pub at: usize,
    pub run: u32,
}

// The first `count` edges, with an index of them.
#[derive(Clone, Copy)]
pub struct EdgeIndex<'a> {
    pub edges: &'a [[u32; 3]],
    pub count: u32,
    pub index: &'a [u32],
    pub elements: u32,
    pub ghost within: { count ≤ length edges.now },
    pub ghost indexed: { Indexed edges.now elements count index.now },
}

// How many edges are not in the index, at the front, and how many runs it has.
#[derive(Clone, Copy)]
struct Filled {
    low: u32,
    used: u32,
}

// A word of the index; 0 past its end.
fn word_at(index: &[u32], i: usize) -> u32
    ensures { result ≡ get_or index.now i 0 }
{
    index.get(i).copied().unwrap_or(0)
}

// Where run m starts; for 0 where the covered edges end.
fn stop_of(index: &[u32], elements: u32, m: u32) -> u32
    ensures { result ≡ stop_of elements index.now m }
{
    if m == 0 {
        return word_at(index, 1);
    }
    word_at(index, 1 + elements as usize + 2 * (m as usize))
}

// The walk over the edges that leave x, at its start.
pub fn walk_of(index: &[u32], x: Element) -> Walk
    ensures { (result.at ≡ 0) × (result.run ≡ head index.now x.0) }
{
    Walk {
        at: 0,
        run: word_at(index, 3 + x.0 as usize),
    }
}

impl EdgeIndex<'_> {
    // The run to come after s, where `run` starts: the next of x, if the edge at s leaves x.
    fn run_after(&self, x: Element, run: u32, s: usize) -> u32
        requires run_bound { run ≤ used self.now.index.now }
        requires s_value { s ≡ stop_of self.now.elements self.now.index.now run }
        ensures { Ahead self.now.edges.now self.now.elements self.now.index.now x.0 s result }
    {
        if run != 0 {
            if edge_at(self.edges, s).from == x {
                return word_at(self.index, 2 + self.elements as usize + 2 * (run as usize));
            }
        }
        run
    }

    // From an edge that does not leave x to the next that may.
    pub fn jump(&self, x: Element, w: Walk) -> Walk
        requires at_lt_count { w.at < self.now.count }
        requires fact { from_at self.now.edges.now w.at ≡ x.0 → ⊥ }
        requires ahead { Ahead self.now.edges.now self.now.elements self.now.index.now x.0 w.at w.run }
        ensures { Jumped self.now.edges.now self.now.elements self.now.count self.now.index.now x.0 w.at result }
    {
        if w.at < word_at(self.index, 0) as usize {
            return Walk {
                at: w.at + 1,
                run: w.run,
            };
        }
        let s = stop_of(self.index, self.elements, w.run) as usize;
        let run = self.run_after(x, w.run, s);
        if s <= w.at {
            return Walk { at: w.at + 1, run };
        }
        Walk { at: s, run }
    }
}

// While an index is made, what changes in it is passed as it is: a struct that lends it would be no plainer. The edges go whole, with how many
// there are: an index is of the first ones of a buffer that may go on being filled.
fn set_word(index: &mut [u32], i: usize, w: u32)
    requires { i < length index.old }
    ensures { index.new ≡ set index.old i w }
{
    index[i] = w;
}

// The first n words become 0. Beside `clear_first` of atoms, for words of 64 bits: of both types it would take the 0 as a parameter, and be no
// plainer than `fill`.
fn clear(index: &mut [u32], n: usize)
    requires { n ≤ length index.old }
    ensures { (length index.new ≡ length index.old) × ((k : ℕ) → k < n → get_or index.new k 0 ≡ 0) }
{
    index[..n].fill(0);
}

// Does run h start just after edge i, and leave the same element?
fn follows(edges: &[[u32; 3]], index: &[u32], elements: u32, h: u32, i: usize) -> bool
    requires { i < length edges.now }
    ensures { result ≡ true → Follows edges.now elements index.now h i }
{
    h != 0
        && stop_of(index, elements, h) as usize == i + 1
        && i + 1 < edges.len()
        && edge_at(edges, i + 1).from == edge_at(edges, i).from
}

// Run m of x, at the front of the others: it starts at edge i, and run h comes next.
fn add_run(index: &mut [u32], elements: u32, m: u32, x: Element, i: u32, h: u32)
    requires x_lt_elements { x.0 < elements }
    requires m_in_bounds { 3 + elements + 2 * m ≤ length index.old }
    ensures { index.new ≡ set (set (set index.old (1 + elements + 2 * m) i) (2 + elements + 2 * m) h) (3 + x.0) m }
{
    set_word(index, 1 + elements as usize + 2 * (m as usize), i);
    set_word(index, 2 + elements as usize + 2 * (m as usize), h);
    set_word(index, 3 + x.0 as usize, m);
}

// Edge i comes in: at the front of the run after it, or as a run of its own. The number of runs, if there is room.
fn enter(
    edges: &[[u32; 3]],
    count: u32,
    index: &mut [u32],
    elements: u32,
    i: u32,
    runs: u32,
) -> Option<u32>
    requires count_in_bounds { count ≤ length edges.now }
    requires i_lt_count { i < count }
    requires i_bound { from_at edges.now i < elements }
    requires built { Built edges.now elements count (i + 1) runs index.old }
    ensures { Entered edges.now elements count i index.old index.new result }
{
    let e = edge_at(edges, i as usize);
    let x = e.from;
    let h = word_at(index, 3 + x.0 as usize);
    if follows(edges, index, elements, h, i as usize) {
        set_word(index, 1 + elements as usize + 2 * (h as usize), i);
        return Some(runs);
    }
    if index.len() < 5 + elements as usize + 2 * (runs as usize) {
        return None;
    }
    add_run(index, elements, runs + 1, x, i, h);
    Some(runs + 1)
}

// Edges come in from the last one down, while there is room.
fn fill(edges: &[[u32; 3]], count: u32, index: &mut [u32], elements: u32) -> Filled
    requires count_in_bounds { count ≤ length edges.now }
    requires by_index { (j : ℕ) → j < count → from_at edges.now j < elements }
    requires built { Built edges.now elements count count 0 index.old }
    ensures { (length index.new ≡ length index.old) × Built edges.now elements count result.low result.used index.new }
{
    let mut used = 0;
    for i in (0..count).rev() {
        match enter(edges, count, index, elements, i, used) {
            Some(runs) => used = runs,
            None => return Filled { low: i + 1, used },
        }
    }
    Filled { low: 0, used }
}

// The index of the first `count` edges. Without room for all runs it leaves out the oldest edges, and covers none where
// there is no room for the elements.
pub fn make_index(edges: &[[u32; 3]], count: u32, elements: u32, index: &mut [u32])
    requires count_in_bounds { count ≤ length edges.now }
    requires by_index { (j : ℕ) → j < count → from_at edges.now j < elements }
    ensures { (length index.new ≡ length index.old) × Indexed edges.now elements count index.new }
{
    let words = 3 + elements as usize;
    if index.len() < words {
        let all = index.len();
        clear(index, all);
        return;
    }
    clear(index, words);
    let filled = fill(edges, count, index, elements);
    set_word(index, 0, filled.low);
    set_word(index, 1, count);
    set_word(index, 2, filled.used);
}
