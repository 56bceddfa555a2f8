// How far building has come: elements and edges in use, and reasons given.

#[derive(Clone, Copy, PartialEq, Eq)]
pub struct Tally {
    pub elements: u32,
    pub edges: u32,
    pub reasons: u32,
}
