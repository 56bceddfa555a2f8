// How much of the lent buffers is in use: elements, each with a label, and edges.
#[derive(Clone, Copy)]
pub struct Shape {
    pub elements: u32,
    pub edges: u32,
}
