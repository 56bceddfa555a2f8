// The bounds of a run.
#[derive(Clone, Copy)]
pub struct Bounds {
    pub max_elements: u32,
    pub max_edges: u32,
    pub max_rounds: u32,
}
