// What a case asks for (main.rt has its form). Places are counted in words.
ghost use Rattle.std.specs.Prelude.{◌≤◌};

use build::bounds::Bounds;
use cases::words::word_or_0;

// What is asked of a run: its bounds, its last phase, and how much memory it is lent.
#[derive(Clone, Copy)]
pub struct Asked {
    pub bounds: Bounds,
    pub last_phase: u32,
    pub labels: usize,
    pub edges: usize,
    pub log: usize,
    pub verdicts: usize,
}

// What the eight words from `at` on ask.
pub fn asked_at(data: &[u8], at: usize) -> Asked
    requires { at ≤ 1000002 }
{
    Asked {
        bounds: Bounds {
            max_elements: word_or_0(data, at),
            max_edges: word_or_0(data, at + 1),
            max_rounds: word_or_0(data, at + 2),
        },
        last_phase: word_or_0(data, at + 3),
        labels: word_or_0(data, at + 4) as usize,
        edges: word_or_0(data, at + 5) as usize,
        log: word_or_0(data, at + 6) as usize,
        verdicts: word_or_0(data, at + 7) as usize,
    }
}
