// Going through edges in any order: the lowest that fails so far, by from then to, and the last construct left open.
ghost use Rattle.std.specs.Prelude.{◌≡◌};
ghost use Rattle.eval.specs.Lowest.{nothing_yet, before, lower, lowest_next};

use crate::edges::Edge;
use crate::judgement::{Construct, Judgement};

// The three loops that use it stay apart: what is judged of an edge would be a closure, over the memo in one and over no memo in two.
#[derive(Clone, Copy)]
pub struct Lowest {
    pub failing: Option<Edge>,
    pub noted: Option<Construct>,
}

// Is the first edge before the second?
fn is_before(e: Edge, d: Edge) -> bool
    ensures { result ≡ before e.from.0 e.to.0 d.from.0 d.to.0 }
{
    (e.from, e.to) < (d.from, d.to)
}

impl Lowest {
    pub fn new() -> Lowest
        ensures { result ≡ nothing_yet }
    {
        Lowest {
            failing: None,
            noted: None,
        }
    }

    // After one more edge that fails.
    fn fail(self, e: Edge) -> Lowest
        ensures { result ≡ lower self e }
    {
        if let Some(d) = self.failing {
            if !is_before(e, d) {
                return self;
            }
        }
        Lowest {
            failing: Some(e),
            noted: self.noted,
        }
    }

    // After one more edge, with the outcome there.
    pub fn next(self, j: Judgement, e: Edge) -> Lowest
        ensures { result ≡ lowest_next self j e }
    {
        match j {
            Judgement::False => self.fail(e),
            Judgement::True => self,
            Judgement::Unresolved(construct) => Lowest {
                failing: self.failing,
                noted: Some(construct),
            },
        }
    }
}
