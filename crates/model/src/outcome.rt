// What a run comes to.
ghost use Rattle.std.specs.Prelude.{◌≡◌};
ghost use Rattle.model.specs.Outcome.{outcome_at};

use eval::verdict::Verdict;

// From the best to the worst.
#[derive(Clone, Copy, Debug, PartialEq, Eq, PartialOrd, Ord)]
pub enum Outcome {
    Confirmed,
    Open,
    Failed,
}

// What one verdict comes to.
impl From<Verdict> for Outcome {
    ghost from_gives = { λ verdict outcome. outcome ≡ outcome_at verdict };

    fn from(verdict: Verdict) -> Outcome {
        match verdict {
            Verdict::Holds => Outcome::Confirmed,
            Verdict::Fails(_) => Outcome::Failed,
            _ => Outcome::Open,
        }
    }
}
