// What an And or a Some has come to after the operands or the successors judged so far.
ghost use Rattle.std.specs.Prelude.{◌≡◌};
ghost use Rattle.eval.specs.Standing.{fresh, unless_noted, and_next, some_next, close, and_close, some_close};

use crate::judgement::{Construct, Judgement};

// Is it decided, and if not, the last construct that was left open? `ended` stands beside `noted`, and not in its place, as a
// standing that has ended keeps what it noted: it is a struct whose methods take a judgement and return the next one.
#[derive(Clone, Copy)]
pub struct Standing {
    pub ended: bool,
    pub noted: Option<Construct>,
}

// The judgement, unless a construct was noted.
pub fn unless_noted(noted: Option<Construct>, otherwise: Judgement) -> Judgement
    ensures { result ≡ unless_noted noted otherwise }
{
    noted.map_or(otherwise, Judgement::Unresolved)
}

// `and` and `some` stay two functions: a match on what ends each says the rule, and one of both would need it as a parameter.
impl Standing {
    pub fn new() -> Standing
        ensures { result ≡ fresh }
    {
        Standing {
            ended: false,
            noted: None,
        }
    }

    // After one more operand of an And.
    pub fn and(self, j: Judgement) -> Standing
        ensures { result ≡ and_next self j }
    {
        match j {
            Judgement::False => Standing {
                ended: true,
                noted: self.noted,
            },
            Judgement::True => self,
            Judgement::Unresolved(last) => Standing {
                ended: self.ended,
                noted: Some(last),
            },
        }
    }

    // After one more successor of a Some.
    pub fn some(self, j: Judgement) -> Standing
        ensures { result ≡ some_next self j }
    {
        match j {
            Judgement::True => Standing {
                ended: true,
                noted: self.noted,
            },
            Judgement::False => self,
            Judgement::Unresolved(construct) => Standing {
                ended: self.ended,
                noted: Some(construct),
            },
        }
    }

    // What it comes to, where something ended it and where nothing did.
    fn close(self, ended: Judgement, passed: Judgement) -> Judgement
        ensures { result ≡ close self ended passed }
    {
        if self.ended {
            return ended;
        }
        unless_noted(self.noted, passed)
    }

    // What an And comes to.
    pub fn close_and(self) -> Judgement
        ensures { result ≡ and_close self }
    {
        self.close(Judgement::False, Judgement::True)
    }

    // What a Some comes to.
    pub fn close_some(self) -> Judgement
        ensures { result ≡ some_close self }
    {
        self.close(Judgement::True, Judgement::False)
    }
}
