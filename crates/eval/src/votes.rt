// The judgements of the members of a list at one element, counted.
ghost use Rattle.std.specs.Prelude.{◌≡◌, ◌+◌, ◌<◌};
ghost use Rattle.eval.specs.Relation.{outcome};
ghost use Rattle.eval.specs.Verdict.{no_votes, vote, agreement, disjointness};

use crate::judgement::{Construct, Judgement};
use crate::standing::unless_noted;

// What an axiom says of the members of a list.
#[derive(Clone, Copy)]
pub enum Relation {
    Equivalent,
    Disjoint,
}

// How many are true, false and unresolved, and the last construct left open.
#[derive(Clone, Copy)]
pub struct Votes {
    pub trues: u32,
    pub falses: u32,
    pub unresolved: u32,
    pub noted: Option<Construct>,
}

impl Votes {
    pub fn new() -> Votes
        ensures { result ≡ no_votes }
    {
        Votes {
            trues: 0,
            falses: 0,
            unresolved: 0,
            noted: None,
        }
    }

    // After one more member.
    pub fn vote(self, j: Judgement) -> Votes
        requires { self.trues + self.falses + self.unresolved < 4294967295 }
        ensures { result ≡ vote self j }
    {
        let mut votes = self;
        match j {
            Judgement::True => votes.trues += 1,
            Judgement::False => votes.falses += 1,
            Judgement::Unresolved(construct) => {
                votes.unresolved += 1;
                votes.noted = Some(construct);
            }
        }
        votes
    }

    // What the relation comes to.
    pub fn outcome(self, relation: Relation) -> Judgement
        requires { self.trues + self.unresolved < 4294967296 }
        ensures { result ≡ outcome relation self }
    {
        match relation {
            Relation::Equivalent => self.all_agree(),
            Relation::Disjoint => self.at_most_one(),
        }
    }

    // Do all members agree? An unresolved one may disagree with any other.
    fn all_agree(self) -> Judgement
        ensures { result ≡ agreement self }
    {
        let trues = self.trues;
        let falses = self.falses;
        let unresolved = self.unresolved;
        if 0 < trues && 0 < falses {
            return Judgement::False;
        }
        if 0 < trues || 0 < falses || 2 <= unresolved {
            return unless_noted(self.noted, Judgement::True);
        }
        Judgement::True
    }

    // Is at most one member true? An unresolved one may be.
    fn at_most_one(self) -> Judgement
        requires { self.trues + self.unresolved < 4294967296 }
        ensures { result ≡ disjointness self }
    {
        let trues = self.trues;
        let unresolved = self.unresolved;
        if 2 <= trues {
            return Judgement::False;
        }
        if 2 <= trues + unresolved {
            return unless_noted(self.noted, Judgement::True);
        }
        Judgement::True
    }
}
