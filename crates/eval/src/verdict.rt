// What checking an axiom comes to.
ghost use Rattle.std.specs.Prelude.{◌≡◌};
ghost use Rattle.eval.specs.Verdict.{words_of, is_holds, open_or_holds};

use crate::judgement::Construct;
use deck::numbers::{Element, RoleId};

#[derive(Clone, Copy, PartialEq, Eq)]
pub enum Witnesses {
    One(Element),
    Two(Element, Element),
    Three(Element, Element, Element),
}

// What of an axiom is not handled: its variety, an inverse role word, the length of a chain.
#[derive(Clone, Copy, PartialEq, Eq)]
pub enum Unhandled {
    Variety = 0,
    Inverse = 1,
    ChainLength = 2,
}

// An unhandled axiom is named by its tag, a number: an axiom is checked by a match on the tag that was copied from the deck.
#[derive(Clone, Copy, PartialEq, Eq)]
pub enum Verdict {
    Holds,
    Fails(Witnesses),
    UnhandledAxiom(u32, Unhandled),
    UnhandledConcept(Construct),
    GuardedRoleHasEdges(RoleId),
}

// The four words of a verdict in document 01; after those of a failure's witnesses the largest number.
impl From<Verdict> for [u32; 4] {
    ghost from_gives = { λ verdict words. words ≡ words_of verdict };

    fn from(verdict: Verdict) -> [u32; 4] {
        match verdict {
            Verdict::Holds => [0, 0, 0, 0],
            Verdict::Fails(Witnesses::One(x)) => [1, x.0, u32::MAX, u32::MAX],
            Verdict::Fails(Witnesses::Two(x, y)) => [1, x.0, y.0, u32::MAX],
            Verdict::Fails(Witnesses::Three(x, y, z)) => [1, x.0, y.0, z.0],
            Verdict::UnhandledAxiom(tag, part) => [2, tag, part as u32, 0],
            Verdict::UnhandledConcept(construct) => [3, u32::from(construct), 0, 0],
            Verdict::GuardedRoleHasEdges(role) => [4, role.0, 0, 0],
        }
    }
}

// Where no place failed: open if a construct was noted, else it holds.
pub fn unresolved_or_holds(noted: Option<Construct>) -> Verdict
    ensures { result ≡ open_or_holds noted }
{
    noted.map_or(Verdict::Holds, Verdict::UnhandledConcept)
}

pub fn holds(verdict: Verdict) -> bool
    ensures { result ≡ is_holds verdict }
{
    matches!(verdict, Verdict::Holds)
}
