// What judging a concept at an element comes to.
#[derive(Clone, Copy, PartialEq, Eq)]
pub enum Judgement {
    False,
    True,
    Unresolved(Construct),
}

// A construct that is left open, with its tag in a deck. A Some is left open where its role word is inverse.
#[derive(Clone, Copy, PartialEq, Eq)]
pub enum Construct {
    Nominal = 3,
    SelfRestriction = 4,
    Not = 5,
    Or = 7,
    InverseSome = 8,
    All = 9,
    Min = 10,
    Max = 11,
}

// The tag of a construct that is never left open, or of none.
#[derive(Clone, Copy, Debug, PartialEq, Eq)]
pub struct UnknownConstruct(pub u32);

impl TryFrom<u32> for Construct {
    ghost use Rattle.std.specs.Prelude.{◌≡◌};
    ghost use Rattle.eval.specs.Construct.{construct_of};

    type Error = UnknownConstruct;

    ghost try_from_gives = { λ tag answer. answer ≡ construct_of tag };

    fn try_from(tag: u32) -> Result<Construct, UnknownConstruct> {
        match tag {
            3 => Ok(Construct::Nominal),
            4 => Ok(Construct::SelfRestriction),
            5 => Ok(Construct::Not),
            7 => Ok(Construct::Or),
            8 => Ok(Construct::InverseSome),
            9 => Ok(Construct::All),
            10 => Ok(Construct::Min),
            11 => Ok(Construct::Max),
            _ => Err(UnknownConstruct(tag)),
        }
    }
}

impl From<bool> for Judgement {
    ghost use Rattle.std.specs.Prelude.{◌≡◌};
    ghost use Rattle.eval.specs.Judge.{truth};

    ghost from_gives = { λ holds judgement. judgement ≡ truth holds };

    fn from(holds: bool) -> Judgement {
        if holds {
            Judgement::True
        } else {
            Judgement::False
        }
    }
}

impl From<Construct> for u32 {
    ghost use Rattle.std.specs.Prelude.{◌≡◌};
    ghost use Rattle.eval.specs.Construct.{tag_of};

    ghost from_gives = { λ construct tag. tag ≡ tag_of construct };

    fn from(construct: Construct) -> u32 {
        construct as u32
    }
}
