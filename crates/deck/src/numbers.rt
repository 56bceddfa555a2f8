// The numbers of a deck and of a structure, each with a wrapper of its own. What a number is below is its deck's to say, which its type
// does not name: so functions ask for it (as `concept.0 < concept_count ..`), and what reads a deck promises it.
ghost use Rattle.std.specs.Prelude.{◌≡◌};
ghost use Rattle.deck.specs.Numbers.{inverse_word, role_number};

#[derive(Clone, Copy, Debug, PartialEq, Eq, PartialOrd, Ord, Hash)]
pub struct ClassId(pub u32);

#[derive(Clone, Copy, Debug, PartialEq, Eq, PartialOrd, Ord, Hash)]
pub struct RoleId(pub u32);

#[derive(Clone, Copy, Debug, PartialEq, Eq, PartialOrd, Ord, Hash)]
pub struct IndividualId(pub u32);

#[derive(Clone, Copy, Debug, PartialEq, Eq, PartialOrd, Ord, Hash)]
pub struct ConceptId(pub u32);

// An element of a structure.
#[derive(Clone, Copy, Debug, PartialEq, Eq, PartialOrd, Ord, Hash)]
pub struct Element(pub u32);

// A word of a deck, counted from word 0.
#[derive(Clone, Copy, Debug, PartialEq, Eq, PartialOrd, Ord, Hash)]
pub struct WordIndex(pub u32);

// Twice a role's number, plus 1 if inverse.
#[derive(Clone, Copy, Debug, PartialEq, Eq, PartialOrd, Ord, Hash)]
pub struct RoleWord(pub u32);

impl RoleWord {
    pub fn is_inverse(self) -> bool
        ensures { result ≡ inverse_word self.0 }
    {
        self.0 % 2 == 1
    }

    pub fn role_id(self) -> RoleId
        ensures { result.0 ≡ role_number self.0 }
    {
        RoleId(self.0 / 2)
    }
}
