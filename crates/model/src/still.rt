// Members of EquivalentClasses that would change nothing at an element.
ghost use Rattle.std.specs.Prelude.{◌≡◌};
ghost use Rattle.model.specs.Still.{passes, after};

use deck::numbers::ConceptId;

// What is known: nothing; that no member of another number would change anything; that none would.
#[derive(Clone, Copy, PartialEq, Eq)]
pub enum Still {
    Unknown,
    Others(ConceptId),
    All,
}

impl Still {
    // Are the pairs from member a passed over?
    pub fn passes(self, a: ConceptId) -> bool
        ensures { result ≡ passes self a }
    {
        match self {
            Still::Unknown => false,
            Still::Others(b) => a == b,
            Still::All => true,
        }
    }

    // After the pairs from member a, not passed over, which changed nothing if `same`.
    pub fn after(self, a: ConceptId, same: bool) -> Still
        ensures { result ≡ after self a same }
    {
        if !same {
            return Still::Unknown;
        }
        match self {
            Still::Unknown => Still::Others(a),
            Still::Others(_) => Still::All,
            Still::All => Still::All,
        }
    }
}
