// How the target of a class by a role is labelled.
ghost use Rattle.std.specs.Prelude.{◌≡◌, length, map, ◌<◌};
ghost use Rattle.deck.specs.Accepted.{content};
ghost use Rattle.deck.specs.Deck.{class_count, role_count, has};
ghost use Rattle.deck.specs.Reads.{list_of, Within, RealClass};
ghost use Rattle.deck.specs.Sound.{Rises};
ghost use Rattle.eval.specs.Lists.{every};
ghost use Rattle.atoms.specs.Target.{holds_range, by_injected, class_by, target_of, TargetFits};
ghost use Rattle.eval.specs.Lent.{label_width};
ghost use Rattle.atoms.specs.Label.{insert_all};
ghost use Rattle.atoms.specs.Body.{open_by, atom_row};
ghost use Rattle.atoms.specs.Large.{delta_from};

use crate::subsumers::insert_subsumers;
use deck::Deck;
use deck::numbers::{ClassId, RoleId};
use deck::rows::Span;

// By a class's row; by the class's own row with reason RunDelta; or not, with reason LabelNotClosed.
#[derive(Clone, Copy)]
pub enum Target {
    Row(ClassId),
    Delta(ClassId),
    NotClosed,
}

impl Target {
    // The class whose row labels: y's own where it is not closed.
    fn class_or(self, y: ClassId) -> ClassId
        ensures { result ≡ class_by y self }
    {
        match self {
            Target::Row(class) => class,
            Target::Delta(class) => class,
            Target::NotClosed => y,
        }
    }

    // Is it not closed?
    pub fn is_open(self) -> bool
        ensures { result ≡ open_by self }
    {
        matches!(self, Target::NotClosed)
    }

    // Does it give a RunDelta?
    pub fn is_delta(self) -> bool
        ensures { result ≡ delta_from self }
    {
        matches!(self, Target::Delta(_))
    }
}

// Does the row hold every class of the list?
fn holds_all(deck: &Deck, row: Span, list: Span) -> bool
    requires within { Within deck.now.bytes.now row }
    requires rises { Rises (list_of deck.now.bytes.now row) }
    requires within_2 { Within deck.now.bytes.now list }
    ensures { result ≡ every (map (has (list_of deck.now.bytes.now row)) (list_of deck.now.bytes.now list)) }
{
    (0..list.count).all(|i| deck.row_has(row, deck.item(list, i)))
}

// Does y's row hold every class of r's range row?
fn holds_range(deck: &Deck, y: ClassId, r: RoleId) -> bool
    requires y_bound { y.0 < class_count (content deck.now) }
    requires r_bound { r.0 < role_count (content deck.now) }
    ensures { result ≡ holds_range (content deck.now) y.0 r.0 }
{
    holds_all(deck, deck.subsumers_of(y), deck.range_of(r))
}

// By the injected class, where the row of y does not do.
fn injected_target(deck: &Deck, y: ClassId, q: Option<ClassId>) -> Target
    requires real_class { RealClass (content deck.now) q }
    ensures { result ≡ by_injected (content deck.now) y.0 q }
{
    let Some(class) = q else {
        return Target::NotClosed;
    };
    if deck.is_unsatisfiable(class) {
        return Target::Delta(y);
    }
    Target::Row(class)
}

// The label of the target of y by r.
pub fn target_label(deck: &Deck, y: ClassId, r: RoleId) -> Target
    requires y_bound { y.0 < class_count (content deck.now) }
    requires r_bound { r.0 < role_count (content deck.now) }
    ensures value { result ≡ target_of (content deck.now) y.0 r.0 }
    ensures target_fits { TargetFits (content deck.now) result }
{
    if holds_range(deck, y, r) {
        return Target::Row(y);
    }
    injected_target(deck, y, deck.injected_class(y, r))
}

// The label takes in the row that y gives, by its target by r; that target.
pub fn join_target(deck: &Deck, r: RoleId, y: ClassId, label: &mut [u64]) -> Target
    requires r_bound { r.0 < role_count (content deck.now) }
    requires y_bound { y.0 < class_count (content deck.now) }
    requires label_len { length label.old ≡ label_width (content deck.now) }
    ensures value { result ≡ target_of (content deck.now) y.0 r.0 }
    ensures taken { label.new ≡ insert_all label.old (atom_row (content deck.now) r.0 y.0) }
{
    let target = target_label(deck, y, r);
    insert_subsumers(deck, target.class_or(y), label);
    target
}
