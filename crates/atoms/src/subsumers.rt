// Rows of classes, taken into a label.
ghost use Rattle.std.specs.Prelude.{◌≡◌, length, ◌<◌};
ghost use Rattle.deck.specs.Accepted.{content};
ghost use Rattle.deck.specs.Deck.{class_count, class_at};
ghost use Rattle.deck.specs.Reads.{list_of, ListFits};
ghost use Rattle.eval.specs.Lent.{label_width};
ghost use Rattle.atoms.specs.Label.{insert_all, label_of};
ghost use Rattle.atoms.specs.Floor.{satisfiable_row};

use crate::labels;
use deck::Deck;
use deck::numbers::ClassId;
use deck::rows::Span;

// The label takes the classes of a list in.
pub fn insert_row(deck: &Deck, row: Span, label: &mut [u64])
    requires list_fits { ListFits deck.now.bytes.now (class_count (content deck.now)) row }
    requires label_len { length label.old ≡ label_width (content deck.now) }
    ensures { label.new ≡ insert_all label.old (list_of deck.now.bytes.now row) }
{
    for i in 0..row.count {
        labels::insert(label, ClassId(deck.item(row, i)));
    }
}

// The label takes the row of a class in.
pub fn insert_subsumers(deck: &Deck, class: ClassId, label: &mut [u64])
    requires class_bound { class.0 < class_count (content deck.now) }
    requires label_len { length label.old ≡ label_width (content deck.now) }
    ensures { label.new ≡ insert_all label.old (class_at (content deck.now) class.0).row }
{
    insert_row(deck, deck.subsumers_of(class), label);
}

// The same, of a satisfiable class only.
pub fn insert_satisfiable(deck: &Deck, class: ClassId, label: &mut [u64])
    requires class_bound { class.0 < class_count (content deck.now) }
    requires label_len { length label.old ≡ label_width (content deck.now) }
    ensures { label.new ≡ insert_all label.old (satisfiable_row (content deck.now) class.0) }
{
    if deck.is_unsatisfiable(class) {
        return;
    }
    insert_subsumers(deck, class, label);
}

// The label becomes the row of a class.
pub fn load_row(deck: &Deck, class: ClassId, label: &mut [u64])
    requires class_bound { class.0 < class_count (content deck.now) }
    requires label_len { length label.old ≡ label_width (content deck.now) }
    ensures { label.new ≡ label_of (label_width (content deck.now)) (class_at (content deck.now) class.0).row }
{
    labels::clear(label);
    insert_subsumers(deck, class, label);
}
