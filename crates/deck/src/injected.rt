// The injected class of a class and a role.
ghost use Rattle.std.specs.Prelude.{◌≡◌, ◌+◌, ◌*◌, ◌<◌};
ghost use Rattle.deck.specs.Content.{deck_of};
ghost use Rattle.deck.specs.Deck.{class_count, role_count, injected_class};
ghost use Rattle.deck.specs.Trailer.{part_count};
ghost use Rattle.deck.specs.Reads.{InjectedRead, injected_key};

use crate::accepted::Deck;
use crate::numbers::{ClassId, RoleId};

impl Deck<'_> {
    // The order of the records: by class, then by role.
    // One number, so that a step of the search is one comparison.
    fn key(&self, k: usize) -> u32
        requires k_bound { k < part_count self.now.bytes.now 2 }
        ensures { result ≡ injected_key self.now.bytes.now k }
    {
        let parts = self.parts();
        parts.part_word(2, k, 0) * 1024 + parts.part_word(2, k, 1)
    }

    // The class q of the record (y, r, q). The halving stays by hand: for the library's search the bytes would first be seen as chunks of twelve,
    // and what it finds there be carried back to words by their place. `Parts::find` halves too; one function for both would take what it reads as a closure, and
    // its contract the order of what that answers.
    pub fn injected_class(&self, y: ClassId, r: RoleId) -> Option<ClassId>
        requires y_bound { y.0 < class_count (deck_of self.now.bytes.now) }
        requires r_bound { r.0 < role_count (deck_of self.now.bytes.now) }
        ensures { InjectedRead (deck_of self.now.bytes.now) y.0 r.0 result }
    {
        let parts = self.parts();
        let x = y.0 * 1024 + r.0;
        let mut lo = 0;
        let mut hi = parts.count(2);
        while lo < hi {
            let mid = lo + (hi - lo) / 2;
            let at = self.key(mid);
            if at == x {
                return Some(ClassId(parts.part_word(2, mid, 2)));
            }
            if at < x {
                lo = mid + 1;
            } else {
                hi = mid;
            }
        }
        None
    }
}
