// Tables for expanding by the facts: the facts by class, and the classes with a fact.
ghost use Rattle.std.specs.Prelude.{◌≡◌, ◌&&◌, ℕ, ◌+◌, ◌*◌, ◌<◌, ◌≤◌, length, get_or, set, true, IfSome};
ghost use Rattle.std.specs.Option.{ForSome};
ghost use Rattle.deck.specs.Accepted.{content};
ghost use Rattle.deck.specs.Content.{deck_of};
ghost use Rattle.deck.specs.Deck.{class_count, fact_count, fact_at};
ghost use Rattle.eval.specs.Lent.{label_width};
ghost use Rattle.atoms.specs.Label.{label_has};
ghost use Rattle.model.specs.FactIndex.{Indexed, Marked, Passed, entry_of, class_or, FactOf};

use atoms::labels::{after, from_bit, insert};
use deck::Deck;
use deck::numbers::ClassId;

// What an entry of a table says: one less than it. 0 is none, so that a table of zeros, in fixed memory, says nothing.
pub fn entry(table: &[u32], at: usize) -> Option<u32>
    requires { at < length table.now }
    ensures { get_or table.now at 0 ≡ entry_of result }
{
    table[at].checked_sub(1)
}

// The facts of a deck by class, and the classes with a fact.
#[derive(Clone, Copy)]
pub struct FactIndex<'t> {
    pub deck: Deck<'t>,
    // At a class its first fact, and after the classes at a fact the next of its class.
    pub words: &'t [u32],
    // The classes that a fact is of.
    pub mask: &'t [u64],
    pub ghost indexed: { Indexed (deck_of deck.bytes.now) 0 words.now },
    pub ghost room: { class_count (deck_of deck.bytes.now) + fact_count (deck_of deck.bytes.now) ≤ length words.now },
    pub ghost marked: { Marked (deck_of deck.bytes.now) (fact_count (deck_of deck.bytes.now)) mask.now },
    pub ghost wide: { label_width (deck_of deck.bytes.now) ≤ length mask.now },
}

// The facts of a class, in order.
#[derive(Drop)]
pub struct FactsOf<'t> {
    index: FactIndex<'t>,
    class: ClassId,
    next: Option<u32>,
    ghost own: { ForSome next (λ i. FactOf (deck_of index.deck.bytes.now) class.0 i) },
}

impl<'t> FactIndex<'t> {
    ghost use Rattle.model.specs.FactWalk.{facts_from, left};

    // The facts of a class, in order.
    pub fn facts_of(&self, class: ClassId) -> FactsOf<'t>
        requires class_bound { class.0 < class_count (content self.now.deck) }
        ensures { left result ≡ facts_from (content self.now.deck) class.0 0 }
    {
        FactsOf {
            index: *self,
            class,
            next: entry(self.words, class.0 as usize),
        }
    }

    // The next class from k on that the label has and that a fact is of. A `while`, as it goes on by words and not class by class.
    pub fn next_class(&self, label: &[u64], k: u32) -> Option<ClassId>
        requires label_len { length label.now ≡ label_width (content self.now.deck) }
        requires k_bound { k ≤ class_count (content self.now.deck) }
        ensures passed { Passed (λ i. label_has label.now i && label_has self.now.mask.now i) (class_count (content self.now.deck)) k (class_or (class_count (content self.now.deck)) result) }
        ensures met { IfSome result (λ c. (c.0 < class_count (content self.now.deck)) × (label_has label.now c.0 ≡ true)) }
    {
        let count = self.deck.class_count();
        let mut i = k;
        while i < count {
            let j = i as usize / 64;
            let rest = from_bit(label[j] & self.mask[j], (i % 64) as u64);
            if rest % 2 == 1 {
                return Some(ClassId(i));
            }
            i = after(rest, i);
        }
        None
    }
}

impl Iterator for FactsOf<'_> {
    ghost use Rattle.std.specs.Iterator.{YieldsFirst, item_count};
    ghost use Rattle.model.specs.FactWalk.{left};

    type Item = u32;

    ghost next_gives = { YieldsFirst left };

    ghost remaining = { item_count left };

    fn next(&mut self) -> Option<u32> {
        let fact = self.next?;
        let classes = self.index.deck.class_count() as usize;
        self.next = entry(self.index.words, classes + fact as usize);
        Some(fact)
    }
}

// Fact i, of class k, becomes the first of its class, and the one that was follows it.
fn put_first(index: &mut [u32], classes: u32, i: u32, k: ClassId)
    requires i_in_bounds { classes + i < length index.old }
    requires k_lt_classes { k.0 < classes }
    requires i_bound { i < 16384 }
    ensures { index.new ≡ set (set index.old (classes + i) (get_or index.old k.0 0)) k.0 (i + 1) }
{
    index[classes as usize + i as usize] = index[k.0 as usize];
    index[k.0 as usize] = i + 1;
}

// The facts by class, into a table of zeros: from the last fact down.
pub fn index_facts(deck: &Deck, index: &mut [u32])
    requires deck_in_bounds { class_count (content deck.now) + fact_count (content deck.now) ≤ length index.old }
    requires by_index { (k : ℕ) → get_or index.old k 0 ≡ 0 }
    ensures { Indexed (content deck.now) 0 index.new }
{
    let classes = deck.class_count();
    for i in (0..deck.fact_count()).rev() {
        let record = deck.fact_at(i);
        put_first(index, classes, i, record.from);
    }
}

// The classes that a fact is of.
pub fn mark_facts(deck: &Deck, mask: &mut [u64])
    requires deck_in_bounds { class_count (content deck.now) ≤ length mask.old * 64 }
    ensures { Marked (content deck.now) (fact_count (content deck.now)) mask.new }
{
    for i in 0..deck.fact_count() {
        let record = deck.fact_at(i);
        insert(mask, record.from);
    }
}
