// Seeding: the elements of the satisfiable classes.
ghost use Rattle.std.specs.Prelude.{◌≡◌, ◌<◌, ◌≤◌, length};
ghost use mathlib.Core.List.{[], flat_map};
ghost use Rattle.deck.specs.Content.{deck_of};
ghost use Rattle.deck.specs.Deck.{class_count, fact_count, fact_at};
ghost use Rattle.atoms.specs.Label.{insert_all, label_of};
ghost use Rattle.build.specs.Intern.{interned};
ghost use Rattle.build.specs.Prints.{Chained};
ghost use Rattle.build.specs.Seed.{ends_of, Named, is_seeded, row_label};
ghost use Rattle.build.specs.Building.{HasPlace, Interns, Unseeded, Seeds, deck_in, model_of};

use crate::building::Build;
use atoms::labels;
use atoms::subsumers::load_row;
use deck::Deck;
use deck::numbers::{ClassId, Element};

// The words stay a slice whose length is asked for, as the functions of labels take slices.
// The classes of a fact become bits.
fn insert_fact(deck: &Deck, fact: u32, words: &mut [u64])
    requires fact_bound { fact < fact_count (deck_of deck.now.bytes.now) }
    requires words_len { length words.old ≡ 64 }
    ensures { words.new ≡ insert_all words.old (ends_of (fact_at (deck_of deck.now.bytes.now) fact)) }
{
    let record = deck.fact_at(fact);
    labels::insert(words, record.from);
    labels::insert(words, record.to);
}

// The classes of all facts as bits.
fn load_facts(deck: &Deck, words: &mut [u64])
    requires words_len { length words.old ≡ 64 }
    ensures { words.new ≡ label_of 64 (flat_map ends_of (deck_of deck.now.bytes.now).facts) }
{
    labels::clear(words);
    for i in 0..deck.fact_count() {
        insert_fact(deck, i, words);
    }
}

// Which classes that are not real a fact has, as bits.
fn load_named(deck: &Deck, words: &mut [u64])
    requires words_len { length words.old ≡ 64 }
    ensures { Named (deck_of deck.now.bytes.now) words.new }
{
    if deck.class_count() <= deck.real_count() {
        return;
    }
    load_facts(deck, words);
}

// A satisfiable class, real or of a fact.
fn is_seeded(deck: &Deck, named: &[u64], class: ClassId) -> bool
    requires class_bound { class.0 < class_count (deck_of deck.now.bytes.now) }
    requires named_len { length named.now ≡ 64 }
    requires named { Named (deck_of deck.now.bytes.now) named.now }
    ensures { result ≡ is_seeded (deck_of deck.now.bytes.now) class.0 }
{
    if deck.is_unsatisfiable(class) {
        return false;
    }
    if class.0 < deck.real_count() {
        return true;
    }
    labels::has_bit(named, class.0)
}

impl Build<'_, '_> {
    // A class is interned by its row.
    fn intern_row(&mut self, class: ClassId, heads: &mut [u32], links: &mut [u32]) -> Element
        requires class_bound { class.0 < class_count (deck_in self.old) }
        requires place { HasPlace self.old }
        requires elements_in_bounds { self.old.tally.elements < length links.old }
        requires chained { Chained (model_of self.old).labels heads.old links.old }
        ensures interns { Interns self.old self.new (row_label (deck_in self.old) self.old.plan.floor.now class.0) result.0 }
        ensures chained_after { Chained (interned (model_of self.old).labels (row_label (deck_in self.old) self.old.plan.floor.now class.0)) heads.new links.new }
    {
        let deck = self.plan.deck;
        load_row(&deck, class, self.label);
        self.intern_by(heads, links)
    }

    // The classes by rising number.
    fn seed_classes(&mut self, named: &[u64], heads: &mut [u32], links: &mut [u32])
        requires unseeded { Unseeded self.old }
        requires named_len { length named.now ≡ 64 }
        requires named { Named (deck_in self.old) named.now }
        requires links_len { class_count (deck_in self.old) ≤ length links.old }
        requires chained { Chained [] heads.old links.old }
        ensures { Seeds self.old self.new }
    {
        let deck = self.plan.deck;
        for k in 0..deck.class_count() {
            if is_seeded(&deck, named, ClassId(k)) {
                let _element = self.intern_row(ClassId(k), heads, links);
            }
        }
    }

    // With a table for up to N classes: its room is made in a frame of its own.
    #[inline(never)]
    fn seed_with<const N: usize>(&mut self)
        requires slots { (0 < N) × (N ≤ 4096) }
        requires unseeded { Unseeded self.old }
        requires deck_bound { class_count (deck_in self.old) ≤ N }
        ensures { Seeds self.old self.new }
    {
        let mut named: [u64; 64] = [0; 64];
        let mut heads: [u32; N] = [0; N];
        let mut links: [u32; N] = [0; N];
        let deck = self.plan.deck;
        load_named(&deck, &mut named);
        self.seed_classes(&named, &mut heads, &mut links);
    }

    // The elements of the seeded classes, by rising class.
    pub fn seed(&mut self)
        requires { Unseeded self.old }
        ensures { Seeds self.old self.new }
    {
        let deck = self.plan.deck;
        if deck.class_count() <= 256 {
            return self.seed_with::<256>();
        }
        self.seed_with::<4096>()
    }
}
