// Marks on concepts, a bit each: for walks from a concept's number downward that read each operand list at most once.
ghost use Rattle.std.specs.Prelude.{◌≡◌, ◌*◌, ◌<◌, ◌≤◌, length, drop};
ghost use Rattle.deck.specs.Accepted.{content};
ghost use Rattle.deck.specs.Content.{deck_of};
ghost use Rattle.deck.specs.Deck.{concept_count};
ghost use Rattle.deck.specs.Reads.{list_of, ListFits};
ghost use Rattle.atoms.specs.Label.{insert_all};
ghost use Rattle.atoms.specs.Leaves.{highest_mark, Next};

use crate::labels::{has_bit, insert_bit};
use crate::lists::operand;
use deck::Deck;
use deck::concepts::ConceptExpr;
use deck::numbers::ConceptId;
use deck::rows::Span;

// The highest mark below i: word by word where a word is empty, so in a loop of its own, and no `for` over single places.
fn highest_mark(marks: &[u64], i: u32) -> Option<ConceptId>
    requires i_in_bounds { i ≤ length marks.now * 64 }
    ensures { result ≡ highest_mark marks.now i }
{
    let mut k = i;
    while 0 < k {
        if k % 64 == 0 {
            if marks[k as usize / 64 - 1] == 0 {
                k -= 64;
                continue;
            }
        }
        k -= 1;
        if has_bit(marks, k) {
            return Some(ConceptId(k));
        }
    }
    None
}

// The operands of the list from the first on, all below `owner`, are marked.
pub fn mark_operands(deck: &Deck, owner: ConceptId, list: Span, first: u32, marks: &mut [u64])
    requires list_fits { ListFits deck.now.bytes.now owner.0 list }
    requires owner_in_bounds { owner.0 ≤ length marks.old * 64 }
    ensures { marks.new ≡ insert_all marks.old (drop first (list_of deck.now.bytes.now list)) }
{
    for i in first..list.count {
        insert_bit(marks, operand(deck, owner, list, i).0);
    }
}

// The highest concept below i that is no And, marked or reached from a marked one. An And on the way marks its operands: its list is read here and, the walk going down, not again.
pub fn next_leaf(deck: &Deck, marks: &mut [u64], i: u32) -> Option<ConceptId>
    requires i_bound { i ≤ concept_count (content deck.now) }
    requires marks_len { length marks.old ≡ 256 }
    ensures { Next (content deck.now) marks.old i marks.new result }
{
    // No `for`: an And on the way marks more of what is still to come.
    let mut below = i;
    while let Some(k) = highest_mark(marks, below) {
        let expr = deck.concept_at(k);
        let ConceptExpr::And(list) = expr else {
            return Some(k);
        };
        mark_operands(deck, k, list, 0, marks);
        below = k.0;
    }
    None
}

// A walk over all that marked concepts lead to, downward from a number: each leaf once. A mark for each of 16,384 concepts, in fixed memory.
#[derive(Drop)]
pub struct Leaves<'a> {
    pub deck: Deck<'a>,
    pub marks: [u64; 256],
    pub below: u32,
    ghost bound: { below ≤ concept_count (deck_of deck.bytes.now) },
    ghost wide: { length marks ≡ 256 },
}

impl<'a> Leaves<'a> {
    ghost use Rattle.std.specs.Prelude.{◌<◌, ◌≡◌, ◌∷◌, [], drop};
    ghost use Rattle.deck.specs.Reads.{list_of, ListFits};
    ghost use Rattle.atoms.specs.Walking.{Begun};

    // All that the operands of the list from the first on lead to, all below `owner`.
    pub fn of_operands(deck: &Deck<'a>, owner: ConceptId, list: Span, first: u32) -> Leaves<'a>
        requires owner_bound { owner.0 < concept_count (content deck.now) }
        requires list_fits { ListFits deck.now.bytes.now owner.0 list }
        ensures { Begun deck.now.bytes.now (drop first (list_of deck.now.bytes.now list)) result }
    {
        let mut marks: [u64; 256] = [0; 256];
        mark_operands(deck, owner, list, first, &mut marks);
        Leaves {
            deck: *deck,
            marks,
            below: owner.0,
        }
    }

    // All that the concept leads to.
    pub fn of_concept(deck: &Deck<'a>, concept: ConceptId) -> Leaves<'a>
        requires concept_bound { concept.0 < concept_count (content deck.now) }
        ensures { Begun deck.now.bytes.now (concept.0 ∷ []) result }
    {
        let mut marks: [u64; 256] = [0; 256];
        insert_bit(&mut marks, concept.0);
        Leaves {
            deck: *deck,
            marks,
            below: concept.0 + 1,
        }
    }
}

impl Iterator for Leaves<'_> {
    ghost use Rattle.std.specs.Iterator.{at_most};
    ghost use Rattle.atoms.specs.Walking.{Stepped};

    type Item = ConceptId;

    ghost next_gives = { Stepped };

    ghost remaining = { λ s. at_most s.below };

    fn next(&mut self) -> Option<ConceptId> {
        let leaf = next_leaf(&self.deck, &mut self.marks, self.below)?;
        self.below = leaf.0;
        Some(leaf)
    }
}
