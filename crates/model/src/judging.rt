// All axioms, judged in the structure that was built.
ghost use Rattle.std.specs.Prelude.{◌≡◌, true, ◌+◌, ◌-◌, ◌*◌, ◌<◌, ◌≤◌, length, IfSome};
ghost use Rattle.std.proofs.lemmas.List.Edits.{sets};
ghost use Rattle.deck.specs.Content.{deck_of};
ghost use Rattle.deck.specs.Deck.{axiom_count, axiom_at};
ghost use Rattle.eval.specs.Equipped.{Room};
ghost use Rattle.eval.specs.InLent.{deck_in, structure, Remembered};
ghost use Rattle.eval.specs.Verdict.{verdict, words_of};
ghost use Rattle.atoms.specs.Rows.{put};
ghost use Rattle.model.specs.Outcome.{outcome_of};
ghost use Rattle.model.specs.Run.{verdicts_of, words_in};

use crate::outcome::Outcome;
use deck::Deck;
use eval::equip::is_small;
use eval::lent::{Judging, Lent};
use eval::shape::Shape;
use eval::verdict::Verdict;

// The four words of a verdict, from a place on.
// The verdicts lie in words that are lent, four an axiom and maybe more: how many there are is asked for.
fn store(verdicts: &mut [u32], at: usize, verdict: Verdict)
    requires { at + 4 ≤ length verdicts.old }
    ensures { verdicts.new ≡ sets verdicts.old at (words_of verdict) }
{
    verdicts[at..at + 4].copy_from_slice(&<[u32; 4]>::from(verdict));
}

// Have two axioms the same record? Then they are the same axiom.
fn same_axiom(deck: &Deck, a: u32, b: u32) -> bool
    requires a_bound { a < axiom_count (deck_of deck.now.bytes.now) }
    requires b_bound { b < axiom_count (deck_of deck.now.bytes.now) }
    ensures { result ≡ true → axiom_at (deck_of deck.now.bytes.now) a ≡ axiom_at (deck_of deck.now.bytes.now) b }
{
    deck.axiom_at(a) == deck.axiom_at(b)
}

// The verdict of an axiom: that of the axiom before it, `before`, where there is one and the two are the same.
fn judge_next(judging: &Judging, memo: &mut [u16], axiom: u32, before: Option<Verdict>) -> Verdict
    requires remembered { Remembered judging.now.lent memo.old }
    requires axiom_bound { «axiom» < axiom_count (deck_in judging.now.lent) }
    requires before { IfSome before (λ v. (0 < «axiom») × (v ≡ verdict (deck_in judging.now.lent) (structure judging.now.lent) (axiom_at (deck_in judging.now.lent) («axiom» - 1)))) }
    ensures is { result ≡ verdict (deck_in judging.now.lent) (structure judging.now.lent) (axiom_at (deck_in judging.now.lent) «axiom») }
    ensures kept { Remembered judging.now.lent memo.new }
{
    match before {
        Some(verdict) if same_axiom(&judging.lent.deck, axiom - 1, axiom) => verdict,
        _ => judging.check_axiom(memo, axiom),
    }
}

// The words of each axiom's verdict, in order, and the worst of what they come to.
fn judge_each(judging: &Judging, memo: &mut [u16], verdicts: &mut [u32]) -> Outcome
    requires remembered { Remembered judging.now.lent memo.old }
    requires deck_in_bounds { 4 * axiom_count (deck_in judging.now.lent) ≤ length verdicts.old }
    ensures words { verdicts.new ≡ put verdicts.old (words_in (verdicts_of judging.now.lent)) }
    ensures worst { result ≡ outcome_of 0 (verdicts_of judging.now.lent) }
{
    let mut worst = Outcome::Confirmed;
    let mut before = None;
    for i in 0..judging.lent.deck.axiom_count() {
        let verdict = judge_next(judging, memo, i, before);
        store(verdicts, i as usize * 4, verdict);
        worst = worst.max(Outcome::from(verdict));
        before = Some(verdict);
    }
    worst
}

// The same in a room of its own, of I words for the index and M for the table: it is made only for a structure that needs it.
// Not one function with eval's `axiom_in_room`, for the reason that stands there.
#[inline(never)]
fn judge_in_room<const I: usize, const M: usize>(lent: &Lent, verdicts: &mut [u32]) -> Outcome
    requires room { Room I M }
    requires deck_in_bounds { 4 * axiom_count (deck_in lent.now) ≤ length verdicts.old }
    ensures words { verdicts.new ≡ put verdicts.old (words_in (verdicts_of lent.now)) }
    ensures worst { result ≡ outcome_of 0 (verdicts_of lent.now) }
{
    let mut index: [u32; I] = [0; I];
    let mut memo: [u16; M] = [0; M];
    judge_each(&lent.indexed(&mut index), &mut memo, verdicts)
}

// Does the least room do? What is judged does not depend on it.
fn is_tiny(shape: Shape, concepts: u32) -> bool {
    shape.edges < 33 && shape.elements < 16 && concepts < 16
}

// The words of each axiom's verdict, in order, and the worst of what they come to: in the room that the structure needs.
pub fn judge_all(lent: &Lent, verdicts: &mut [u32]) -> Outcome
    requires deck_in_bounds { 4 * axiom_count (deck_in lent.now) ≤ length verdicts.old }
    ensures words { verdicts.new ≡ put verdicts.old (words_in (verdicts_of lent.now)) }
    ensures worst { result ≡ outcome_of 0 (verdicts_of lent.now) }
{
    let concepts = lent.deck.concept_count();
    if is_tiny(lent.shape, concepts) {
        return judge_in_room::<256, 251>(lent, verdicts);
    }
    if is_small(lent.shape, concepts) {
        return judge_in_room::<2048, 2039>(lent, verdicts);
    }
    judge_in_room::<163843, 262139>(lent, verdicts)
}
