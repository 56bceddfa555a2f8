// What a run needs of its bounds and buffers: refusals 8 and 9, after those of the deck.
ghost use Rattle.std.specs.Prelude.{◌≡◌, true, ◌&&◌, ◌+◌, ◌*◌, ◌≤◌, leb, IfOk, OnOk, Ok, Err};
ghost use Rattle.deck.specs.Content.{deck_of};
ghost use Rattle.deck.specs.declared.refusal.Refusal.{Refusal};
ghost use Rattle.eval.specs.Lent.{label_width};
ghost use Rattle.build.specs.Model as building;
ghost use Rattle.model.specs.Phases.{number};
ghost use Rattle.model.specs.Run.{bounds_fit, room_fits, run_refusal};

use crate::phases::Phase;
use build::bounds::Bounds;
use deck::Deck;
use deck::refusal::Refusal;
use eval::labels::label_width;

// A deck, the bounds of the run, and the phase that ends building.
#[derive(Clone, Copy)]
pub struct Task<'a> {
    pub deck: Deck<'a>,
    pub bounds: Bounds,
    pub last: Phase,
    pub ghost within: { bounds_fit bounds (number last) ≡ true },
}

fn are_small(bounds: Bounds) -> bool
    ensures { result ≡ (leb bounds.max_elements 65535 && (leb bounds.max_rounds 65535 && leb bounds.max_edges 1048575)) }
{
    bounds.max_elements <= 65535 && bounds.max_rounds <= 65535 && bounds.max_edges <= 1048575
}

impl<'a> Task<'a> {
    // The larger of N and the bound on elements.
    fn top(&self) -> u32
        ensures { (result ≡ building.top (deck_of self.now.deck.bytes.now) self.now.bounds) × (result ≤ 65535) }
    {
        self.deck.class_count().max(self.bounds.max_elements)
    }

    // Words for the labels of one element more.
    fn label_need(&self) -> usize
        ensures { result ≡ (building.top (deck_of self.now.deck.bytes.now) self.now.bounds + 1) * label_width (deck_of self.now.deck.bytes.now) }
    {
        (self.top() as usize + 1) * label_width(&self.deck)
    }

    // Are buffers of these lengths long enough?
    #[tactic(auto, unfolding(crate::specs::Run::room_fits))]
    fn room_fits(&self, labels: usize, edges: usize, verdicts: usize) -> bool
        ensures { result ≡ room_fits (deck_of self.now.deck.bytes.now) self.now.bounds labels edges verdicts }
    {
        self.label_need() <= labels
            && self.bounds.max_edges as usize + 1 <= edges
            && 4 * self.deck.axiom_count() as usize <= verdicts
    }

    // What a run that lends buffers of these lengths is to do, or the first refusal.
    pub fn read(
        deck: &'a [u8],
        bounds: Bounds,
        last_phase: u32,
        labels: usize,
        edges: usize,
        verdicts: usize,
    ) -> Result<Task<'a>, Refusal>
        ensures read { IfOk result (λ task. (task.deck.bytes.now ≡ deck.now) × (task.bounds ≡ bounds) × (number task.last ≡ last_phase)) }
        ensures passed { OnOk result (run_refusal deck.now bounds last_phase labels edges verdicts ≡ Ok tt) }
        ensures refused { (refusal : Refusal) → result ≡ Err refusal → run_refusal deck.now bounds last_phase labels edges verdicts ≡ Err refusal }
    {
        let deck = Deck::read(deck)?;
        if !are_small(bounds) {
            return Err(Refusal::BadBounds);
        }
        let last = Phase::try_from(last_phase)?;
        let task = Task { deck, bounds, last };
        if !task.room_fits(labels, edges, verdicts) {
            return Err(Refusal::ShortBuffer);
        }
        Ok(task)
    }
}
