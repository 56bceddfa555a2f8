// A run: from a deck to its outcome.
ghost use Rattle.std.specs.Prelude.{◌≡◌, ◌+◌, ◌*◌, ◌<◌, ◌≤◌, length};
ghost use Rattle.deck.specs.Content.{deck_of};
ghost use Rattle.deck.specs.Deck.{axiom_count};
ghost use Rattle.eval.specs.InLent.{deck_in};
ghost use Rattle.eval.specs.Lent.{label_width, structure_of};
ghost use Rattle.model.specs.declared.outcome.Outcome.{Outcome};
ghost use Rattle.build.specs.declared.tally.Tally.{Tally};
ghost use Rattle.build.specs.Model.{lent, top};
ghost use Rattle.model.specs.Outcome.{outcome_of};
ghost use Rattle.model.specs.Phases.{number, Constructed};
ghost use Rattle.atoms.specs.Rows.{put};
ghost use Rattle.model.specs.Run as spec;
ghost use Rattle.model.specs.Run.{ran, shape_in, verdicts_of, words_in};
ghost use Rattle.model.specs.Trust.{Trusted};

use crate::judging::judge_all;
use crate::need::Task;
use crate::outcome::Outcome;
use crate::phases::construct;
use atoms::floor::compute_top_floor;
use build::bounds::Bounds;
use build::plan::Plan;
use build::tally::Tally;
use deck::refusal::Refusal;
use eval::labels::label_width;
use eval::lent::Lent;
use eval::shape::Shape;

// The floor and the label in the making are the build's own; the rest is lent.
fn build(task: &Task, labels: &mut [u64], edges: &mut [[u32; 3]], log: &mut [u32]) -> Tally
    requires labels_len { (top (deck_of task.now.deck.bytes.now) task.now.bounds + 1) * label_width (deck_of task.now.deck.bytes.now) ≤ length labels.old }
    requires edges_len { task.now.bounds.max_edges < length edges.old }
    ensures { Constructed (deck_of task.now.deck.bytes.now) task.now.bounds (number task.now.last) (lent labels.old edges.old log.old) (lent labels.new edges.new log.new) result }
{
    let width = label_width(&task.deck);
    let mut floor: [u64; 64] = [0; 64];
    let mut label: [u64; 64] = [0; 64];
    compute_top_floor(&task.deck, &mut floor[..width]);
    let plan = Plan {
        deck: task.deck,
        bounds: task.bounds,
        floor: &floor[..width],
    };
    construct(plan, task.last, &mut label[..width], labels, edges, log)
}

// The axioms in the structure that was built, and the outcome: open at best where a reason was given.
fn judge(lent: &Lent, reasons: u32, verdicts: &mut [u32]) -> Outcome
    requires { 4 * axiom_count (deck_in lent.now) ≤ length verdicts.old }
    ensures outcome { result ≡ outcome_of reasons (verdicts_of lent.now) }
    ensures words { verdicts.new ≡ put verdicts.old (words_in (verdicts_of lent.now)) }
{
    let worst = judge_all(lent, verdicts);
    if reasons == 0 {
        return worst;
    }
    worst.max(Outcome::Open)
}

// Reads the deck, builds its structure within the bounds up to the last phase, and judges every axiom in it.
// The last phase stays a number here, as C gives it: `Task::read` makes a `Phase` of it and refuses any other.
pub fn run(
    deck: &[u8],
    bounds: Bounds,
    last_phase: u32,
    labels: &mut [u64],
    edges: &mut [[u32; 3]],
    log: &mut [u32],
    verdicts: &mut [u32],
) -> Result<(Outcome, Tally), Refusal>
    ensures is { ran result labels.new edges.new log.new verdicts.new
        ≡ spec.run deck.now bounds last_phase labels.old edges.old log.old verdicts.old }
    ensures trusted { (outcome : Outcome) (t : Tally) → result ≡ Ok (outcome, t)
        → Trusted (deck_of deck.now) (structure_of (deck_of deck.now) labels.new edges.new (shape_in t)) verdicts.new outcome }
{
    let task = Task::read(
        deck,
        bounds,
        last_phase,
        labels.len(),
        edges.len(),
        verdicts.len(),
    )?;
    let t = build(&task, labels, edges, log);
    let lent = Lent {
        deck: task.deck,
        labels,
        edges,
        shape: Shape {
            elements: t.elements,
            edges: t.edges,
        },
    };
    Ok((judge(&lent, t.reasons, verdicts), t))
}
