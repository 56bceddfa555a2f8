// The text of a run.
ghost use Rattle.std.specs.Prelude.{◌≡◌, ◌+◌, ◌*◌, ◌≤◌, ◌∷◌, [], length, get_or};
ghost use Rattle.deck.specs.Content.{IsAccepted, deck_of};
ghost use Rattle.deck.specs.Deck.{axiom_count};
ghost use Rattle.model.specs.declared.outcome.Outcome.{Outcome};
ghost use Rattle.build.specs.declared.tally.Tally.{Tally};
ghost use Rattle.report.specs.Text.{axiom_lines, answer_text, program_run, run_text, program_text};
ghost use Rattle.report.specs.Writes.{HasRoom, Puts, Wrote};

use crate::lines::Page;
use crate::room::blank;
use build::bounds::Bounds;
use build::tally::Tally;
use deck::Deck;
use deck::refusal::Refusal;
use model::outcome::Outcome;
use model::run::run;

// The four words of the verdict on axiom k.
fn words_at(verdicts: &[u32], k: u32) -> [u32; 4]
    requires { k * 4 + 4 ≤ length verdicts.now }
    ensures { result ≡ get_or verdicts.now (k * 4) 0 ∷ get_or verdicts.now (k * 4 + 1) 0 ∷ get_or verdicts.now (k * 4 + 2) 0 ∷ get_or verdicts.now (k * 4 + 3) 0 ∷ [] }
{
    let i = k as usize * 4;
    [
        verdicts[i],
        verdicts[i + 1],
        verdicts[i + 2],
        verdicts[i + 3],
    ]
}

impl Page<'_> {
    // The lines of the first `axioms` axioms.
    // How many axioms there are stands beside the verdicts, whose room may be longer.
    fn put_axioms(&mut self, verdicts: &[u32], axioms: u32)
        requires words { 4 * axioms ≤ length verdicts.now }
        requires room { HasRoom self.old (50 * axioms) }
        ensures { Puts self.old self.new (axiom_lines verdicts.now axioms) }
    {
        for k in 0..axioms {
            self.put_axiom(k, words_at(verdicts, k));
        }
    }

    // The text of a run's answer; a run that is done has accepted the deck and had room for the verdicts.
    fn put_answer(
        &mut self,
        bytes: &[u8],
        verdicts: &[u32],
        answer: Result<(Outcome, Tally), Refusal>,
    )
        requires room { HasRoom self.old 204864 }
        requires verdicts_len_bound { length verdicts.now ≤ 16384 }
        requires accepted { (outcome : Outcome) (t : Tally) → answer ≡ Ok (outcome, t) → IsAccepted bytes.now × (4 * axiom_count (deck_of bytes.now) ≤ length verdicts.now) }
        ensures { Puts self.old self.new (answer_text answer (axiom_count (deck_of bytes.now)) verdicts.now) }
    {
        match answer {
            Err(refusal) => self.put_refusal(refusal.number()),
            Ok((outcome, t)) => {
                let deck = Deck { bytes };
                self.put_summary(outcome, t);
                self.put_axioms(verdicts, deck.axiom_count());
            }
        }
    }

    // The text of the program's run of a deck.
    fn put_run(&mut self, deck: &[u8])
        requires { HasRoom self.old 204864 }
        ensures { Puts self.old self.new (run_text deck.now (program_run deck.now)) }
    {
        // Labels for N up to 256: 256 + 1 of them, of four words each.
        let mut labels: [u64; 1028] = blank(0);
        // One edge more than the bound.
        let mut edges: [[u32; 3]; 1001] = blank([0; 3]);
        // Room for one reason.
        let mut log: [u32; 3] = blank(0);
        // Four words an axiom, for A up to 4,096.
        let mut verdicts: [u32; 16384] = blank(0);
        let bounds = Bounds {
            max_elements: 255,
            max_edges: 1000,
            max_rounds: 100,
        };
        let answer = run(
            deck,
            bounds,
            4,
            &mut labels,
            &mut edges,
            &mut log,
            &mut verdicts,
        );
        self.put_answer(deck, &verdicts, answer);
    }

    // The text of the program: of the run, or of the refusal of a longer input.
    fn put_text(&mut self, input: &[u8])
        requires { HasRoom self.old 204864 }
        ensures { Puts self.old self.new (program_text input.now) }
    {
        if 65536 < input.len() {
            return self.put_refusal(Refusal::ShortBuffer.number());
        }
        self.put_run(input);
    }
}

// Writes the text to the start of a buffer in which any text fits, and answers its length.
pub fn write_text(buf: &mut [u8], input: &[u8]) -> usize
    requires { 204864 ≤ length buf.old }
    ensures { Wrote buf.old 0 (program_text input.now) buf.new result }
{
    let mut page = Page { buf, used: 0 };
    page.put_text(input);
    page.used
}
