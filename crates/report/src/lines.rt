// The lines of the text. The longest, a failure with three witnesses, has 50 bytes.
ghost use Rattle.std.specs.Prelude.{◌+◌, length, get_or};
ghost use Rattle.report.specs.Lines.{decimal, field, outcome_word, witness, verdict_text, summary_line, verdict_line, refusal_line};
ghost use Rattle.report.specs.Writes.{HasRoom, Puts};

use build::tally::Tally;
use model::outcome::Outcome;

// The text in the making: the buffer that is lent for it, and how much of that is in use.
// They stay two, as without a heap the text lies in what is lent. How much room a step needs is its own, so it is asked for (`HasRoom`).
#[derive(Drop)]
pub struct Page<'a> {
    pub buf: &'a mut [u8],
    pub used: usize,
}

impl Page<'_> {
    // Some bytes more.
    fn put(&mut self, bytes: &[u8])
        requires { HasRoom self.old (length bytes.now) }
        ensures { Puts self.old self.new bytes.now }
    {
        let end = self.used + bytes.len();
        self.buf[self.used..end].copy_from_slice(bytes);
        self.used = end;
    }

    // A number has at most ten digits.
    fn put_number(&mut self, n: u32)
        requires { HasRoom self.old 10 }
        ensures { Puts self.old self.new (decimal n) }
    {
        let mut text = [0u8; 20];
        let k = io::decimal(n as u64, &mut text);
        self.put(&text[..k]);
    }

    // A space and a number.
    fn put_field(&mut self, n: u32)
        requires { HasRoom self.old 11 }
        ensures { Puts self.old self.new (field n) }
    {
        self.put(b" ");
        self.put_number(n);
    }

    // Printed by hand: what `write!` prints is promised of a String only, which needs a heap.
    fn put_outcome(&mut self, outcome: Outcome)
        requires { HasRoom self.old 9 }
        ensures { Puts self.old self.new (outcome_word outcome) }
    {
        match outcome {
            Outcome::Confirmed => self.put(b"confirmed"),
            Outcome::Failed => self.put(b"failed"),
            Outcome::Open => self.put(b"open"),
        }
    }

    pub fn put_summary(&mut self, outcome: Outcome, t: Tally)
        requires { HasRoom self.old 64 }
        ensures { Puts self.old self.new (summary_line outcome t) }
    {
        self.put_outcome(outcome);
        self.put_field(t.elements);
        self.put_field(t.edges);
        self.put_field(t.reasons);
        self.put(b"\n");
    }

    // A word of a failure, unless it is no witness.
    fn put_witness(&mut self, w: u32)
        requires { HasRoom self.old 11 }
        ensures { Puts self.old self.new (witness w) }
    {
        if w == 4294967295 {
            return;
        }
        self.put_field(w);
    }

    // What a verdict's four words say.
    // Kinds and witnesses stay numbers here, the largest for none, as a run leaves verdicts in words that are lent.
    fn put_verdict(&mut self, words: [u32; 4])
        requires { HasRoom self.old 39 }
        ensures { Puts self.old self.new (verdict_text (get_or words 0 0) (get_or words 1 0) (get_or words 2 0) (get_or words 3 0)) }
    {
        match words {
            [0, _, _, _] => self.put(b" holds"),
            [1, first, second, third] => {
                self.put(b" fails");
                self.put_witness(first);
                self.put_witness(second);
                self.put_witness(third);
            }
            [first, second, third, _] => {
                self.put(b" open");
                self.put_field(first);
                self.put_field(second);
                self.put_field(third);
            }
        }
    }

    pub fn put_axiom(&mut self, axiom: u32, words: [u32; 4])
        requires { HasRoom self.old 50 }
        ensures { Puts self.old self.new (verdict_line «axiom» (get_or words 0 0) (get_or words 1 0) (get_or words 2 0) (get_or words 3 0)) }
    {
        self.put_number(axiom);
        self.put_verdict(words);
        self.put(b"\n");
    }

    pub fn put_refusal(&mut self, number: u32)
        requires { HasRoom self.old 64 }
        ensures { Puts self.old self.new (refusal_line number) }
    {
        self.put(b"refused");
        self.put_field(number);
        self.put(b"\n");
    }
}
