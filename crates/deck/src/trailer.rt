// The trailer of 18 words at a deck's end, and the layout that it gives.
ghost use Rattle.std.specs.Prelude.{◌≡◌, ◌+◌, ◌*◌, ◌<◌, ◌≤◌, length};
ghost use Rattle.deck.specs.Word.{trailer_word};
ghost use Rattle.deck.specs.Trailer.{limit_of, width_of, part_count, part_start, words_before, counts_fit, starts_fit, layout_fits};

use crate::words;

const LIMITS: [u32; 7] = [4096, 1024, 4096, 16384, 16384, 16384, 262144];

const WIDTHS: [usize; 7] = [3, 4, 3, 4, 4, 3, 1];

fn limit(p: usize) -> u32
    requires { p < 7 }
    ensures { result ≡ limit_of p }
{
    LIMITS[p]
}

pub fn width(p: usize) -> usize
    requires { p < 7 }
    ensures { (result ≡ width_of p) × (result ≤ 4) }
{
    WIDTHS[p]
}

// The bytes of a deck that is long enough for its trailer. A part goes by its number: the trailer has the parts in order, loops count them, and
// tables are read by them; an enum would be turned into the number at each of these.
#[derive(Clone, Copy)]
pub struct Trailer<'a> {
    pub bytes: &'a [u8],
    ghost long: { 72 ≤ length bytes.now },
}

impl Trailer<'_> {
    // The k-th word of the trailer.
    #[inline(always)]
    pub fn word(&self, k: usize) -> u32
        requires { k < 18 }
        ensures { result ≡ trailer_word self.now.bytes.now k }
    {
        words::word(self.bytes, self.bytes.len() / 4 - 18 + k)
    }

    // How many records part p has.
    #[inline(always)]
    pub fn part_count(&self, p: usize) -> u32
        requires { p < 7 }
        ensures { result ≡ part_count self.now.bytes.now p }
    {
        self.word(3 + 2 * p)
    }

    // The word at which part p starts.
    #[inline(always)]
    pub fn part_start(&self, p: usize) -> u32
        requires { p < 7 }
        ensures { result ≡ part_start self.now.bytes.now p }
    {
        self.word(4 + 2 * p)
    }

    pub fn counts_fit(&self) -> bool
        ensures { result ≡ counts_fit self.now.bytes.now }
    {
        for p in 0..7 {
            if limit(p) < self.part_count(p) {
                return false;
            }
        }
        true
    }

    // The words of the records of part p.
    fn part_words(&self, p: usize) -> usize
        requires { p < 7 }
        ensures { (result ≡ part_count self.now.bytes.now p * width_of p) × (result ≤ 17179869184) }
    {
        self.part_count(p) as usize * width(p)
    }

    // The words of the parts before part p.
    fn words_before(&self, p: usize) -> usize
        requires { p < 8 }
        ensures { result ≡ words_before self.now.bytes.now p }
    {
        let mut sum = 0;
        for q in 0..p {
            sum += self.part_words(q);
        }
        sum
    }

    // Whether each part starts where the parts before it end.
    fn starts_fit(&self) -> bool
        ensures { result ≡ starts_fit self.now.bytes.now }
    {
        for p in 0..7 {
            if self.part_start(p) as usize != self.words_before(p) {
                return false;
            }
        }
        true
    }

    pub fn layout_fits(&self) -> bool
        ensures { result ≡ layout_fits self.now.bytes.now }
    {
        if !self.starts_fit() {
            return false;
        }
        let body = self.word(17) as usize;
        if body != self.words_before(7) {
            return false;
        }
        if body != self.bytes.len() / 4 - 18 {
            return false;
        }
        self.word(1) <= self.part_count(0)
    }
}
