// The words of the records of the parts, in a deck that has passed the tests 1 to 4.
ghost use Rattle.std.specs.Prelude.{◌≡◌, ◌+◌, ◌*◌, ◌<◌};
ghost use Rattle.deck.specs.Answer.{Framed};
ghost use Rattle.deck.specs.Trailer.{part_count, width_of, real_of};
ghost use Rattle.deck.specs.Parts.{part_place, part_word, list_word};

use crate::trailer::{Trailer, width};
use crate::words;

// The bytes of a deck whose trailer is in order: its parts lie where that says.
// Part, record and field stay three numbers, each bounded where a word is asked for: a struct of them with an invariant would be made for each word.
#[derive(Clone, Copy)]
pub struct Parts<'a> {
    pub bytes: &'a [u8],
    pub ghost framed: { Framed bytes.now },
}

impl<'a> Parts<'a> {
    #[inline(always)]
    pub fn trailer(&self) -> Trailer<'a>
        ensures { result.bytes.now ≡ self.now.bytes.now }
    {
        Trailer { bytes: self.bytes }
    }

    // How many records part p has.
    #[inline(always)]
    pub fn count(&self, p: usize) -> usize
        requires { p < 7 }
        ensures { result ≡ part_count self.now.bytes.now p }
    {
        self.trailer().part_count(p) as usize
    }

    // How many classes are real.
    pub fn real(&self) -> usize
        ensures { result ≡ real_of self.now.bytes.now }
    {
        self.trailer().word(1) as usize
    }

    // The place of field f of record k of part p, counted in words from word 0.
    #[inline(always)]
    pub fn part_place(&self, p: usize, k: usize, f: usize) -> usize
        requires p_bound { p < 7 }
        requires k_bound { k < part_count self.now.bytes.now p }
        requires f_bound { f < width_of p }
        ensures { result ≡ part_place self.now.bytes.now p k f }
    {
        self.trailer().part_start(p) as usize + k * width(p) + f
    }

    // Field f of record k of part p.
    #[inline(always)]
    pub fn part_word(&self, p: usize, k: usize, f: usize) -> u32
        requires p_bound { p < 7 }
        requires k_bound { k < part_count self.now.bytes.now p }
        requires f_bound { f < width_of p }
        ensures { result ≡ part_word self.now.bytes.now p k f }
    {
        words::word(self.bytes, self.part_place(p, k, f))
    }

    // A word of lists.
    #[inline(always)]
    pub fn list_word(&self, i: usize) -> u32
        requires { i < part_count self.now.bytes.now 6 }
        ensures { result ≡ list_word self.now.bytes.now i }
    {
        self.part_word(6, i, 0)
    }
}
