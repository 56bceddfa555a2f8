// Rows: words of lists, from a start, so many.
ghost use Rattle.std.specs.Prelude.{◌≡◌, ◌+◌, ◌<◌, ◌≤◌, true, get_or};
ghost use Rattle.deck.specs.Trailer.{part_count, width_of};
ghost use Rattle.deck.specs.Rows.{row_below, row_shape, row_rises, row_has};
ghost use Rattle.deck.specs.Deck.{has};
ghost use Rattle.deck.specs.Sound.{Rises};
ghost use Rattle.deck.specs.Reads.{list_of, span_at, Within};

use crate::accepted::Deck;
use crate::parts::Parts;
use crate::words;

// A row or a list: so many words of lists, from a start. What its words are below goes by whose it is, so that is no fact of the type but
// asked for where it is read (`ListFits`).
// So is that a place lies in it.
#[derive(Clone, Copy, Debug, PartialEq, Eq)]
pub struct Span {
    pub start: u32,
    pub count: u32,
}

impl Parts<'_> {
    // In these methods start and count stay two numbers, as sizes: a `Span` would be taken apart in each.
    // Whether each word of the row is below n. The pass goes to the row's end whatever it finds, so that
    // the compiler tests several words at once; the one of row_rises too.
    #[inline(always)]
    fn row_below(&self, start: usize, count: usize, n: usize) -> bool
        requires { start + count ≤ part_count self.now.bytes.now 6 }
        ensures { result ≡ row_below self.now.bytes.now start count n }
    {
        if n > 4294967295 {
            words::are_bytes(self.bytes);
            return true; // as any word is
        }
        let bound = n as u32;
        let mut below = true;
        for i in 0..count {
            below = below & (self.list_word(start + i) < bound);
        }
        below
    }

    // Whether the row lies within lists, and each word of it is below n.
    #[inline(always)]
    pub fn row_shape(&self, start: u32, count: u32, n: usize) -> bool
        ensures { result ≡ row_shape self.now.bytes.now start count n }
    {
        let from = start as usize;
        let many = count as usize;
        if from + many <= self.count(6) {
            self.row_below(from, many, n)
        } else {
            false
        }
    }

    // Whether each word of the row but the last is below the next.
    pub fn row_rises(&self, start: usize, count: usize) -> bool
        requires { start + count ≤ part_count self.now.bytes.now 6 }
        ensures { result ≡ row_rises self.now.bytes.now start count }
    {
        let mut rises = true;
        for i in 0..count.saturating_sub(1) {
            rises = rises & (self.list_word(start + i) < self.list_word(start + i + 1));
        }
        rises
    }

    // Whether a word of a row that rises is x. The halving stays by hand: for the library's search the bytes would first be seen as chunks of
    // four, and what it finds there be carried back to words by their place, which is longer than this loop.
    // By a number of 32 bits, as the words are: by a larger one, each step of a halving would compare twice.
    #[inline(always)]
    fn find_word(&self, start: usize, count: usize, x: u32) -> bool
        requires count_bound { start + count ≤ part_count self.now.bytes.now 6 }
        requires count_value { row_rises self.now.bytes.now start count ≡ true }
        ensures { result ≡ row_has self.now.bytes.now start count x }
    {
        let mut lo = 0;
        let mut hi = count;
        while lo < hi {
            let mid = lo + (hi - lo) / 2;
            let at = self.list_word(start + mid);
            if at == x {
                return true;
            }
            if at < x {
                lo = mid + 1;
            } else {
                hi = mid;
            }
        }
        false
    }

    // The same for any number.
    #[inline(always)]
    pub fn find(&self, start: usize, count: usize, x: usize) -> bool
        requires count_bound { start + count ≤ part_count self.now.bytes.now 6 }
        requires count_value { row_rises self.now.bytes.now start count ≡ true }
        ensures { result ≡ row_has self.now.bytes.now start count x }
    {
        if x > 4294967295 {
            words::are_bytes(self.bytes);
            return false; // as no word is
        }
        self.find_word(start, count, x as u32)
    }
}

impl Deck<'_> {
    // The row or list whose start and count stand at fields f and f + 1 of record k of part p.
    pub(crate) fn span(&self, p: usize, k: usize, f: usize) -> Span
        requires p_bound { p < 6 }
        requires k_bound { k < part_count self.now.bytes.now p }
        requires f_bound { f + 1 < width_of p }
        ensures { result ≡ span_at self.now.bytes.now p k f }
    {
        let parts = self.parts();
        Span {
            start: parts.part_word(p, k, f),
            count: parts.part_word(p, k, f + 1),
        }
    }

    // Word i of a list.
    pub fn item(&self, list: Span, i: u32) -> u32
        requires within { Within self.now.bytes.now list }
        requires i_lt_count { i < list.count }
        ensures { result ≡ get_or (list_of self.now.bytes.now list) i 0 }
    {
        self.parts().list_word(list.start as usize + i as usize)
    }

    // Whether x is in a row.
    pub fn row_has(&self, row: Span, x: u32) -> bool
        requires within { Within self.now.bytes.now row }
        requires rises { Rises (list_of self.now.bytes.now row) }
        ensures { result ≡ has (list_of self.now.bytes.now row) x }
    {
        self.parts()
            .find_word(row.start as usize, row.count as usize, x)
    }
}
