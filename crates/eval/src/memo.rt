// Judgements remembered by concept and element, in a lent table of words. Each key has one word: its quotient by the length of
// the table, times 16, and the code of the judgement.
// That the table has a word is asked for: a slice's type does not say it.
ghost use Rattle.std.specs.Prelude.{◌≡◌, ◌<◌, length};
ghost use Rattle.eval.specs.Memo.{code_of, judgement_of, key_of, recalled, stored};

use crate::judgement::{Construct, Judgement};
use deck::numbers::{ConceptId, Element};

fn key(elements: u32, concept: ConceptId, e: Element) -> u64
    ensures { result ≡ key_of elements concept.0 e.0 }
{
    concept.0 as u64 * elements as u64 + e.0 as u64
}

// The code of a judgement. It is a number, 0 for none, as it is packed in the low four bits of a word of the lent table.
fn code_of(j: Judgement) -> u32
    ensures { result ≡ code_of j }
{
    match j {
        Judgement::False => 1,
        Judgement::True => 2,
        Judgement::Unresolved(construct) => u32::from(construct) + 1,
    }
}

fn judgement_of(code: u32) -> Option<Judgement>
    ensures { result ≡ judgement_of code }
{
    match code {
        0 => None,
        1 => Some(Judgement::False),
        2 => Some(Judgement::True),
        _ => match Construct::try_from(code - 1) {
            Ok(construct) => Some(Judgement::Unresolved(construct)),
            Err(_) => None,
        },
    }
}

pub fn recall(memo: &[u16], elements: u32, concept: ConceptId, e: Element) -> Option<Judgement>
    requires { 0 < length memo.now }
    ensures { result ≡ recalled memo.now (key_of elements concept.0 e.0) }
{
    let k = key(elements, concept, e);
    let room = memo.len() as u64;
    let at = (k % room) as usize;
    let w = memo[at];
    if (w / 16) as u64 != k / room {
        return None;
    }
    judgement_of((w % 16) as u32)
}

fn store(memo: &mut [u16], k: u64, code: u32)
    requires memo_nonzero { 0 < length memo.old }
    requires code_bound { code < 16 }
    ensures { memo.new ≡ stored memo.old k code }
{
    let room = memo.len() as u64;
    let whole = k / room;
    if 4096 <= whole {
        return;
    }
    let at = (k % room) as usize;
    memo[at] = whole as u16 * 16 + code as u16;
}

// Remembers the judgement of a concept at an element, and gives it back.
pub fn remember(
    memo: &mut [u16],
    elements: u32,
    concept: ConceptId,
    e: Element,
    j: Judgement,
) -> Judgement
    requires { 0 < length memo.old }
    ensures same { result ≡ j }
    ensures kept { memo.new ≡ stored memo.old (key_of elements concept.0 e.0) (code_of j) }
{
    let k = key(elements, concept, e);
    store(memo, k, code_of(j));
    j
}
