// What tests/bench/deck.c times: the check of a deck, and a bare pass over its words.
#![tactic(auto)]

ghost use Rattle.std.specs.Prelude.{◌≡◌, ◌/◌, length};
ghost use Rattle.deck.specs.Records.{deck_answer};
ghost use Rattle.bench_deck.specs.Bench.{answer_number, sum_of};

use deck::refusal::Refusal;

// Like capi's `deck_number`, and not that: what is timed stands on deck alone.
fn number(answer: Result<(), Refusal>) -> u32
    ensures { result ≡ answer_number answer }
{
    match answer {
        Ok(()) => 0,
        Err(refusal) => refusal.number(),
    }
}

// 0 for an accepted deck, else the number of its refusal.
#[unsafe(no_mangle)]
pub extern "C" fn check_deck_number(deck: &[u8]) -> u32
    ensures { result ≡ answer_number (deck_answer deck.now) }
{
    number(deck::check_deck(deck))
}

// The sum of the deck's whole words, modulo 2^32.
#[unsafe(no_mangle)]
pub extern "C" fn sum_words(deck: &[u8]) -> u32
    ensures { result ≡ sum_of deck.now (length deck.now / 4) }
{
    let mut sum: u32 = 0;
    for i in 0..deck.len() / 4 {
        sum = sum.wrapping_add(deck::words::word(deck, i));
    }
    sum
}
