// How the test programs read their data: numbers, words, and decks that are written as runs of words. Data of any other form
// is told as malformed, or as numbers that are 0.
#![tactic(auto)]

pub mod decks;
pub mod each;
pub mod input;
pub mod numbers;
pub mod room;
pub mod words;
