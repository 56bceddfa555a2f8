// Builds the finite structure of a deck: document 01, sections 2 and 3.
#![tactic(auto)]

mod closing;
mod ends;
mod expand;
mod fact_index;
mod judging;
mod need;
pub mod outcome;
mod pairs;
mod phases;
mod recall;
mod rounds;
mod rules;
pub mod run;
mod still;
mod triggers;
