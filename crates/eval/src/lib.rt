// Judges concepts and axioms in a lent structure: document 01, sections 4 and 5.
#![tactic(auto)]

pub mod axioms;
mod chains;
mod classes;
mod concepts;
mod demand;
pub mod edges;
pub mod entry;
pub mod equip;
mod equivalent;
mod foreign;
mod guarded;
pub mod index;
pub mod judgement;
pub mod labels;
mod leaving;
pub mod lent;
mod lowest;
mod memo;
mod roles;
pub mod shape;
mod standing;
pub mod verdict;
mod votes;
