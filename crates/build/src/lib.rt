// What building a structure is made of: elements by their labels, edges, seeding, and building out a consequent: document 01, section 3.
#![tactic(auto)]

pub mod again;
pub mod bounds;
pub mod building;
pub mod exists;
pub mod idle;
pub mod intern;
pub mod plan;
pub mod prints;
pub mod push;
pub mod reach;
pub mod seed;
pub mod tally;
