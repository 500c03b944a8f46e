// Plans: the key ranges that a search of a window reads.
#![tactic(auto)]

pub mod laws;
pub mod plan;
pub mod planning;
