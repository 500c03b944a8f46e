// What a knob makes of vectors, line by line: the key of each, and how many stand on each edge of each place.
#![tactic(auto)]

pub mod commands;
pub mod session;
pub mod study;
pub mod tally;
