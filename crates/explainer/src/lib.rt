// The explain program on values: lines in, answers and a table out.
#![tactic(auto)]

pub mod answers;
pub mod explaining;
