// Fields of a line of text, and what they hold: numbers, a letter in front, a setting.
#![tactic(auto)]

pub mod fields;
pub mod heads;
pub mod numbers;
pub mod openings;
