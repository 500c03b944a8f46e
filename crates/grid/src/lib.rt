// Settings, and the key of a vector of measures.
#![tactic(auto)]

pub mod extremes;
pub mod keys;
pub mod laws;
pub mod parts;
pub mod settings;
