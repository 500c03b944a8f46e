// Windows, what lies inside them, and the runs of wanted values at each place.
#![tactic(auto)]

pub mod finders;
pub mod intervals;
pub mod laws;
pub mod spans;
pub mod window;
