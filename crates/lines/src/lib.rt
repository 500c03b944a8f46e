// Lines out of bytes that come in parts.
#![tactic(auto)]

pub mod chunks;
pub mod feeding;
pub mod reader;
