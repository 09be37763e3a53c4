// The records of a solution's tables: their keys, and their lines.
#![tactic(auto)]

pub mod keys;
pub mod parameters;
pub mod sites;
pub mod spans;
