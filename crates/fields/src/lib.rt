// The fields of a line that are made of numbers: counts, epochs, angles and heights, read and written.
#![tactic(auto)]

pub mod angles;
pub mod counts;
pub mod epochs;
pub mod laws;
