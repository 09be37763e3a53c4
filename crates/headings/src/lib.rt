// Header lines and matrix lines: what they say, and how they are written.
#![tactic(auto)]

pub mod elements;
pub mod headers;
