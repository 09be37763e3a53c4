// The frame of a SINEX file: its lines, its blocks, and the data lines of each block.
#![tactic(auto)]

pub mod data;
pub mod heading;
pub mod line;
pub mod place;
pub mod title;
pub mod walk;
