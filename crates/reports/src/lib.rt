// What the programs print, as bytes.
#![tactic(auto)]

pub mod files;
pub mod frames;
pub mod refusal;
