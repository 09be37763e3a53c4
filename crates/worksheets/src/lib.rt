// Worksheets: edits of a register written as text, and what is printed when they are replayed.
#![tactic(auto)]

pub mod commands;
mod lines;
mod prints;
mod requests;
pub mod sheets;
