// Texts and codes: what a line names things by.
#![tactic(auto)]

pub mod laws;
pub mod letters;
pub mod texts;
pub mod types;
