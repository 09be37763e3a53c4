// What holds of fair copies: their lines, their length, and that each line is read as its record.
#![tactic(auto)]

pub mod laws;
