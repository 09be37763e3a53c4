// A symmetric matrix over a lent slice, as its lower triangle row after row, and the working row that a matrix is read with.
#![tactic(auto)]

pub mod cell;
pub mod laws;
pub mod moves;
pub mod row;
