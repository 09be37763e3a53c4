// The ordered table: records in strictly rising key order over a lent slice, blanks after them.
#![tactic(auto)]

pub mod laws;
pub mod table;
