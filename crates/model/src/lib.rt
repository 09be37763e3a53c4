// What a solution is: what its records need of each other, when two solutions are the same, and what each edit makes of one.
#![tactic(auto)]

pub mod counts;
pub mod laws;
pub mod needs;
