// The fair copy: the one form in which a solution is written.
#![tactic(auto)]

pub mod copy;
pub mod handed;
pub mod lengths;
pub mod letters;
pub mod lines;
