// What holds of the records and their lines, and a worked example. The laws need the definitions of `records` alone, not its code.
#![tactic(auto)]

pub mod examples;
pub mod laws;
