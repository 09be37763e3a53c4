// The register of one station solution: its tables, which the caller lends at each call, and its edits.
#![tactic(auto)]

pub mod calls;
mod cells;
mod edits;
mod handed;
pub mod lent;
mod needs;
mod rows;
mod writing;
