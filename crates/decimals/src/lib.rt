// Decimal numbers as text: read, kept in one form, and written.
#![tactic(auto)]

pub mod laws;
pub mod number;
pub mod numerals;
pub mod reads;
pub mod scan;
pub mod writes;
