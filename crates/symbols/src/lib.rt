// Symbols as words.
#![tactic(auto)]

pub mod notation;
pub mod reading;
