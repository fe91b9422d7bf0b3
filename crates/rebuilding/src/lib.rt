// Rebuilding each symbol of a row of decimal symbols, as text.
#![tactic(auto)]

mod data_row;
mod report;

pub use report::transcript;
