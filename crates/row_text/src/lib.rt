// A row of decimal symbols as a line of text.
#![tactic(auto)]

mod fault;
mod input;

pub use fault::InputFault;
pub use input::{count_symbols, glyph, line_within, symbol_of, symbols_into};
