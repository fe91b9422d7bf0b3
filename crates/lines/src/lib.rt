// Session lines, parted into their words.
#![tactic(auto)]

pub mod line;
pub mod parsing;
