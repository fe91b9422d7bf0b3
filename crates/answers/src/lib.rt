// Answer lines.
#![tactic(auto)]

pub mod decline;
pub mod reply;
pub mod writing;
