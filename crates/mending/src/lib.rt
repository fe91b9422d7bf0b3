// How the nodes of a code array are made from the data, and mended from the places of their read sheets.
#![tactic(auto)]

mod data_sheet;
mod mend;
mod node_sheet;
mod parity_sheet;
mod symbols;
mod weighing;

pub use mend::{Column, Mend};
pub use node_sheet::NodeSheet;
