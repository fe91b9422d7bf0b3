// Reading the places of a sheet: the check of each, a read of each once, and the tables that symbols are solved from.
#![tactic(auto)]

mod checks;
mod data;
mod memory;
mod slots;
mod tables;

pub use checks::{check, probe_entry};
pub use data::Data;
pub use memory::wipe;
pub use slots::{gather, read_place};
pub use tables::Cache;
