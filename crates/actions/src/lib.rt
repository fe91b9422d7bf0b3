// What the calls of an engine are made of: their checks, and reading, writing, fetching and mending by a code.
#![tactic(auto)]

mod declines;
mod fetching;
mod mending;
mod patching;
mod writing;

pub use declines::{
    fetch_decline, has_room, is_blank, mend_decline, node_decline, put_decline, set_decline,
};
pub use fetching::{fetch_by, fetch_held};
pub use mending::mend_by;
pub use patching::apply;
pub use writing::{clear_nodes, write_array};
