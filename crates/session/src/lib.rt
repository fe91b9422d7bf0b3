// A session: which calls it admits, and its lines as they come, chunk by chunk.
#![tactic(auto)]

pub mod answerer;
pub mod feed;
pub mod held;
pub mod stage;
pub mod streaming;
