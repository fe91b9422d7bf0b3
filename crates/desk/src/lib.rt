// A session of calls: its state, and what each line is answered.
#![tactic(auto)]

pub mod answering;
pub mod machine;
pub mod making;
pub mod replies;
pub mod serving;
pub mod state;
