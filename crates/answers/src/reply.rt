// What a line is answered.
use crate::decline::Decline;

// Kept: cases of its own beside those of a call's answer, since answer lines stand below the engine and a make has one too.
// What an accepted line is answered: make its number of nodes, set, put and mend their count, lose and refresh the sum cleared, fetch its count and the symbol.
#[derive(Clone, Copy)]
pub enum Accepted<S> {
    Made(usize),
    Counted(usize),
    Cleared(u32),
    Fetched(usize, S),
}

// What a line is answered, accepted or declined.
pub type Reply<S> = Result<Accepted<S>, Decline>;
