use crate::machine::Machine;
use byte::Byte;
use field::Decimal;
use kept::{KeptBank, KeptImage};
use std::alloc::Global;

// A session before its first accepted make, and after it, with the field and the store that the make chose.
#[derive(Drop)]
pub enum State {
    New,
    DecimalBank(Machine<Decimal, KeptBank<Decimal>>),
    DecimalImage(Machine<Decimal, KeptImage<Decimal>>),
    ByteBank(Machine<Byte, KeptBank<Byte>>),
    ByteImage(Machine<Byte, KeptImage<Byte>>),
}

// A session: its state, and the memory that it may take.
#[derive(Drop)]
pub struct Desk {
    pub(crate) heap: Global,
    pub(crate) state: State,
}
