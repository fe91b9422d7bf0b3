// What a making answers.
use crate::types::TwoClass;
use array::ParameterFault;
use engine::Engine;

// An engine, and the number of its nodes.
#[derive(Clone, Copy)]
pub struct Made {
    pub engine: Engine<TwoClass>,
    pub nodes: usize,
}

// Why an engine is not made: its parameters are unfit, or the store is too small for them.
#[derive(Clone, Copy)]
pub enum MakeFault {
    Unfit(ParameterFault),
    SmallStore,
}
