// The repair part: the engine over the two-class code, with what is promised of it over every history of calls.
#![tactic(auto)]

ghost use Rattle.std.specs.Prelude.{◌≡◌, ◌+◌, ◌≤◌, length};
ghost use Rattle.row.specs.Numbered.{numbered as numbered_of};
ghost use Rattle.array.specs.declared.parameters.Parameters.{Parameters as Shape};
ghost use Rattle.code.specs.Codes.{CodeLaws};
ghost use Rattle.calls.specs.History.{asked, Step, served_memory};
ghost use Rattle.calls.specs.Theorem.{Extends};
ghost use Rattle.repair.specs.TwoClass.{two_class};
ghost use Rattle.repair.specs.Promise.{make_number, MakeDone, Sized, Sheets};

use array::{Parameters, Proposed};
use calls::{Answer, Call, CallFault};
use engine::Engine;
use field::{Field, NumberedField};
use sheet::Record;
use store::Store;

mod conversions;
mod fault;
mod two_class;
mod types;

pub use fault::{Made, MakeFault};
pub use types::TwoClass;

// The two-class code keeps the laws of a code.
pub fn code_stands<F: NumberedField>() -> u8
    ensures { (p : Shape) → p.k + p.a ≤ F.size → CodeLaws F.Field.ops (two_class F.Field.ops (numbered_of F.Field.ops.zero F.symbol) p) }
{
    0
}

impl MakeFault {
    // The number of a fault.
    pub fn number(self) -> u8
        ensures { result ≡ make_number self }
    {
        // Kept: a fault of the parameters brings its own number, and the numbers of such an enum cannot be cast.
        match self {
            MakeFault::Unfit(fault) => fault.number(),
            MakeFault::SmallStore => 16,
        }
    }
}

// Makes an engine with the proposed parameters on a store: clears its nodes, and begins a history.
pub fn make<F: NumberedField, S: Store<F>>(
    store: &mut S,
    proposed: Proposed,
) -> Result<Made, MakeFault>
    ensures { MakeDone F.Field.ops (numbered_of F.Field.ops.zero F.NumberedField.symbol) F.NumberedField.size proposed.k proposed.a proposed.tau proposed.b (S.Store.meaning store.old) result (S.Store.meaning store.new) }
{
    let parameters = Parameters::check_over::<F>(proposed)?;
    let engine = Engine::make(TwoClass { parameters }, store)?;
    Ok(Made {
        engine,
        nodes: parameters.nodes(),
    })
}

// Serves any of the six calls on an engine and its store.
pub fn serve<F: NumberedField, S: Store<F>>(
    engine: &Engine<TwoClass>,
    store: &mut S,
    call: Call<'_, F>,
    memory: &mut [Record<F>],
) -> Result<Answer<F>, CallFault>
    ensures step { Step F.Field.ops F.NumberedField.size (two_class F.Field.ops (numbered_of F.Field.ops.zero F.NumberedField.symbol) engine.now.code.parameters) (asked call.entry) (length memory.old) result (S.Store.meaning store.old) (S.Store.meaning store.new) }
    ensures history { Extends F.Field.ops F.NumberedField.size (two_class F.Field.ops (numbered_of F.Field.ops.zero F.NumberedField.symbol) engine.now.code.parameters) (record { ask = asked call.entry; room = length memory.old; answer = result }) (S.Store.meaning store.old) (S.Store.meaning store.new) }
    ensures sized { Sized engine.now.code.parameters (asked call.entry) result }
    ensures sheets { Sheets F.Field.ops (numbered_of F.Field.ops.zero F.NumberedField.symbol) engine.now.code.parameters }
    ensures memory { memory.new ≡ served_memory F.Field.ops.zero (asked call.entry) result memory.old }
{
    engine.serve(store, call, memory)
}
