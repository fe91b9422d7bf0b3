// Callers of an engine: a few calls, and any calls, with what the theorem says at their end.
#![tactic(auto)]

ghost use Rattle.std.specs.Prelude.{OnOk};
ghost use Rattle.tour.specs.Tour.{Onward, Reached};

use calls::{Answer, Call, CallFault};
use code::Code;
use engine::{Engine, MakeFault};
use field::NumberedField;
use sheet::Record;
use store::Store;

// Makes an engine, sets symbols, loses node 0 and mends it, whatever the calls answer.
pub fn rehearse<F: NumberedField, S: Store<F>, C: Code<F>>(
    code: C,
    store: &mut S,
    symbols: &[F],
    memory: &mut [Record<F>],
) -> Result<Result<Answer<F>, CallFault>, MakeFault>
    ensures { OnOk result (Reached F.Field.ops F.NumberedField.size (C.Code.code code) (S.Store.meaning store.old) (S.Store.meaning store.new)) }
{
    let engine = Engine::make(code, store)?;
    let _set = engine.serve(store, Call::Set(symbols), memory);
    let _lost = engine.serve(store, Call::Lose(0), memory);
    let mended = engine.serve(store, Call::Mend(0), memory);
    Ok(mended)
}

// Serves each call of a slice, whatever it answers.
pub fn run<F: NumberedField, S: Store<F>, C: Code<F>>(
    engine: &Engine<C>,
    store: &mut S,
    calls: &[Call<'_, F>],
    memory: &mut [Record<F>],
)
    ensures { Onward F.Field.ops F.NumberedField.size (C.Code.code engine.now.code) calls.now (S.Store.meaning store.old) (S.Store.meaning store.new) }
{
    for call in calls.iter().copied() {
        let _answer = engine.serve(store, call, memory);
    }
}
