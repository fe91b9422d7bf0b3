// Makes: a new engine on a new store.
ghost use Rattle.std.specs.Prelude.{IfOk};
ghost use Rattle.desk.specs.Makings.{Begins, Started, First};

use crate::machine::Machine;
use crate::replies::make_decline;
use crate::state::State;
use answers::decline::Decline;
use answers::reply::{Accepted, Reply};
use array::Proposed;
use byte::Byte;
use field::{Decimal, Field, NumberedField};
use kept::{KeptBank, KeptImage};
use repair::make;
use requests::request::{FieldKind, Request, StoreKind};
use sheet::{Place, Record};
use std::alloc::{AllocError, Global};
use store::Store;

// Makes an engine on a store, with its working memory: a machine with the number of its nodes, or a decline.
fn begin<F: NumberedField, S: Store<F> + Drop>(
    heap: Global,
    store: S,
    proposed: Proposed,
) -> Result<Result<(Machine<F, S>, usize), Decline>, AllocError>
    ensures { IfOk result (Begins F.Field.ops F.NumberedField.symbol F.NumberedField.size S.Store.meaning proposed.k proposed.a proposed.tau proposed.b (S.Store.meaning store)) }
{
    let mut memory = Vec::new(heap);
    memory.resize(
        1024,
        Record {
            place: Place { row: 0, node: 0 },
            symbol: F::zero(),
        },
    )?;
    let mut store = store;
    // Kept: a match, since what the store means is left open by the check where a closure moves it into the machine.
    match make::<F, S>(&mut store, proposed) {
        Ok(made) => {
            let machine = Machine {
                engine: made.engine,
                store,
                memory,
            };
            Ok(Ok((machine, made.nodes)))
        }
        Err(fault) => Ok(Err(make_decline(fault))),
    }
}

// A make with the field and the store that were asked for: the state after it with the number of nodes, or a decline.
fn start(
    heap: Global,
    field: FieldKind,
    store: StoreKind,
    proposed: Proposed,
) -> Result<Result<(State, usize), Decline>, AllocError>
    ensures { IfOk result (Started field store proposed.k proposed.a proposed.tau proposed.b) }
{
    // Kept: four arms, since each makes a machine of another type, for which the state has another case.
    match (field, store) {
        (FieldKind::Decimal, StoreKind::Bank) => {
            let begun = begin(heap, KeptBank::<Decimal>::new(heap)?, proposed)?;
            Ok(begun.map(|(machine, nodes)| (State::DecimalBank(machine), nodes)))
        }
        (FieldKind::Decimal, StoreKind::Image) => {
            let begun = begin(heap, KeptImage::<Decimal>::new(heap)?, proposed)?;
            Ok(begun.map(|(machine, nodes)| (State::DecimalImage(machine), nodes)))
        }
        (FieldKind::Byte, StoreKind::Bank) => {
            let begun = begin(heap, KeptBank::<Byte>::new(heap)?, proposed)?;
            Ok(begun.map(|(machine, nodes)| (State::ByteBank(machine), nodes)))
        }
        (FieldKind::Byte, StoreKind::Image) => {
            let begun = begin(heap, KeptImage::<Byte>::new(heap)?, proposed)?;
            Ok(begun.map(|(machine, nodes)| (State::ByteImage(machine), nodes)))
        }
    }
}

// What a request comes to before the first accepted make.
pub fn first(heap: Global, request: Request<'_>) -> Result<(State, Reply<Decimal>), AllocError>
    ensures { IfOk result (λ p. First request.entry p.0 p.1) }
{
    let Request::Make {
        field,
        store,
        k,
        a,
        tau,
        b,
    } = request
    else {
        return Ok((State::New, Err(Decline::NotMade)));
    };
    match start(heap, field, store, Proposed { k, a, tau, b })? {
        Ok((state, nodes)) => Ok((state, Ok(Accepted::Made(nodes)))),
        Err(decline) => Ok((State::New, Err(decline))),
    }
}
