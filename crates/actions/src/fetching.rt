// Fetching one data symbol: a held place by itself, a blank one by a plan of the code.
ghost use Rattle.std.specs.Prelude.{◌≡◌, ℕ, true, length, None};
ghost use Rattle.sheet.specs.Places.{at as at_place, listed, places_of};
ghost use Rattle.store.specs.Meaning.{on};
ghost use Rattle.code.specs.Codes.{Slotted};
ghost use Rattle.calls.specs.Calls.{FetchedBy, held, after_memory};

use calls::{CallFault, CallName, Found};
use code::ReadPlan;
use field::NumberedField;
use reading::{Cache, check, gather, probe_entry, read_place, wipe};
use sheet::{Entry, Part, Place, Record};
use store::Store;

// Reads just the place.
pub fn fetch_held<F: NumberedField, S: Store<F>>(
    store: &mut S,
    row: usize,
    column: usize,
    memory: &mut [Record<F>],
) -> Result<Found<F>, CallFault>
    requires { on (S.Store.meaning store.old) row column ≡ true }
    ensures done { FetchedBy F.Field.ops.zero None (S.Store.meaning store.old) (held row column) row result (S.Store.meaning store.new) }
    ensures memory { memory.new ≡ after_memory F.Field.ops.zero result memory.old }
{
    let place = Place { row, node: column };
    let entry = Entry {
        part: Part::First,
        place,
    };
    probe_entry(store, entry, CallName::Fetch)?;
    let symbol = read_place(store, place);
    wipe(memory);
    Ok(Found { count: 1, symbol })
}

// Reads the sheet of a plan, and solves one row from it.
pub fn fetch_by<F: NumberedField, S: Store<F>, P: ReadPlan<F>>(
    store: &mut S,
    plan: &P,
    row: usize,
    memory: &mut [Record<F>],
) -> Result<Found<F>, CallFault>
    requires inside { (i j : ℕ) → listed (places_of (P.Listing.entries plan.now)) (at_place i j) ≡ true → on (S.Store.meaning store.old) i j ≡ true }
    requires slots { Slotted (P.Listing.entries plan.now) (P.ReadPlan.slot plan.now) (length memory.old) }
    requires ready { P.Solver.ready plan.now row }
    ensures done { FetchedBy F.Field.ops.zero None (S.Store.meaning store.old) (record { entries = P.Listing.entries plan.now; symbol = P.Solver.solved plan.now }) row result (S.Store.meaning store.new) }
    ensures memory { memory.new ≡ after_memory F.Field.ops.zero result memory.old }
{
    check(store, plan, CallName::Fetch)?;
    let count = gather(store, plan, memory);
    let cache = Cache {
        records: memory,
        plan,
    };
    let symbol = plan.solve(&cache, row);
    wipe(memory);
    Ok(Found { count, symbol })
}
