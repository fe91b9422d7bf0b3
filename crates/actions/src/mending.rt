// Mending a node by a plan of the code.
ghost use Rattle.std.specs.Prelude.{◌≡◌, ℕ, ◌<◌, ◌≤◌, true, length, None};
ghost use Rattle.code.specs.Codes.{Slotted};
ghost use Rattle.sheet.specs.Places.{at as at_place, listed, places_of, sheet_of};
ghost use Rattle.store.specs.Meaning.{on};
ghost use Rattle.calls.specs.Reading.{painted, in_node, raised};
ghost use Rattle.calls.specs.Calls.{Sheeted, given_by, after_memory};
ghost use Rattle.calls.specs.declared.call.CallName.TheVariants.{Mend};

use crate::writing::write_node;
use calls::{CallFault, CallName};
use code::ReadPlan;
use field::NumberedField;
use reading::{Cache, check, gather, wipe};
use sheet::Record;
use store::Store;

// Reads the sheet of a plan, and rewrites the rows of a node from it.
pub fn mend_by<F: NumberedField, S: Store<F>, P: ReadPlan<F>>(
    store: &mut S,
    plan: &P,
    rows: usize,
    node: usize,
    memory: &mut [Record<F>],
) -> Result<usize, CallFault>
    requires room { (rows ≤ (S.Store.meaning store.old).rows) × (node < (S.Store.meaning store.old).nodes) }
    requires inside { (i j : ℕ) → listed (places_of (P.Listing.entries plan.now)) (at_place i j) ≡ true → on (S.Store.meaning store.old) i j ≡ true }
    requires slots { Slotted (P.Listing.entries plan.now) (P.ReadPlan.slot plan.now) (length memory.old) }
    requires ready { (row : ℕ) → row < rows → P.Solver.ready plan.now row }
    ensures done { Sheeted Mend None (S.Store.meaning store.old) (P.Listing.entries plan.now) (length (sheet_of (P.Listing.entries plan.now))) (painted (raised (S.Store.meaning store.old) (sheet_of (P.Listing.entries plan.now))) (in_node rows node) (λ i _. given_by F.Field.ops.zero (S.Store.meaning store.old) (record { entries = P.Listing.entries plan.now; symbol = P.Solver.solved plan.now }) i)) result (S.Store.meaning store.new) }
    ensures memory { memory.new ≡ after_memory F.Field.ops.zero result memory.old }
{
    check(store, plan, CallName::Mend)?;
    let count = gather(store, plan, memory);
    let cache = Cache {
        records: memory,
        plan,
    };
    write_node(store, plan, &cache, rows, node);
    wipe(memory);
    Ok(count)
}
