// Reading each place of a plan once, into its slot of working memory.
ghost use Rattle.std.specs.Prelude.{◌≡◌, [], ◌∷◌, length};
ghost use Rattle.code.specs.Codes.{Slotted};
ghost use Rattle.sheet.specs.Places.{sheet_of, places_of};
ghost use Rattle.calls.specs.Reading.{raised, seen, symbol_at};
ghost use Rattle.reading.specs.Tables.{kept, Vacated};
ghost use Rattle.reading.specs.Checks.{Clear, Readable};

use crate::memory::vacate;
use code::ReadPlan;
use field::NumberedField;
use sheet::{Entries, Place, Record};
use store::Store;

// Reads a place that is neither blank nor worn.
#[tactic(auto, using(crate::proofs::Checking::probed_symbol, crate::proofs::Gathering::read_raised))]
pub fn read_place<F: NumberedField, S: Store<F>>(store: &mut S, place: Place) -> F
    requires { Readable (S.Store.meaning store.old) place.row place.node }
    ensures answer { result ≡ symbol_at F.Field.ops.zero (S.Store.meaning store.old) place.row place.node }
    ensures leaves { S.Store.meaning store.new ≡ raised (S.Store.meaning store.old) (place ∷ []) }
{
    store.read(place.row, place.node).unwrap_or(F::zero())
}

// Reads each place of a plan once, into its slot of a memory without a place, and counts them.
fn fill<F: NumberedField, S: Store<F>, P: ReadPlan<F>>(
    store: &mut S,
    plan: &P,
    memory: &mut [Record<F>],
) -> usize
    requires clear { Clear (S.Store.meaning store.old) (places_of (P.Listing.entries plan.now)) }
    requires slots { Slotted (P.Listing.entries plan.now) (P.ReadPlan.slot plan.now) (length memory.old) }
    requires vacant { Vacated F.Field.ops.zero memory.old }
    ensures count { result ≡ length (sheet_of (P.Listing.entries plan.now)) }
    ensures leaves { S.Store.meaning store.new ≡ raised (S.Store.meaning store.old) (sheet_of (P.Listing.entries plan.now)) }
    ensures table { kept F.Field.ops.zero memory.new (P.ReadPlan.slot plan.now) ≡ seen F.Field.ops.zero (S.Store.meaning store.old) (places_of (P.Listing.entries plan.now)) }
{
    let mut count = 0;
    for entry in Entries::of(plan) {
        let place = entry.place;
        let slot = plan.slot(place.row, place.node);
        if memory[slot].place != place {
            let symbol = read_place(store, place);
            memory[slot] = Record { place, symbol };
            count += 1;
        }
    }
    count
}

// Reads each place of a plan once, into its slot of working memory, whatever this held, and counts them.
// Kept: store, plan and memory are lent apart, since each call says of store and memory alone what it leaves.
pub fn gather<F: NumberedField, S: Store<F>, P: ReadPlan<F>>(
    store: &mut S,
    plan: &P,
    memory: &mut [Record<F>],
) -> usize
    requires clear { Clear (S.Store.meaning store.old) (places_of (P.Listing.entries plan.now)) }
    requires slots { Slotted (P.Listing.entries plan.now) (P.ReadPlan.slot plan.now) (length memory.old) }
    ensures count { result ≡ length (sheet_of (P.Listing.entries plan.now)) }
    ensures leaves { S.Store.meaning store.new ≡ raised (S.Store.meaning store.old) (sheet_of (P.Listing.entries plan.now)) }
    ensures table { kept F.Field.ops.zero memory.new (P.ReadPlan.slot plan.now) ≡ seen F.Field.ops.zero (S.Store.meaning store.old) (places_of (P.Listing.entries plan.now)) }
{
    vacate(memory);
    fill(store, plan, memory)
}
