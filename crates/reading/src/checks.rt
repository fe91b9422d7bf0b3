// The check of a sheet, which changes nothing.
ghost use Rattle.std.specs.Prelude.{◌≡◌, [], ◌∷◌};
ghost use Rattle.store.specs.Meaning.{probed};
ghost use Rattle.reading.specs.Checks.{checked, probe_answer};

use calls::{CallName, SheetFault, named};
use field::NumberedField;
use sheet::{Entries, Entry, Listing, Place};
use store::Store;

// Probes a place.
#[tactic(auto, unfolding(crate::specs::Checks::probe_answer))]
fn probe_place<F: NumberedField, S: Store<F>>(store: &S, place: Place) -> Result<(), SheetFault>
    ensures { result ≡ probe_answer (probed (S.Store.meaning store.now) place.row place.node) }
{
    store.probe(place.row, place.node)?;
    Ok(())
}

// Probes a place of a sheet.
#[tactic(auto, unfolding(crate::specs::Checks::checked, crate::specs::Checks::checked_next, crate::specs::Checks::probe_answer))]
pub fn probe_entry<F: NumberedField, S: Store<F>>(
    store: &S,
    entry: Entry,
    call: CallName,
) -> Result<(), SheetFault>
    ensures { result ≡ checked call (S.Store.meaning store.now) (entry ∷ []) }
{
    probe_place(store, entry.place).map_err(|fault| named(fault, call, entry.part))
}

// Probes each place of a listing up to the first that the store declines.
#[tactic(auto, using(crate::proofs::Checking::check_pass), unfolding(crate::specs::Checks::checked))]
pub fn check<F: NumberedField, S: Store<F>, L: Listing>(
    store: &S,
    listing: &L,
    call: CallName,
) -> Result<(), SheetFault>
    ensures { result ≡ checked call (S.Store.meaning store.now) (L.Listing.entries listing.now) }
{
    for entry in Entries::of(listing) {
        probe_entry(store, entry, call)?;
    }
    Ok(())
}
