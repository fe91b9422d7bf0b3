// Changing the places that one data symbol reaches.
ghost use Rattle.std.specs.Prelude.{◌≡◌, ℕ, ◌<◌, length};
ghost use Rattle.sheet.specs.Places.{distinct, places_of};
ghost use Rattle.reading.specs.Checks.{Clear};
ghost use Rattle.actions.specs.Patching.{patched_by};

use code::Patch;
use field::NumberedField;
use reading::read_place;
use sheet::Entries;
use store::Store;

// Replaces the data symbol whose place stands first in a patch: reads each place of the patch once, and writes
// there what it held and the weighted difference. Counts the places.
pub fn apply<F: NumberedField, S: Store<F>, P: Patch<F>>(store: &mut S, patch: &P, x: F) -> usize
    requires clear { Clear (S.Store.meaning store.old) (places_of (P.Listing.entries patch.now)) }
    requires once { distinct (places_of (P.Listing.entries patch.now)) ≡ places_of (P.Listing.entries patch.now) }
    ensures count { result ≡ length (P.Listing.entries patch.now) }
    ensures leaves { S.Store.meaning store.new ≡ patched_by F.Field.ops (S.Store.meaning store.old) (places_of (P.Listing.entries patch.now)) (P.Patch.weight patch.now) x }
{
    let mut first = None;
    for entry in Entries::of(patch) {
        let place = entry.place;
        let old = read_place(store, place);
        let difference = first.unwrap_or_else(|| x.difference(old));
        first = Some(difference);
        let change = patch.weight(place).product(difference);
        let _written = store.write(place.row, place.node, old.sum(change));
    }
    patch.len()
}
