// Erasure codes behind one interface: what an engine asks of a code, and the laws that a code owes.
#![tactic(auto)]

ghost use Rattle.std.specs.Prelude.{◌≡◌, ℕ, ◌<◌, ◌≤◌, true};
ghost use Rattle.sheet.specs.Places.{at as at_place, listed, places_of};
ghost use Rattle.code.specs.Codes.{CodeMeaning, CodeLaws, Slotted, blanks};

use field::NumberedField;
use sheet::{Listing, Place, Table};
use store::Store;

// Gives the symbol in each row of one node from a table of symbols.
pub trait Solver<F: NumberedField>: Drop {
    // the rows that it can be asked for
    ghost ready: { Self → ℕ → Type 0 };

    ghost solved: { Self → (ℕ → ℕ → F) → ℕ → F };

    fn solve<T: Table<F>>(&self, table: &T, row: usize) -> F
        requires { ready self.now row }
        ensures { result ≡ solved self.now (T.Table.held table.now) row };
}

// A listing of places to read, with a slot of working memory for each, and how symbols come from those on it.
pub trait ReadPlan<F: NumberedField>: Solver<F> + Listing {
    ghost slot: { Self → ℕ → ℕ → ℕ };

    fn slot(&self, row: usize, node: usize) -> usize
        ensures { result ≡ slot self.now row node };
}

// The places that replacing one data symbol changes, with the weight of the difference at each.
pub trait Patch<F: NumberedField>: Listing + Drop {
    ghost weight: { Self → ℕ → ℕ → F };

    fn weight(&self, place: Place) -> F
        requires { listed (places_of (Self.Listing.entries self.now)) place ≡ true }
        ensures { result ≡ weight self.now place.row place.node };
}

// An erasure code over the field F.
// Kept: `fine` is asked at each method, since a code may be held over a field too small for it, and says so by `field_size`.
pub trait Code<F: NumberedField>: Copy {
    type MendPlan: ReadPlan<F>;

    type FetchPlan: ReadPlan<F>;

    type Column: Solver<F>;

    type Patch: Patch<F>;

    ghost code: { Self → CodeMeaning F };

    fn rows(&self) -> usize
        ensures { result ≡ (code self.now).rows };

    fn columns(&self) -> usize
        ensures { result ≡ (code self.now).columns };

    fn nodes(&self) -> usize
        ensures { result ≡ (code self.now).nodes };

    fn field_size(&self) -> usize
        ensures { result ≡ (code self.now).field_size };

    fn fetch_room(&self) -> usize
        ensures { result ≡ (code self.now).fetch_room };

    fn mend_room(&self, node: usize) -> usize
        ensures { result ≡ (code self.now).mend_room node };

    // Gives a node of the array from the data.
    fn column(&self, node: usize) -> Self::Column
        requires fine { (code self.now).field_size ≤ F.NumberedField.size }
        requires node { node < (code self.now).nodes }
        ensures ready { (row : ℕ) → row < (code self.now).rows → Self.Column.Solver.ready result row }
        ensures solved { (d : ℕ → ℕ → F) (row : ℕ) → row < (code self.now).rows → Self.Column.Solver.solved result d row ≡ (code self.now).symbol d row node };

    // How a node is mended.
    fn mend_plan<S: Store<F>>(&self, store: &S, node: usize) -> Self::MendPlan
        requires fine { (code self.now).field_size ≤ F.NumberedField.size }
        requires room { ((code self.now).rows ≤ (S.Store.meaning store.now).rows) × ((code self.now).nodes ≤ (S.Store.meaning store.now).nodes) }
        requires node { node < (code self.now).nodes }
        ensures entries { Self.MendPlan.Listing.entries result ≡ ((code self.now).mend (blanks (S.Store.meaning store.now)) node).entries }
        ensures ready { (row : ℕ) → row < (code self.now).rows → Self.MendPlan.Solver.ready result row }
        ensures solved { (f : ℕ → ℕ → F) (row : ℕ) → row < (code self.now).rows → Self.MendPlan.Solver.solved result f row ≡ ((code self.now).mend (blanks (S.Store.meaning store.now)) node).symbol f row }
        ensures slots { Slotted (Self.MendPlan.Listing.entries result) (Self.MendPlan.ReadPlan.slot result) ((code self.now).mend_room node) };

    // How a blank data place is fetched.
    fn fetch_plan<S: Store<F>>(&self, store: &S, row: usize, column: usize) -> Self::FetchPlan
        requires fine { (code self.now).field_size ≤ F.NumberedField.size }
        requires room { ((code self.now).rows ≤ (S.Store.meaning store.now).rows) × ((code self.now).nodes ≤ (S.Store.meaning store.now).nodes) }
        requires place { (row < (code self.now).rows) × (column < (code self.now).columns) }
        ensures entries { Self.FetchPlan.Listing.entries result ≡ ((code self.now).fetch (blanks (S.Store.meaning store.now)) row column).entries }
        ensures ready { Self.FetchPlan.Solver.ready result row }
        ensures solved { (f : ℕ → ℕ → F) → Self.FetchPlan.Solver.solved result f row ≡ ((code self.now).fetch (blanks (S.Store.meaning store.now)) row column).symbol f row }
        ensures slots { Slotted (Self.FetchPlan.Listing.entries result) (Self.FetchPlan.ReadPlan.slot result) (code self.now).fetch_room };

    // What a put of a data place changes.
    fn put_patch(&self, row: usize, column: usize) -> Self::Patch
        requires fine { (code self.now).field_size ≤ F.NumberedField.size }
        requires place { (row < (code self.now).rows) × (column < (code self.now).columns) }
        ensures entries { Self.Patch.Listing.entries result ≡ ((code self.now).put row column).entries }
        ensures weight { (i j : ℕ) → listed (places_of (Self.Patch.Listing.entries result)) (at_place i j) ≡ true → Self.Patch.Patch.weight result i j ≡ ((code self.now).put row column).weight i j };

    ghost lawful: { (c : Self) → (code c).field_size ≤ F.NumberedField.size → CodeLaws F.Field.ops (code c) };
}
