// Places of an array, listings of places in their order, and tables of symbols by place.
#![tactic(auto)]

ghost use Rattle.std.specs.Prelude.{◌≡◌, ℕ, ◌<◌, List, length, slice_index_or};
ghost use Rattle.sheet.specs.Parts.{part_number};
ghost use Rattle.sheet.specs.declared.place.Entry.{Entry as Listed};

mod entries;
mod order;
mod place;

pub use entries::Entries;
pub use place::{Entry, Part, Place, Record};

impl Part {
    // The number of a part.
    pub fn number(self) -> u8
        ensures { result ≡ part_number self }
    {
        self as u8
    }
}

// A listing of places, in an order and in parts, that may name a place more than once.
pub trait Listing {
    ghost entries: { Self → List Listed };

    fn len(&self) -> usize
        ensures { result ≡ length (entries self.now) };

    fn at(&self, i: usize) -> Entry
        requires { i < length (entries self.now) }
        ensures { result ≡ slice_index_or (entries self.now) i result };
}

// Symbols by row and node.
// Kept: a row and a node apart, since those who look up compute each by itself.
pub trait Table<F> {
    ghost held: { Self → ℕ → ℕ → F };

    fn look(&self, row: usize, node: usize) -> F
        ensures { result ≡ held self.now row node };
}
