ghost use Rattle.std.specs.Prelude.{◌≤◌, length};

use bank::Cell;
use std::marker::PhantomData;

// Kept: two structs, since what a store means is told of symbols of any type, and for one struct over a medium each definition that names it would take the medium's laws.

// A memory bank of 32 rows and 93 nodes that owns its cells.
#[derive(Drop)]
pub struct KeptBank<F> {
    pub(crate) cells: Vec<Cell<F>>,
    ghost long: { 2976 ≤ length cells.items },
}

// A card image of 32 rows and 93 nodes that owns its bytes.
#[derive(Drop)]
pub struct KeptImage<F> {
    pub(crate) bytes: Vec<u8>,
    pub(crate) kind: PhantomData<F>,
    ghost long: { 11904 ≤ length bytes.items },
}
