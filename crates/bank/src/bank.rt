ghost use Rattle.std.specs.Prelude.{◌*◌, ◌≤◌, length};

use crate::cell::Cell;
use store::Shape;

// A store in memory that the caller lends: the places of node 0, row after row, then those of node 1, and so on.
#[derive(Drop)]
pub struct Bank<'m, F> {
    pub(crate) cells: &'m mut [Cell<F>],
    pub(crate) shape: Shape,
    ghost fits: { shape.rows * shape.nodes ≤ length cells.now },
}
