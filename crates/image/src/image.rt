ghost use Rattle.std.specs.Prelude.{◌*◌, ◌≤◌, length};

use std::marker::PhantomData;
use store::Shape;

// A store in the image of a card that the caller lends: four bytes a place, the places of node 0, row after row, then those of node 1, and so on.
#[derive(Drop)]
pub struct CardImage<'m, F> {
    pub(crate) bytes: &'m mut [u8],
    pub(crate) shape: Shape,
    pub(crate) kind: PhantomData<F>,
    ghost fits: { 4 * (shape.rows * shape.nodes) ≤ length bytes.now },
}
