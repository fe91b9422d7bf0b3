// The card image: a store in bytes that the caller lends, four a place.
#![tactic(auto)]

ghost use Rattle.std.specs.Prelude.{◌≡◌, ◌+◌, ◌*◌, ◌≤◌, true, length, is_ok, is_err};
ghost use Rattle.store.specs.Meaning.{blank as fresh, probed, placed, summed, read as reads, written, cleared, refreshed};
ghost use Rattle.store.specs.Fit.{Checked};
ghost use Rattle.store.specs.Beyond.{Beyond};
ghost use Rattle.image.specs.Bytes.{Zeros, imaged};
ghost use Rattle.image.specs.Images.{lender, means, used, whole};
ghost use Rattle.image.specs.Soundness.{image_sound};

use field::NumberedField;
use std::marker::PhantomData;
use store::{Shape, Store, StoreFault, Unfit};

mod bytes;
mod image;
mod record;

pub use bytes::Bytes;
pub use image::CardImage;

// The reads that a place stands.
pub const LIFE: u16 = 250;

impl<'m, F: NumberedField> CardImage<'m, F> {
    // Whether the memory holds a store of these rows and nodes.
    pub fn check(memory: &[u8], rows: usize, nodes: usize) -> Result<Shape, Unfit>
        ensures { Checked 4 rows nodes (length memory.now) result }
    {
        Shape::check(4, rows, nodes, memory.len())
    }

    // A blank store in the memory: zeros.
    pub fn make(memory: &'m mut [u8], shape: Shape) -> CardImage<'m, F>
        requires { 4 * (shape.rows * shape.nodes) ≤ length memory.old }
        ensures blank { means F.NumberedField.symbol result ≡ fresh F shape.rows shape.nodes 250 }
        ensures zeros { Zeros 0 (4 * (shape.rows * shape.nodes)) (whole result) }
        ensures beyond { Beyond (4 * (shape.rows * shape.nodes)) memory.old (whole result) }
        ensures lender { lender result ≡ memory.entry.ghost_name }
    {
        medium::make::<F, Bytes>(memory, shape);
        CardImage::open(memory, shape)
    }

    // The store that lies in the memory already, whatever its bytes are.
    pub fn open(memory: &'m mut [u8], shape: Shape) -> CardImage<'m, F>
        requires { 4 * (shape.rows * shape.nodes) ≤ length memory.old }
        ensures opened { means F.NumberedField.symbol result ≡ imaged F.NumberedField.symbol shape.rows shape.nodes memory.old }
        ensures untouched { whole result ≡ memory.old }
        ensures lender { lender result ≡ memory.entry.ghost_name }
    {
        CardImage {
            bytes: memory,
            shape,
            kind: PhantomData,
        }
    }
}

// Kept: each call only passes on, as the bank's does, and one impl for both would be a struct over a medium, for which every definition that names a store would take the medium's laws.
impl<'m, F: NumberedField> Store<F> for CardImage<'m, F> {
    ghost meaning = { means F.NumberedField.symbol };

    fn rows(&self) -> usize {
        self.shape.rows
    }

    fn nodes(&self) -> usize {
        self.shape.nodes
    }

    fn life(&self) -> u16 {
        LIFE
    }

    fn probe(&self, row: usize, node: usize) -> Result<F, StoreFault> {
        medium::probe::<F, Bytes>(self.bytes, self.shape, row, node)
    }

    fn meter(&self, row: usize, node: usize) -> Result<u16, StoreFault> {
        medium::meter::<F, Bytes>(self.bytes, self.shape, row, node)
    }

    fn read(&mut self, row: usize, node: usize) -> Result<F, StoreFault>
        ensures answers { result ≡ probed (means F.NumberedField.symbol self.old) row node }
        ensures leaves { means F.NumberedField.symbol self.new ≡ reads (means F.NumberedField.symbol self.old) row node }
        ensures declined { is_err result ≡ true → means F.NumberedField.symbol self.new ≡ means F.NumberedField.symbol self.old }
        ensures beyond { Beyond (used self.old) (whole self.old) (whole self.new) }
        ensures lender { lender self.new ≡ lender self.old }
    {
        let bytes = &mut *self.bytes;
        medium::read::<F, Bytes>(bytes, self.shape, row, node)
    }

    fn write(&mut self, row: usize, node: usize, x: F) -> Result<(), StoreFault>
        ensures answers { result ≡ placed (means F.NumberedField.symbol self.old) row node }
        ensures leaves { means F.NumberedField.symbol self.new ≡ written (means F.NumberedField.symbol self.old) row node x }
        ensures declined { is_err result ≡ true → means F.NumberedField.symbol self.new ≡ means F.NumberedField.symbol self.old }
        ensures beyond { Beyond (used self.old) (whole self.old) (whole self.new) }
        ensures lender { lender self.new ≡ lender self.old }
    {
        let bytes = &mut *self.bytes;
        medium::write::<F, Bytes>(bytes, self.shape, row, node, x)
    }

    fn clear(&mut self, node: usize) -> Result<u32, StoreFault>
        ensures answers { result ≡ summed (means F.NumberedField.symbol self.old) node }
        ensures leaves { means F.NumberedField.symbol self.new ≡ cleared (means F.NumberedField.symbol self.old) node }
        ensures declined { is_err result ≡ true → means F.NumberedField.symbol self.new ≡ means F.NumberedField.symbol self.old }
        ensures zeros { is_ok result ≡ true → Zeros (4 * (self.old.shape.rows * node)) (4 * (self.old.shape.rows * node + self.old.shape.rows)) (whole self.new) }
        ensures beyond { Beyond (used self.old) (whole self.old) (whole self.new) }
        ensures lender { lender self.new ≡ lender self.old }
    {
        let bytes = &mut *self.bytes;
        medium::clear::<F, Bytes>(bytes, self.shape, node)
    }

    fn refresh(&mut self, node: usize) -> Result<u32, StoreFault>
        ensures answers { result ≡ summed (means F.NumberedField.symbol self.old) node }
        ensures leaves { means F.NumberedField.symbol self.new ≡ refreshed (means F.NumberedField.symbol self.old) node }
        ensures declined { is_err result ≡ true → means F.NumberedField.symbol self.new ≡ means F.NumberedField.symbol self.old }
        ensures beyond { Beyond (used self.old) (whole self.old) (whole self.new) }
        ensures lender { lender self.new ≡ lender self.old }
    {
        let bytes = &mut *self.bytes;
        medium::refresh::<F, Bytes>(bytes, self.shape, node)
    }

    ghost sound = { image_sound F.NumberedField.symbol };
}
