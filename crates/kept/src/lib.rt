// Stores of 32 rows and 93 nodes that own their memory.
#![tactic(auto)]

ghost use Rattle.std.specs.Prelude.{◌≡◌, IfOk};
ghost use Rattle.store.specs.Meaning.{blank as fresh};
ghost use Rattle.kept.specs.Stores.{bank_means, image_means};
ghost use Rattle.kept.specs.Soundness.{kept_bank_sound, kept_image_sound};

use bank::{Cell, Cells};
use field::NumberedField;
use image::Bytes;
use std::alloc::{AllocError, Global};
use std::marker::PhantomData;
use store::{Shape, Store, StoreFault};

mod holding;

pub use holding::{KeptBank, KeptImage};

// The rows and nodes of each of these stores.
const SHAPE: Shape = Shape {
    rows: 32,
    nodes: 93,
};

impl<F: NumberedField> KeptBank<F> {
    // A blank bank, unless memory is short.
    pub fn new(heap: Global) -> Result<KeptBank<F>, AllocError>
        ensures { IfOk result (λ s. bank_means s ≡ fresh F 32 93 1000) }
    {
        let mut cells = Vec::new(heap);
        cells.resize(
            2976,
            Cell {
                symbol: None,
                meter: 0,
            },
        )?;
        Ok(KeptBank { cells })
    }
}

impl<F: NumberedField> KeptImage<F> {
    // A blank card image, unless memory is short.
    pub fn new(heap: Global) -> Result<KeptImage<F>, AllocError>
        ensures { IfOk result (λ s. image_means F.NumberedField.symbol s ≡ fresh F 32 93 250) }
    {
        let mut bytes = Vec::new(heap);
        bytes.resize(11904, 0)?;
        Ok(KeptImage {
            bytes,
            kind: PhantomData,
        })
    }
}

// Kept: this impl and the next alike, since the two stores are two structs; each call is one line, and the work is done once in `medium`.
impl<F: NumberedField> Store<F> for KeptBank<F> {
    ghost meaning = { bank_means };

    fn rows(&self) -> usize {
        SHAPE.rows
    }

    fn nodes(&self) -> usize {
        SHAPE.nodes
    }

    fn life(&self) -> u16 {
        bank::LIFE
    }

    fn probe(&self, row: usize, node: usize) -> Result<F, StoreFault> {
        medium::probe::<F, Cells>(self.cells.as_slice(), SHAPE, row, node)
    }

    fn meter(&self, row: usize, node: usize) -> Result<u16, StoreFault> {
        medium::meter::<F, Cells>(self.cells.as_slice(), SHAPE, row, node)
    }

    fn read(&mut self, row: usize, node: usize) -> Result<F, StoreFault> {
        medium::read::<F, Cells>(self.cells.as_mut_slice(), SHAPE, row, node)
    }

    fn write(&mut self, row: usize, node: usize, x: F) -> Result<(), StoreFault> {
        medium::write::<F, Cells>(self.cells.as_mut_slice(), SHAPE, row, node, x)
    }

    fn clear(&mut self, node: usize) -> Result<u32, StoreFault> {
        medium::clear::<F, Cells>(self.cells.as_mut_slice(), SHAPE, node)
    }

    fn refresh(&mut self, node: usize) -> Result<u32, StoreFault> {
        medium::refresh::<F, Cells>(self.cells.as_mut_slice(), SHAPE, node)
    }

    ghost sound = { kept_bank_sound };
}

impl<F: NumberedField> Store<F> for KeptImage<F> {
    ghost meaning = { image_means F.NumberedField.symbol };

    fn rows(&self) -> usize {
        SHAPE.rows
    }

    fn nodes(&self) -> usize {
        SHAPE.nodes
    }

    fn life(&self) -> u16 {
        image::LIFE
    }

    fn probe(&self, row: usize, node: usize) -> Result<F, StoreFault> {
        medium::probe::<F, Bytes>(self.bytes.as_slice(), SHAPE, row, node)
    }

    fn meter(&self, row: usize, node: usize) -> Result<u16, StoreFault> {
        medium::meter::<F, Bytes>(self.bytes.as_slice(), SHAPE, row, node)
    }

    fn read(&mut self, row: usize, node: usize) -> Result<F, StoreFault> {
        medium::read::<F, Bytes>(self.bytes.as_mut_slice(), SHAPE, row, node)
    }

    fn write(&mut self, row: usize, node: usize, x: F) -> Result<(), StoreFault> {
        medium::write::<F, Bytes>(self.bytes.as_mut_slice(), SHAPE, row, node, x)
    }

    fn clear(&mut self, node: usize) -> Result<u32, StoreFault> {
        medium::clear::<F, Bytes>(self.bytes.as_mut_slice(), SHAPE, node)
    }

    fn refresh(&mut self, node: usize) -> Result<u32, StoreFault> {
        medium::refresh::<F, Bytes>(self.bytes.as_mut_slice(), SHAPE, node)
    }

    ghost sound = { kept_image_sound F.NumberedField.symbol };
}
