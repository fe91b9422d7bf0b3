// The memory bank: a store in cells that the caller lends, one a place.
#![tactic(auto)]

ghost use Rattle.std.specs.Prelude.{◌≡◌, ◌*◌, ◌≤◌, true, length, is_err};
ghost use Rattle.store.specs.Meaning.{blank as fresh, probed, placed, summed, read as reads, written, cleared, refreshed};
ghost use Rattle.store.specs.Fit.{Checked};
ghost use Rattle.store.specs.Beyond.{Beyond};
ghost use Rattle.bank.specs.Cells.{kept};
ghost use Rattle.bank.specs.Banks.{lender, means, used, whole};
ghost use Rattle.bank.specs.Soundness.{bank_sound};

use field::NumberedField;
use store::{Shape, Store, StoreFault, Unfit};

mod bank;
mod cell;
mod cells;

pub use bank::Bank;
pub use cell::Cell;
pub use cells::Cells;

// The reads that a place stands.
pub const LIFE: u16 = 1000;

impl<'m, F: NumberedField> Bank<'m, F> {
    // Whether the memory holds a store of these rows and nodes.
    pub fn check(memory: &[Cell<F>], rows: usize, nodes: usize) -> Result<Shape, Unfit>
        ensures { Checked 1 rows nodes (length memory.now) result }
    {
        Shape::check(1, rows, nodes, memory.len())
    }

    // A blank store in the memory.
    pub fn make(memory: &'m mut [Cell<F>], shape: Shape) -> Bank<'m, F>
        requires { shape.rows * shape.nodes ≤ length memory.old }
        ensures blank { means result ≡ fresh F shape.rows shape.nodes 1000 }
        ensures beyond { Beyond (shape.rows * shape.nodes) memory.old (whole result) }
        ensures lender { lender result ≡ memory.entry.ghost_name }
    {
        medium::make::<F, Cells>(memory, shape);
        Bank::open(memory, shape)
    }

    // The store that lies in the memory already, whatever its cells hold.
    pub fn open(memory: &'m mut [Cell<F>], shape: Shape) -> Bank<'m, F>
        requires { shape.rows * shape.nodes ≤ length memory.old }
        ensures opened { means result ≡ kept shape.rows shape.nodes memory.old }
        ensures untouched { whole result ≡ memory.old }
        ensures lender { lender result ≡ memory.entry.ghost_name }
    {
        Bank {
            cells: memory,
            shape,
        }
    }
}

impl<'m, F: NumberedField> Store<F> for Bank<'m, F> {
    ghost meaning = { means };

    fn rows(&self) -> usize {
        self.shape.rows
    }

    fn nodes(&self) -> usize {
        self.shape.nodes
    }

    fn life(&self) -> u16 {
        LIFE
    }

    fn probe(&self, row: usize, node: usize) -> Result<F, StoreFault> {
        medium::probe::<F, Cells>(self.cells, self.shape, row, node)
    }

    fn meter(&self, row: usize, node: usize) -> Result<u16, StoreFault> {
        medium::meter::<F, Cells>(self.cells, self.shape, row, node)
    }

    fn read(&mut self, row: usize, node: usize) -> Result<F, StoreFault>
        ensures answers { result ≡ probed (means self.old) row node }
        ensures leaves { means self.new ≡ reads (means self.old) row node }
        ensures declined { is_err result ≡ true → means self.new ≡ means self.old }
        ensures beyond { Beyond (used self.old) (whole self.old) (whole self.new) }
        ensures lender { lender self.new ≡ lender self.old }
    {
        let cells = &mut *self.cells;
        medium::read::<F, Cells>(cells, self.shape, row, node)
    }

    fn write(&mut self, row: usize, node: usize, x: F) -> Result<(), StoreFault>
        ensures answers { result ≡ placed (means self.old) row node }
        ensures leaves { means self.new ≡ written (means self.old) row node x }
        ensures declined { is_err result ≡ true → means self.new ≡ means self.old }
        ensures beyond { Beyond (used self.old) (whole self.old) (whole self.new) }
        ensures lender { lender self.new ≡ lender self.old }
    {
        let cells = &mut *self.cells;
        medium::write::<F, Cells>(cells, self.shape, row, node, x)
    }

    fn clear(&mut self, node: usize) -> Result<u32, StoreFault>
        ensures answers { result ≡ summed (means self.old) node }
        ensures leaves { means self.new ≡ cleared (means self.old) node }
        ensures declined { is_err result ≡ true → means self.new ≡ means self.old }
        ensures beyond { Beyond (used self.old) (whole self.old) (whole self.new) }
        ensures lender { lender self.new ≡ lender self.old }
    {
        let cells = &mut *self.cells;
        medium::clear::<F, Cells>(cells, self.shape, node)
    }

    fn refresh(&mut self, node: usize) -> Result<u32, StoreFault>
        ensures answers { result ≡ summed (means self.old) node }
        ensures leaves { means self.new ≡ refreshed (means self.old) node }
        ensures declined { is_err result ≡ true → means self.new ≡ means self.old }
        ensures beyond { Beyond (used self.old) (whole self.old) (whole self.new) }
        ensures lender { lender self.new ≡ lender self.old }
    {
        let cells = &mut *self.cells;
        medium::refresh::<F, Cells>(cells, self.shape, node)
    }

    ghost sound = { bank_sound };
}
