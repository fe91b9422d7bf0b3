// What a card store is: its meaning, its calls, its faults, and the check of a store's shape.
#![tactic(auto)]

ghost use Rattle.std.specs.Prelude.{◌≡◌, true, is_err};
ghost use Rattle.store.specs.Meaning.{Meaning, Sound, number_of, judged as judges, probed, metered, placed, summed, read as reads, written, refreshed, cleared};
ghost use Rattle.store.specs.Fit.{Checked, unfit_number};
ghost use Rattle.store.specs.Laid.{found};

use field::NumberedField;

mod fault;
mod shape;

pub use fault::{Cause, StoreFault};
pub use shape::{Shape, Unfit};

impl Shape {
    // Whether rows and nodes are within their bounds, and the memory has `each` units for each place.
    pub fn check(each: u8, rows: usize, nodes: usize, memory: usize) -> Result<Shape, Unfit>
        ensures { Checked each rows nodes memory result }
    {
        if rows < 1
            || rows > 32
            || nodes < 1
            || nodes > 93
            || usize::from(each) * (rows * nodes) > memory
        {
            return Err(Unfit {
                rows,
                nodes,
                memory,
            });
        }
        Ok(Shape { rows, nodes })
    }

    // Where a place lies, if it is on the store.
    pub fn spot(self, row: usize, node: usize) -> Result<usize, StoreFault>
        ensures { result ≡ found self.rows self.nodes row node }
    {
        if row >= self.rows || node >= self.nodes {
            return Err(StoreFault {
                row,
                node,
                cause: Cause::OffStore,
            });
        }
        Ok(self.rows * node + row)
    }
}

impl Unfit {
    // The number of the decline.
    pub fn number(self) -> u8
        ensures { result ≡ unfit_number }
    {
        10
    }
}

impl Cause {
    // The number of the decline.
    pub fn number(self) -> u8
        ensures { result ≡ number_of self }
    {
        self as u8
    }
}

// A store of symbols of the field F.
// Kept: a row and a node are two numbers in each call, as the makers of cards name them.
pub trait Store<F: NumberedField> {
    // What the store means now.
    ghost meaning: { Self → Meaning F };

    // How many rows it has.
    fn rows(&self) -> usize
        ensures { result ≡ (meaning self.now).rows };

    // How many nodes it has.
    fn nodes(&self) -> usize
        ensures { result ≡ (meaning self.now).nodes };

    // How many reads a place stands.
    fn life(&self) -> u16
        ensures { result ≡ (meaning self.now).life };

    // The symbol of a place; declined off the store, at a blank place and at a worn one, in this order.
    fn probe(&self, row: usize, node: usize) -> Result<F, StoreFault>
        ensures { result ≡ probed (meaning self.now) row node };

    // The meter of a place; declined off the store.
    fn meter(&self, row: usize, node: usize) -> Result<u16, StoreFault>
        ensures { result ≡ metered (meaning self.now) row node };

    // Answers as `probe` does; where that is a symbol, the meter is raised by one.
    fn read(&mut self, row: usize, node: usize) -> Result<F, StoreFault>
        ensures answers { result ≡ probed (meaning self.old) row node }
        ensures leaves { meaning self.new ≡ reads (meaning self.old) row node }
        ensures declined { is_err result ≡ true → meaning self.new ≡ meaning self.old };

    // Puts a symbol at a place and leaves all meters; declined off the store.
    fn write(&mut self, row: usize, node: usize, x: F) -> Result<(), StoreFault>
        ensures answers { result ≡ placed (meaning self.old) row node }
        ensures leaves { meaning self.new ≡ written (meaning self.old) row node x }
        ensures declined { is_err result ≡ true → meaning self.new ≡ meaning self.old };

    // Blanks a node, sets its meters to 0 and answers their former sum; declined off the store.
    fn clear(&mut self, node: usize) -> Result<u32, StoreFault>
        ensures answers { result ≡ summed (meaning self.old) node }
        ensures leaves { meaning self.new ≡ cleared (meaning self.old) node }
        ensures declined { is_err result ≡ true → meaning self.new ≡ meaning self.old };

    // Sets the meters of a node to 0, keeps its symbols and answers the meters' former sum; declined off the store.
    fn refresh(&mut self, node: usize) -> Result<u32, StoreFault>
        ensures answers { result ≡ summed (meaning self.old) node }
        ensures leaves { meaning self.new ≡ refreshed (meaning self.old) node }
        ensures declined { is_err result ≡ true → meaning self.new ≡ meaning self.old };

    // What it means is within the bounds of every store.
    ghost sound: { (s : Self) → Sound (meaning s) };
}

// What a place on the store answers, by what it holds and its meter.
pub fn judged<F: NumberedField>(
    held: Option<F>,
    meter: u16,
    life: u16,
    row: usize,
    node: usize,
) -> Result<F, StoreFault>
    ensures { result ≡ judges held meter life row node }
{
    let cause = match held {
        Some(x) if meter != life => return Ok(x),
        Some(_) => Cause::Worn,
        None => Cause::Blank,
    };
    Err(StoreFault { row, node, cause })
}
