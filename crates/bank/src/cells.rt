// How a memory bank keeps its places: each in a cell.
ghost use Rattle.std.specs.Prelude.{◌≡◌, min, [], ◌∷◌};
ghost use Rattle.bank.specs.Cells.{bare, cell as found, rewound};

use crate::LIFE;
use crate::cell::Cell;
use field::NumberedField;
use medium::Medium;

// Places in cells, one each.
pub struct Cells;

impl<F: NumberedField> Medium<F> for Cells {
    type Unit = Cell<F>;

    ghost life = { 1000 };

    ghost each = { 1 };

    ghost symbols = { λ cells k. (found cells k).symbol };

    ghost meters = { λ cells k. min (found cells k).meter 1000 };

    ghost counts = { λ cells k. (found cells k).meter };

    ghost rest = { λ cells k. rewound (found cells k) ∷ [] };

    ghost Bare = { λ cells k. found cells k ≡ bare };

    fn life() -> u16 {
        LIFE
    }

    fn symbol(cells: &[Cell<F>], spot: usize) -> Option<F> {
        cells[spot].symbol
    }

    fn meter(cells: &[Cell<F>], spot: usize) -> u16 {
        cells[spot].meter.min(LIFE)
    }

    fn raise(cells: &mut [Cell<F>], spot: usize) {
        cells[spot].meter += 1;
    }

    fn put(cells: &mut [Cell<F>], spot: usize, x: F) {
        cells[spot].symbol = Some(x);
    }

    fn blank(cells: &mut [Cell<F>], spot: usize) {
        cells[spot] = Cell {
            symbol: None,
            meter: 0,
        };
    }

    fn rewind(cells: &mut [Cell<F>], spot: usize) {
        cells[spot].meter = 0;
    }
}
