// The symbols of a slice row by row, as a table of symbols by place.
ghost use Rattle.std.specs.Prelude.{◌≡◌, ◌*◌, length};
ghost use Rattle.reading.specs.Tables.{laid_out};

use field::NumberedField;
use sheet::Table;

// Symbols row by row.
#[derive(Drop)]
pub struct Data<'s, F> {
    pub symbols: &'s [F],
    pub rows: usize,
    pub columns: usize,
    ghost whole: { length symbols.now ≡ rows * columns },
}

impl<F: NumberedField> Table<F> for Data<'_, F> {
    ghost held = { λ d. laid_out F.Field.ops.zero d.symbols.now d.rows d.columns };

    #[tactic(auto, using(crate::proofs::Gathering::data_within), unfolding(crate::specs::Tables::laid_out))]
    fn look(&self, row: usize, node: usize) -> F {
        if row >= self.rows || node >= self.columns {
            return F::zero();
        }
        self.symbols[row * self.columns + node]
    }
}
