// A row of data symbols, and what is read of it in place of one of them.
ghost use Rattle.std.specs.Prelude.{◌≡◌, ◌<◌, ◌≤◌, ◌^◌, map, length, IfOk, slice_index_or};
ghost use Rattle.field.specs.declared.decimal.Decimal.TheVariants.{Zero};
ghost use Rattle.rebuilding.specs.Report.{symbol_in, skip, read_places, known as known_of};

use field::Decimal;
use std::alloc::{AllocError, Global};

// The data symbols of a row, at most nine, and the symbol that follows them.
#[derive(Clone, Copy)]
pub(crate) struct Row<'s> {
    pub(crate) symbols: &'s [Decimal],
    pub(crate) last: Decimal,
    ghost small: { length symbols.now ≤ 9 },
    ghost follows: { last ≡ symbol_in symbols.now (length symbols.now) },
}

// The row's symbol at number m.
fn symbol_in_row(symbols: &[Decimal], m: usize) -> Decimal
    requires small { length symbols.now ≤ 9 }
    requires number { m ≤ 10 }
    ensures { result ≡ symbol_in symbols.now m }
{
    row::row_symbol(symbols, m).unwrap()
}

// The number i of 0, 1, 2, .. with j left out.
// Kept: an array's nodes are listed so too, but a row of digits stands below the arrays.
fn skip_over(j: usize, i: usize) -> usize
    requires { i < 2 ^ 63 }
    ensures { result ≡ skip j i }
{
    if i < j { i } else { i + 1 }
}

impl<'s> Row<'s> {
    pub(crate) fn of(symbols: &'s [Decimal]) -> Row<'s>
        requires { length symbols.now ≤ 9 }
        ensures { result.symbols.now ≡ symbols.now }
    {
        let last = symbol_in_row(symbols, symbols.len());
        Row { symbols, last }
    }

    // The symbol at number m.
    pub(crate) fn symbol(&self, m: usize) -> Decimal
        requires { m ≤ 10 }
        ensures { result ≡ symbol_in self.now.symbols.now m }
    {
        symbol_in_row(self.symbols, m)
    }

    // The symbol at number n: one of the data, or the one that follows them.
    fn known(&self, n: usize) -> Decimal
        ensures { result ≡ known_of self.now.symbols.now self.now.last n }
    {
        self.symbols.get(n).copied().unwrap_or(self.last)
    }

    // The numbers that are read in place of j.
    pub(crate) fn numbers_for(&self, alloc: Global, j: usize) -> Result<Vec<usize>, AllocError>
        ensures { IfOk result (λ v. v.items ≡ read_places (length self.now.symbols.now) j) }
    {
        (0..self.symbols.len())
            .map(|i| skip_over(j, i))
            .collect(alloc)
    }

    // The symbols at the numbers.
    fn symbols_at(&self, alloc: Global, numbers: &[usize]) -> Result<Vec<Decimal>, AllocError>
        ensures { IfOk result (λ v. v.items ≡ map (known_of self.now.symbols.now self.now.last) numbers.now) }
    {
        numbers.iter().map(|n| self.known(*n)).collect(alloc)
    }

    // The symbol at place j, rebuilt from those at the numbers that are read in its place.
    pub(crate) fn rebuilt(
        &self,
        alloc: Global,
        numbers: &[usize],
        j: usize,
    ) -> Result<Decimal, AllocError>
        requires place { j < length self.now.symbols.now }
        requires numbers { numbers.now ≡ read_places (length self.now.symbols.now) j }
        ensures { IfOk result (λ u. u ≡ slice_index_or self.now.symbols.now j Zero) }
    {
        let values = self.symbols_at(alloc, numbers)?;
        Ok(row::rebuild(numbers, &values, j).unwrap())
    }
}
