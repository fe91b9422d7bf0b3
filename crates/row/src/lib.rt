// The row rule: the symbols of a row, from k of them.
#![tactic(auto)]

ghost use Rattle.std.specs.Prelude.{◌≡◌, ◌≤◌, length, nat_le};
ghost use Rattle.std.specs.List.{list_any};
ghost use Rattle.row.specs.Numbered.{numbered as numbered_of};
ghost use Rattle.row.specs.RowRule.{RowRule, Replacing};
ghost use Rattle.row.specs.Weights.{weighed, data_weights, listed_weights, ServeData, ServeListed};
ghost use Rattle.row.specs.Answers.{symbol_answer, weight_answer, rebuild_answer, repeated, AnyGiveAll};

use field::{Field, NumberedField};
use points::fill_weights;

mod fault;
mod points;

pub use fault::RowFault;
pub use points::{FirstSymbols, ListedSymbols, Points, basis, interpolate, others};

// The symbol numbered n (zero where there is none).
pub fn numbered<F: NumberedField>(n: usize) -> F
    ensures { result ≡ numbered_of F.Field.ops.zero F.symbol n }
{
    F::symbol(n).unwrap_or(F::zero())
}

// The row's symbol at number m: the value, at the symbol numbered m, of the polynomial of the row.
pub fn row_symbol<F: NumberedField>(symbols: &[F], m: usize) -> Result<F, RowFault>
    ensures answer { result ≡ symbol_answer F.Field.ops F.size F.symbol symbols.now m }
    ensures rule { length symbols.now ≤ F.size → RowRule F.Field.ops F.symbol symbols.now }
{
    let count = symbols.len();
    if count > F::size() {
        return Err(RowFault::TooMany);
    }
    if m >= F::size() {
        return Err(RowFault::NoSymbol);
    }
    Ok(interpolate(&FirstSymbols { count }, symbols, numbered(m)))
}

// What the data symbol j of k counts at number m.
pub fn weight<F: NumberedField>(k: usize, j: usize, m: usize) -> Result<F, RowFault>
    ensures { result ≡ weight_answer F.Field.ops F.size F.symbol k j m }
{
    if k > F::size() {
        return Err(RowFault::TooMany);
    }
    if j >= k {
        return Err(RowFault::NotData);
    }
    if m >= F::size() {
        return Err(RowFault::NoSymbol);
    }
    Ok(basis(&FirstSymbols { count: k }, j, numbered(m)))
}

// The row's symbol at a number after one data symbol is replaced, from the one before and the data symbol's weight there.
pub fn replaced<F: NumberedField>(weight: F, old: F, new: F, before: F) -> F
    ensures answer { result ≡ F.Field.ops.sum before (F.Field.ops.product (F.Field.ops.difference new old) weight) }
    ensures replaces { Replacing F.Field.ops F.size F.symbol weight old new before result }
{
    before.sum(new.difference(old).product(weight))
}

// Whether a number is listed twice.
#[tactic(auto, using(crate::proofs::Listings::listed_any))]
fn is_repeated(numbers: &[usize]) -> bool
    ensures { result ≡ repeated numbers.now }
{
    let mut rest = numbers;
    while let Some((n, after)) = rest.split_first() {
        if after.contains(n) {
            return true;
        }
        rest = after;
    }
    false
}

// Whether a number is not below the size.
fn is_beyond(size: usize, numbers: &[usize]) -> bool
    ensures { result ≡ list_any (λ n. nat_le size n) numbers.now }
{
    numbers.iter().any(|n| size <= *n)
}

// The row's symbol at number m, from its symbols at any k different numbers.
// Kept: numbers and values may be of any two lengths, and that they differ is answered.
pub fn rebuild<F: NumberedField>(numbers: &[usize], values: &[F], m: usize) -> Result<F, RowFault>
    ensures answer { result ≡ rebuild_answer F.Field.ops F.size F.symbol numbers.now values.now m }
    ensures any { AnyGiveAll F.Field.ops F.size F.symbol numbers.now values.now m result }
{
    if numbers.len() != values.len() {
        return Err(RowFault::Uneven);
    }
    if is_beyond(F::size(), numbers) || F::size() <= m {
        return Err(RowFault::NoSymbol);
    }
    if is_repeated(numbers) {
        return Err(RowFault::Repeated);
    }
    Ok(interpolate(&ListedSymbols { numbers }, values, numbered(m)))
}

// Stores what each of the k data symbols counts at number m, k being the length of `out`.
pub fn data_weights_into<F: NumberedField>(m: usize, out: &mut [F])
    ensures weights { out.new ≡ data_weights F.Field.ops F.symbol (length out.old) m }
    ensures serve { ServeData F.Field.ops F.symbol m out.new }
{
    fill_weights(&FirstSymbols { count: out.len() }, m, out);
}

// Stores what each symbol at the listed numbers counts at number m; past the list, zero.
pub fn weights_into<F: NumberedField>(numbers: &[usize], m: usize, out: &mut [F])
    ensures weights { out.new ≡ listed_weights F.Field.ops F.symbol numbers.now m (length out.old) }
    ensures serve { ServeListed F.Field.ops F.size F.symbol numbers.now m out.new }
{
    fill_weights(&ListedSymbols { numbers }, m, out);
}

// The sum of the values, each times its weight; a value that is missing counts as zero.
// Kept: weights and values may be of any two lengths.
pub fn weigh<F: Field>(weights: &[F], values: &[F]) -> F
    ensures { result ≡ weighed F.ops weights.now values.now }
{
    let mut total = F::zero();
    for (weight, value) in weights.iter().zip(values) {
        total = total.sum(value.product(*weight));
    }
    total
}
