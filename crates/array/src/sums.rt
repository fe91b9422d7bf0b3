// The sums that symbols are made of and solved by.
ghost use Rattle.std.specs.Prelude.{◌≡◌, ◌<◌, ◌≤◌};
ghost use Rattle.row.specs.Interpolation.{basis};
ghost use Rattle.row.specs.Numbered.{numbered as numbered_of};
ghost use Rattle.array.specs.Layout.{skip as skip_of};
ghost use Rattle.array.specs.Symbols.{past};
ghost use Rattle.array.specs.Recovered.{around, by_local};

use crate::layout::skip;
use crate::parameters::Parameters;
use field::{Field, NumberedField};
use row::{Points, basis, numbered};
use sheet::Table;

// The symbols of the nodes 0, .., k but `gap`.
#[derive(Clone, Copy)]
struct NodesBut {
    k: usize,
    gap: usize,
    ghost few: { k ≤ 32 },
}

impl<F: NumberedField> Points<F> for NodesBut {
    ghost count = { λ s. s.k };

    ghost point = { λ s l. numbered_of F.Field.ops.zero F.symbol (skip_of s.gap l) };

    fn len(&self) -> usize {
        self.k
    }

    fn point(&self, l: usize) -> F {
        numbered(skip(self.gap, l))
    }
}

// What the symbol at the node listed at `l` counts at `at`.
// Kept: a function beside `row::weight`, which answers a fault where this asks for l < k; both call `basis`.
pub fn weight<F: NumberedField>(k: usize, gap: usize, l: usize, at: F) -> F
    requires { (k ≤ 32) × (l < k) }
    ensures { result ≡ basis F.Field.ops (λ l. numbered_of F.Field.ops.zero F.symbol (skip_of gap l)) k l at }
{
    basis(&NodesBut { k, gap }, l, at)
}

// The row rule at a node of a row, from the row at the nodes 0, .., k but `gap`.
// Kept: the symbols stand in a row of a table, which is no slice, and a closure that looks there would carry clauses of its own into `interpolate`.
#[tactic(auto, using(row::proofs::Lagrange::sum_more), unfolding(crate::specs::Recovered::around))]
pub fn around<F: NumberedField, T: Table<F>>(
    shape: Parameters,
    table: &T,
    gap: usize,
    row: usize,
    node: usize,
) -> F
    ensures { result ≡ around F.Field.ops (numbered_of F.Field.ops.zero F.symbol) shape (T.Table.held table.now) gap row node }
{
    let point = numbered::<F>(node);
    let mut total = F::zero();
    for l in 0..shape.k {
        let given = table.look(row, skip(gap, l));
        total = total.sum(given.product(weight(shape.k, gap, l, point)));
    }
    total
}

// The sum of the symbols past the diagonal that the node of step t adds in a row.
#[tactic(auto, using(crate::proofs::Turns::sum_to_more), unfolding(crate::specs::Symbols::past, crate::specs::Symbols::sum_to))]
pub fn past<F: Field, T: Table<F>>(shape: Parameters, table: &T, row: usize, t: usize) -> F
    requires { (row < shape.k) × (t < shape.k) }
    ensures { result ≡ past F.ops shape (T.Table.held table.now) row t }
{
    let mut total = F::zero();
    for m in 1..shape.k - t {
        total = total.sum(table.look(row, shape.wrap(row + m)));
    }
    total
}

// The symbol x places past the diagonal in a row, by the last local node.
#[tactic(auto, using(crate::proofs::Turns::sum_but_more, crate::proofs::Turns::sum_but_skip), unfolding(crate::specs::Recovered::by_local, crate::specs::Symbols::sum_but, crate::specs::Symbols::sum_to))]
pub fn by_local<F: Field, T: Table<F>>(shape: Parameters, table: &T, x: usize, row: usize) -> F
    requires { row < shape.k }
    ensures { result ≡ by_local F.ops shape (T.Table.held table.now) x row }
{
    let mut rest = F::zero();
    for m in 1..shape.reach() {
        if m != x {
            rest = rest.sum(table.look(row, shape.wrap(row + m)));
        }
    }
    let last = table.look(row, shape.step_node(shape.steps()));
    let next = table.look(shape.wrap(row + shape.steps()), row);
    last.difference(next).difference(rest)
}
