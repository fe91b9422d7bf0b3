// Writing nodes, and the whole array. Each place is on the store, so no write is declined.
ghost use Rattle.std.specs.Prelude.{◌≡◌, ℕ, ◌<◌, ◌≤◌, true};
ghost use Rattle.calls.specs.Reading.{painted, in_node, in_array, blank_below};
ghost use Rattle.calls.specs.Calls.{fits};

use code::{Code, Solver};
use field::NumberedField;
use sheet::Table;
use store::Store;

// Blanks the nodes below a number.
#[tactic(auto, using(crate::proofs::Painting::blank_start, crate::proofs::Painting::blank_more))]
pub fn clear_nodes<F: NumberedField, S: Store<F>>(store: &mut S, nodes: usize)
    requires { nodes ≤ (S.Store.meaning store.old).nodes }
    ensures { S.Store.meaning store.new ≡ blank_below nodes (S.Store.meaning store.old) }
{
    for node in 0..nodes {
        let _cleared = store.clear(node);
    }
}

// Writes the rows of a node, each solved from a table.
// Kept: whether rows and node lie on the store, only the store that is lent for the call can say.
#[tactic(auto, using(crate::proofs::Painting::painted_none, crate::proofs::Painting::node_start))]
pub fn write_node<F: NumberedField, S: Store<F>, V: Solver<F>, T: Table<F>>(
    store: &mut S,
    solver: &V,
    table: &T,
    rows: usize,
    node: usize,
)
    requires room { (rows ≤ (S.Store.meaning store.old).rows) × (node < (S.Store.meaning store.old).nodes) }
    requires ready { (row : ℕ) → row < rows → V.Solver.ready solver.now row }
    ensures { S.Store.meaning store.new ≡ painted (S.Store.meaning store.old) (in_node rows node) (λ i _. V.Solver.solved solver.now (T.Table.held table.now) i) }
{
    for row in 0..rows {
        let _written = store.write(row, node, solver.solve(table, row));
    }
}

// Writes the whole array over data, node by node.
#[tactic(auto, using(crate::proofs::Painting::painted_none, crate::proofs::Painting::array_start))]
pub fn write_array<F: NumberedField, S: Store<F>, C: Code<F>, T: Table<F>>(
    store: &mut S,
    code: &C,
    table: &T,
)
    requires fine { (C.Code.code code.now).field_size ≤ F.NumberedField.size }
    requires room { fits (C.Code.code code.now) (S.Store.meaning store.old) ≡ true }
    ensures { S.Store.meaning store.new ≡ painted (S.Store.meaning store.old) (in_array (C.Code.code code.now).rows (C.Code.code code.now).nodes) ((C.Code.code code.now).symbol (T.Table.held table.now)) }
{
    let rows = code.rows();
    for node in 0..code.nodes() {
        let column = code.column(node);
        write_node(store, &column, table, rows, node);
    }
}
