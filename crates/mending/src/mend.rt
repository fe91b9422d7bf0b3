// How a node is mended, and how it is made.
ghost use Rattle.std.specs.Prelude.{◌≡◌, ⊤, ◌+◌, ◌<◌, ◌≤◌};
ghost use Rattle.row.specs.Numbered.{numbered as numbered_of};
ghost use Rattle.array.specs.Layout.{nodes};
ghost use Rattle.array.specs.Symbols.{array};
ghost use Rattle.array.specs.Recovered.{restored};
ghost use Rattle.array.specs.Sheet.{mend_entries, slot as slot_of};
ghost use Rattle.mending.specs.Weights.{mend_gap};

use crate::node_sheet::NodeSheet;
use crate::weighing::NodeWeights;
use array::Parameters;
use code::{ReadPlan, Solver};
use field::{Field, NumberedField};
use sheet::{Entry, Listing, Table};
use std::alloc::AllocError;

// How a node is mended: its listing, and the weights for its rows.
pub struct Mend<F: NumberedField> {
    weights: NodeWeights<F>,
    ghost gap: { weights.gap ≡ mend_gap weights.sheet.parameters weights.sheet.node },
}

// Kept: a copy by hand, since no derive stands over the ghost fields of a generic struct.
impl<F: NumberedField> Clone for Mend<F> {
    ghost is_clone = { λ mend clone. clone ≡ mend };

    ghost is_infallible = { λ _. ⊤ };

    fn clone(&self) -> Result<Mend<F>, AllocError> {
        Ok(*self)
    }
}

impl<F: NumberedField> Copy for Mend<F> {}

impl<F: NumberedField> Mend<F> {
    // Kept: what the node and the field must be is asked by each maker, since parameters name neither.
    pub fn new(parameters: Parameters, node: usize) -> Mend<F>
        requires room { parameters.k + parameters.a ≤ F.size }
        requires within { node < nodes parameters }
        ensures { (result.weights.sheet.parameters ≡ parameters) × (result.weights.sheet.node ≡ node) }
    {
        Mend {
            weights: NodeWeights::new(NodeSheet::new(parameters, node), node.min(parameters.k)),
        }
    }
}

impl<F: NumberedField> Listing for Mend<F> {
    ghost entries = { λ m. mend_entries m.weights.sheet.parameters m.weights.sheet.node };

    fn len(&self) -> usize {
        self.weights.sheet.len()
    }

    fn at(&self, i: usize) -> Entry {
        self.weights.sheet.at(i)
    }
}

#[tactic(auto, unfolding(array::specs::Recovered::restored))]
impl<F: NumberedField> Solver<F> for Mend<F> {
    ghost ready = { λ m row. row < m.weights.sheet.parameters.k };

    ghost solved = { λ m v row. restored F.Field.ops (numbered_of F.Field.ops.zero F.symbol) m.weights.sheet.parameters v m.weights.sheet.node row };

    fn solve<T: Table<F>>(&self, table: &T, row: usize) -> F {
        let sheet = self.weights.sheet;
        if sheet.node < sheet.parameters.k {
            self.weights.data_symbol(table, row)
        } else {
            self.weights.parity_symbol(table, row)
        }
    }
}

impl<F: NumberedField> ReadPlan<F> for Mend<F> {
    ghost slot = { λ m row node. slot_of m.weights.sheet.parameters m.weights.sheet.node row node };

    fn slot(&self, row: usize, node: usize) -> usize {
        self.weights.sheet.slot(row, node)
    }
}

// How a node is made from the data.
pub struct Column<F: NumberedField> {
    weights: NodeWeights<F>,
    ghost gap: { weights.gap ≡ weights.sheet.parameters.k },
}

// Kept: a copy by hand, since no derive stands over the ghost fields of a generic struct.
impl<F: NumberedField> Clone for Column<F> {
    ghost is_clone = { λ column clone. clone ≡ column };

    ghost is_infallible = { λ _. ⊤ };

    fn clone(&self) -> Result<Column<F>, AllocError> {
        Ok(*self)
    }
}

impl<F: NumberedField> Copy for Column<F> {}

impl<F: NumberedField> Column<F> {
    pub fn new(parameters: Parameters, node: usize) -> Column<F>
        requires room { parameters.k + parameters.a ≤ F.size }
        requires within { node < nodes parameters }
        ensures { (result.weights.sheet.parameters ≡ parameters) × (result.weights.sheet.node ≡ node) }
    {
        Column {
            weights: NodeWeights::new(NodeSheet::new(parameters, node), parameters.k),
        }
    }
}

#[tactic(auto, unfolding(array::specs::Symbols::array))]
impl<F: NumberedField> Solver<F> for Column<F> {
    ghost ready = { λ c row. row < c.weights.sheet.parameters.k };

    ghost solved = { λ c d row. array F.Field.ops (numbered_of F.Field.ops.zero F.symbol) c.weights.sheet.parameters d row c.weights.sheet.node };

    fn solve<T: Table<F>>(&self, table: &T, row: usize) -> F {
        let sheet = self.weights.sheet;
        if sheet.node < sheet.parameters.k {
            table.look(row, sheet.node)
        } else {
            self.weights.parity_symbol(table, row)
        }
    }
}
