// The symbols of a node: made from the data, or solved from the places of its read sheet.
ghost use Rattle.std.specs.Prelude.{◌≡◌, ◌+◌, ◌<◌, ◌≤◌};
ghost use Rattle.row.specs.Numbered.{numbered as numbered_of};
ghost use Rattle.array.specs.Symbols.{array};
ghost use Rattle.array.specs.Recovered.{recovered};

use crate::weighing::NodeWeights;
use array::{around, by_local, past};
use field::{Field, NumberedField};
use sheet::Table;

impl<F: NumberedField> NodeWeights<F> {
    // The symbol in a row of a data node, from the places of its read sheet.
    #[tactic(auto, unfolding(array::specs::Recovered::recovered, array::specs::Recovered::recovered_at))]
    pub(crate) fn data_symbol<T: Table<F>>(&self, table: &T, row: usize) -> F
        requires gap { self.now.gap ≡ self.now.sheet.node }
        requires within { (self.now.sheet.node < self.now.sheet.parameters.k) × (row < self.now.sheet.parameters.k) }
        ensures { result ≡ recovered F.Field.ops (numbered_of F.Field.ops.zero F.symbol) self.now.sheet.parameters (T.Table.held table.now) self.now.sheet.node row }
    {
        let shape = self.sheet.parameters;
        let node = self.sheet.node;
        match shape.offset(row, node) {
            0 => self.weigh(table, node),
            t if t <= shape.tau => {
                let at = shape.step_node(t);
                table
                    .look(node, at)
                    .difference(around(shape, table, node, node, at))
            }
            s if s <= shape.steps() => {
                let at = shape.step_node(s);
                table.look(node, at).difference(past(shape, table, node, s))
            }
            _ if shape.b == 0 => self.weigh(table, row),
            x => by_local(shape, table, shape.k - x, row),
        }
    }

    // The symbol in a row of a parity node, from the data.
    pub(crate) fn parity_symbol<T: Table<F>>(&self, table: &T, row: usize) -> F
        requires gap { self.now.gap ≡ self.now.sheet.parameters.k }
        requires within { (self.now.sheet.parameters.k ≤ self.now.sheet.node) × (row < self.now.sheet.parameters.k) }
        ensures { result ≡ array F.Field.ops (numbered_of F.Field.ops.zero F.symbol) self.now.sheet.parameters (T.Table.held table.now) row self.now.sheet.node }
    {
        let shape = self.sheet.parameters;
        let node = self.sheet.node;
        if node < shape.first_step() {
            return self.weigh(table, row);
        }
        let t = shape.step_of(node);
        let further = table.look(shape.wrap(row + t), row);
        if t <= shape.tau {
            self.weigh(table, row).sum(further)
        } else {
            further.sum(past(shape, table, row, t))
        }
    }
}
