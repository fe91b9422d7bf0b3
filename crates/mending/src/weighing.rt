// The weights of the row rule, computed once for a node, and the sums that they make.
ghost use Rattle.std.specs.Prelude.{◌≡◌, ⊤, ℕ, ◌+◌, ◌<◌, ◌≤◌};
ghost use Rattle.row.specs.Numbered.{numbered as numbered_of};
ghost use Rattle.array.specs.Recovered.{around};
ghost use Rattle.mending.specs.Weights.{Weighs};

use crate::node_sheet::NodeSheet;
use array::{skip, weight};
use field::{Field, NumberedField};
use row::numbered;
use sheet::Table;
use std::alloc::AllocError;
use std::marker::PhantomData;

// A node's listing, and its weights from the nodes 0, .., k but `gap`, by their numbers: a data node below the gap and a
// node of Class B have none.
pub(crate) struct NodeWeights<F: NumberedField> {
    pub(crate) sheet: NodeSheet,
    pub(crate) gap: usize,
    // Kept: 32 numbers, not k symbols: no heap is lent, and a caller generic over F would owe that 32 symbols fit into memory.
    weights: [usize; 32],
    of: PhantomData<F>,
    ghost room: { sheet.parameters.k + sheet.parameters.a ≤ F.size },
    ghost weighs: { gap ≤ sheet.node → sheet.node < sheet.parameters.k + sheet.parameters.a → Weighs F.Field.ops (numbered_of F.Field.ops.zero F.symbol) sheet.parameters.k gap sheet.node weights },
}

// Kept: a copy by hand, since no derive stands over the ghost fields of a generic struct.
impl<F: NumberedField> Clone for NodeWeights<F> {
    ghost is_clone = { λ weights clone. clone ≡ weights };

    ghost is_infallible = { λ _. ⊤ };

    fn clone(&self) -> Result<NodeWeights<F>, AllocError> {
        Ok(*self)
    }
}

impl<F: NumberedField> Copy for NodeWeights<F> {}

// Weights are kept by their numbers, so they go to any thread, whatever the field's symbols are.
unsafe impl<F: NumberedField> Send for NodeWeights<F> {}

unsafe impl<F: NumberedField> Sync for NodeWeights<F> {}

// The weights at a node, from the nodes 0, .., k but `gap`.
fn weights<F: NumberedField>(k: usize, gap: usize, node: usize) -> [usize; 32]
    requires { k ≤ 32 }
    ensures { Weighs F.Field.ops (numbered_of F.Field.ops.zero F.symbol) k gap node result }
{
    let point = numbered::<F>(node);
    let mut weights = [0; 32];
    for (l, kept) in weights[..k].iter_mut().enumerate() {
        *kept = weight(k, gap, l, point).number();
    }
    weights
}

impl<F: NumberedField> NodeWeights<F> {
    pub(crate) fn new(sheet: NodeSheet, gap: usize) -> NodeWeights<F>
        requires { sheet.parameters.k + sheet.parameters.a ≤ F.size }
        ensures { (result.sheet ≡ sheet) × (result.gap ≡ gap) }
    {
        let NodeSheet { parameters, node } = sheet;
        let weights = if gap <= node && node < parameters.k + parameters.a {
            weights::<F>(parameters.k, gap, node)
        } else {
            // Kept: zeros where no weight is used, since the node's number says so and an Option would say it again.
            [0; 32]
        };
        NodeWeights {
            sheet,
            gap,
            weights,
            of: PhantomData,
        }
    }

    // Kept: a loop beside `array`'s, since these weights are stored and those are computed.
    // The row rule at the node, from a row at the nodes 0, .., k but the gap.
    #[tactic(auto, unfolding(array::specs::Recovered::around))]
    pub(crate) fn weigh<T: Table<F>>(&self, table: &T, row: usize) -> F
        requires { (self.now.gap ≤ self.now.sheet.node) × (self.now.sheet.node < self.now.sheet.parameters.k + self.now.sheet.parameters.a) }
        ensures { result ≡ around F.Field.ops (numbered_of F.Field.ops.zero F.symbol) self.now.sheet.parameters (T.Table.held table.now) self.now.gap row self.now.sheet.node }
    {
        let mut total = F::zero();
        for (l, weight) in self.weights[..self.sheet.parameters.k].iter().enumerate() {
            let given = table.look(row, skip(self.gap, l));
            total = total.sum(given.product(numbered::<F>(*weight)));
        }
        total
    }
}
