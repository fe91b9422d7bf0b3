// The listing of a node: which places its mend reads, in their order.
ghost use Rattle.std.specs.Prelude.{◌≡◌, ◌<◌};
ghost use Rattle.array.specs.Layout.{nodes};
ghost use Rattle.array.specs.Sheet.{mend_entries, given_row, slot as slot_of};

use crate::data_sheet::DataSheet;
use crate::parity_sheet::ParitySheet;
use array::Parameters;
use sheet::{Entry, Listing};

// The listing of a node.
#[derive(Clone, Copy)]
pub struct NodeSheet {
    pub(crate) parameters: Parameters,
    pub(crate) node: usize,
    ghost within: { node < nodes parameters },
}

impl NodeSheet {
    pub fn new(parameters: Parameters, node: usize) -> NodeSheet
        requires { node < nodes parameters }
        ensures { (result.parameters ≡ parameters) × (result.node ≡ node) }
    {
        NodeSheet { parameters, node }
    }

    pub fn parameters(self) -> Parameters
        ensures { result ≡ self.parameters }
    {
        self.parameters
    }

    // The node that is mended.
    pub fn node(self) -> usize
        ensures { result ≡ self.node }
    {
        self.node
    }

    // The row of the symbol that a parity place gives in the mend of a data node.
    fn given_row(self, row: usize, node: usize) -> usize
        requires { (row < self.parameters.k) × (node < nodes self.parameters) }
        ensures { (result ≡ given_row self.parameters self.node row node) × (result < nodes self.parameters) }
    {
        let shape = self.parameters;
        if row != self.node {
            row
        } else if node < shape.first_step() {
            self.node
        } else {
            shape.wrap(self.node + shape.step_of(node))
        }
    }

    // The record of working memory for a place.
    // Kept: a place off the array has record 0, since any will do: a table compares the place that a record names.
    #[tactic(auto, unfolding(array::specs::Sheet::slot))]
    pub fn slot(self, row: usize, node: usize) -> usize
        ensures { result ≡ slot_of self.parameters self.node row node }
    {
        let shape = self.parameters;
        if row >= shape.k || node >= shape.nodes() {
            return 0;
        }
        if node < shape.k {
            return shape.k * row + node;
        }
        shape.k * self.given_row(row, node) + self.node
    }
}

#[tactic(auto, unfolding(array::specs::Sheet::mend_entries))]
impl Listing for NodeSheet {
    ghost entries = { λ s. mend_entries s.parameters s.node };

    fn len(&self) -> usize {
        let NodeSheet { parameters, node } = *self;
        if node < parameters.k {
            DataSheet { parameters, node }.len()
        } else {
            ParitySheet { parameters, node }.len()
        }
    }

    fn at(&self, i: usize) -> Entry {
        let NodeSheet { parameters, node } = *self;
        if node < parameters.k {
            DataSheet { parameters, node }.at(i)
        } else {
            ParitySheet { parameters, node }.at(i)
        }
    }
}
