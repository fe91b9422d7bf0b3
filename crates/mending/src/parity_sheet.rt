// The listing of a parity node: the data that its symbols are made from, row by row.
ghost use Rattle.std.specs.Prelude.{◌≡◌, ◌-◌, ◌*◌, ◌<◌, ◌≤◌, slice_index_or};
ghost use Rattle.sheet.specs.declared.place.Part.TheVariants.{First};
ghost use Rattle.sheet.specs.Places.{in_part};
ghost use Rattle.array.specs.Layout.{nodes};
ghost use Rattle.array.specs.Sheet.{kept_node, least_offset, offset_places};

use array::Parameters;
use sheet::{Entry, Listing, Part, Place};

// The listing of a parity node.
#[derive(Clone, Copy)]
pub(crate) struct ParitySheet {
    pub(crate) parameters: Parameters,
    pub(crate) node: usize,
    ghost parity_node: { (parameters.k ≤ node) × (node < nodes parameters) },
}

// The node listed at c among those of offset t and more in a row.
fn kept_node(t: usize, row: usize, c: usize) -> usize
    requires { (t ≤ 32) × (row < 32) × (c < 32) }
    ensures { result ≡ kept_node t row c }
{
    if row + 1 < t {
        c + (row + 1)
    } else if c < row + 1 - t {
        c
    } else {
        c + t
    }
}

impl ParitySheet {
    // The least offset of the data that the node's symbols are made from.
    fn least_offset(self) -> usize
        ensures { (result ≡ least_offset self.parameters self.node) × (result < self.parameters.k) }
    {
        if self.node < self.parameters.k + self.parameters.a {
            0
        } else {
            self.parameters.step_of(self.node)
        }
    }

    // The place listed at an index.
    fn place_at(self, i: usize) -> Place
        requires { i < self.parameters.k * (self.parameters.k - least_offset self.parameters self.node) }
        ensures { result ≡ slice_index_or (offset_places self.parameters (least_offset self.parameters self.node)) i result }
    {
        let t = self.least_offset();
        let width = self.parameters.k - t;
        let row = i / width;
        Place {
            row,
            node: kept_node(t, row, i % width),
        }
    }
}

#[tactic(auto, using(crate::proofs::Listed::parity_length))]
impl Listing for ParitySheet {
    ghost entries = { λ s. in_part First (offset_places s.parameters (least_offset s.parameters s.node)) };

    fn len(&self) -> usize {
        self.parameters.k * (self.parameters.k - self.least_offset())
    }

    fn at(&self, i: usize) -> Entry {
        Entry {
            part: Part::First,
            place: self.place_at(i),
        }
    }
}
