// The listing of a data node: its row, the steps that its row has, and the places for each offset past them.
ghost use Rattle.std.specs.Prelude.{◌≡◌, ◌<◌, length, slice_index_or};
ghost use Rattle.array.specs.Layout.{steps};
ghost use Rattle.array.specs.Sheet.{entries as data_entries, far_places, far_width};

use array::{Parameters, skip};
use sheet::{Entry, Listing, Part, Place};

// The listing of a data node.
#[derive(Clone, Copy)]
pub(crate) struct DataSheet {
    pub(crate) parameters: Parameters,
    pub(crate) node: usize,
    ghost data_node: { node < parameters.k },
}

impl DataSheet {
    // How many places are listed for an offset past the last step.
    fn far_width(self) -> usize
        ensures { result ≡ far_width self.parameters }
    {
        if self.parameters.b == 0 {
            self.parameters.k
        } else {
            self.parameters.reach()
        }
    }

    // The place listed at `l` for the offset x.
    fn far_place(self, x: usize, l: usize) -> Place
        requires { (steps self.parameters < x) × (x < self.parameters.k) × (l < far_width self.parameters) }
        ensures { result ≡ slice_index_or (far_places self.parameters self.node x) l result }
    {
        let shape = self.parameters;
        let row = shape.wrap(self.node + x);
        if shape.b == 0 {
            Place {
                row,
                node: skip(self.node, l),
            }
        } else {
            shape.local_place(x, row, l)
        }
    }
}

impl Listing for DataSheet {
    ghost entries = { λ s. data_entries s.parameters s.node };

    #[tactic(auto, using(array::proofs::Indexed::entries_length))]
    fn len(&self) -> usize {
        let shape = self.parameters;
        shape.k + shape.steps() + (shape.reach() - 1) * self.far_width()
    }

    fn at(&self, i: usize) -> Entry {
        let shape = self.parameters;
        let row = self.node;
        if i < shape.k {
            return Entry {
                part: Part::First,
                place: Place {
                    row,
                    node: skip(row, i),
                },
            };
        }
        let head = shape.k + shape.steps();
        if i < head {
            let t = i - shape.k + 1;
            let part = if t <= shape.tau {
                Part::Second
            } else {
                Part::Third
            };
            return Entry {
                part,
                place: Place {
                    row,
                    node: shape.step_node(t),
                },
            };
        }
        let rest = i - head;
        let width = self.far_width();
        let x = shape.steps() + 1 + rest / width;
        Entry {
            part: Part::Fourth,
            place: self.far_place(x, rest % width),
        }
    }
}
