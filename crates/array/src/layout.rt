// Where things stand in an array.
ghost use Rattle.std.specs.Prelude.{◌≡◌, ◌+◌, ◌<◌, ◌≤◌, slice_index_or};
ghost use Rattle.array.specs.Layout.{nodes, steps, reach, wrap, offset, step_node, first_step, step_of, skip};
ghost use Rattle.array.specs.Sheet.{local_places};

use crate::parameters::Parameters;
use sheet::Place;

impl Parameters {
    // n, the number of nodes.
    pub fn nodes(self) -> usize
        ensures { result ≡ nodes self }
    {
        self.k + self.a + self.b
    }

    // S, the last step.
    pub fn steps(self) -> usize
        ensures { result ≡ steps self }
    {
        self.tau + self.b
    }

    // ρ, how many data symbols of a row the last step leaves.
    pub fn reach(self) -> usize
        ensures { result ≡ reach self }
    {
        self.k - self.steps()
    }

    // Rows and data nodes wrap around.
    pub fn wrap(self, x: usize) -> usize
        ensures { result ≡ wrap self x }
    {
        x % self.k
    }

    // The offset of the symbol in a row of a data node.
    // Kept: rows and nodes are plain numbers to every caller, as in a place, and each call shows that they are on the array.
    pub fn offset(self, row: usize, node: usize) -> usize
        requires { (row < self.k) × (node < self.k) }
        ensures { result ≡ offset self row node }
    {
        self.wrap(row + (self.k - node))
    }

    // The node of step t.
    pub fn step_node(self, t: usize) -> usize
        requires { (1 ≤ t) × (t ≤ steps self) }
        ensures { result ≡ step_node self t }
    {
        self.first_step() + (t - 1)
    }

    // The first node that adds symbols of further rows.
    pub fn first_step(self) -> usize
        ensures { result ≡ first_step self }
    {
        self.k + (self.a - self.tau)
    }

    // The step of such a node.
    pub fn step_of(self, node: usize) -> usize
        requires { (first_step self ≤ node) × (node < 1000) }
        ensures { result ≡ step_of self node }
    {
        node - self.first_step() + 1
    }

    // The place listed at `l` for the symbol of offset x, past the last step, in a row, which the last Class B node gives.
    pub fn local_place(self, x: usize, row: usize, l: usize) -> Place
        requires far { (steps self < x) × (x < self.k) }
        requires some { 1 ≤ self.b }
        requires listed { (row < self.k) × (l < reach self) }
        ensures { result ≡ slice_index_or (local_places self x row) l result }
    {
        match l {
            0 => Place {
                row,
                node: self.step_node(self.steps()),
            },
            1 => Place {
                row: self.wrap(row + self.steps()),
                node: row,
            },
            _ => Place {
                row,
                node: self.wrap(row + skip(self.k - x, l - 1)),
            },
        }
    }
}

// The number listed at c where x is left out.
pub fn skip(x: usize, c: usize) -> usize
    requires { c < 1000 }
    ensures { result ≡ skip x c }
{
    if c < x { c } else { c + 1 }
}
