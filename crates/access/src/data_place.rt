// A data place of an array, as a fetch or a put names it.
ghost use Rattle.std.specs.Prelude.{◌≡◌, ◌<◌};
ghost use Rattle.array.specs.Layout.{wrap, offset};

use array::Parameters;

// The data place in a row of a data node, of an array with these parameters.
#[derive(Clone, Copy)]
pub(crate) struct DataPlace {
    pub(crate) parameters: Parameters,
    pub(crate) row: usize,
    pub(crate) column: usize,
    ghost inside: { (row < parameters.k) × (column < parameters.k) },
}

impl DataPlace {
    // The data place; rows and data nodes wrap around.
    pub(crate) fn new(parameters: Parameters, row: usize, column: usize) -> DataPlace
        ensures parameters { result.parameters ≡ parameters }
        ensures row { result.row ≡ wrap parameters row }
        ensures column { result.column ≡ wrap parameters column }
    {
        DataPlace {
            parameters,
            row: parameters.wrap(row),
            column: parameters.wrap(column),
        }
    }

    // Its offset.
    pub(crate) fn offset(self) -> usize
        ensures { result ≡ offset self.parameters self.row self.column }
    {
        self.parameters.offset(self.row, self.column)
    }
}
