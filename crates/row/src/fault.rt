// Why a row has no answer.

#[derive(Clone, Copy, PartialEq, Eq, Debug)]
pub enum RowFault {
    // There are more data symbols than the field has symbols.
    TooMany,
    // A number is not below the field's size.
    NoSymbol,
    // A number that should be a data symbol's is not below their count.
    NotData,
    // A number is listed twice.
    Repeated,
    // There are not as many values as numbers.
    Uneven,
}
