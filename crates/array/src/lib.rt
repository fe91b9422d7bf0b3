// A code array of k data nodes, a nodes of Class A, the last tau of them piggybacked, and b nodes of Class B.
#![tactic(auto)]

ghost use Rattle.std.specs.Prelude.{◌≤◌};
ghost use Rattle.row.specs.Numbered.{numbered as numbered_of};
ghost use Rattle.array.specs.Theorems.{Rows, Recovers, Restores, Sized, SizedRows, SizedClassA, SizedClassB, ParityPlaces, AllStand, Slots};

use field::NumberedField;

mod fault;
mod layout;
mod parameters;
mod sums;

pub use fault::ParameterFault;
pub use layout::skip;
pub use parameters::{Parameters, Proposed};
pub use sums::{around, by_local, past, weight};

// A row's symbols are the values of one polynomial.
pub fn rows_stand<F: NumberedField>() -> u8
    ensures { Rows F.Field.ops (numbered_of F.Field.ops.zero F.symbol) F.size }
{
    0
}

// The symbols at the places of its read sheet give back every symbol of a node.
pub fn recovery_stands<F: NumberedField>() -> u8
    ensures { Restores F.Field.ops (numbered_of F.Field.ops.zero F.symbol) F.size }
{
    0
}

// The sizes of the read sheets, where their places stand, and where each is kept.
pub fn sheets_stand() -> u8
    ensures sizes { Sized × SizedRows × SizedClassA × SizedClassB }
    ensures places { ParityPlaces × AllStand }
    ensures slots { Slots }
{
    0
}
