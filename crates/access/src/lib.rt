// One data symbol of a code array: the places that a fetch of it reads, and those that a put of it changes.
#![tactic(auto)]

ghost use Rattle.row.specs.Numbered.{numbered as numbered_of};
ghost use Rattle.access.specs.Theorems.{Fetches, Puts};

use field::{Field, NumberedField};

mod data_place;
mod fetch;
mod put;

pub use fetch::{FetchPlan, Way};
pub use put::PutPatch;

// What a fetch reads, and that what it computes is the symbol that was lost.
pub fn fetch_stands<F: NumberedField>() -> u8
    ensures { Fetches F.Field.ops (numbered_of F.Field.ops.zero F.symbol) F.size }
{
    0
}

// What a put changes, and that it leaves the array over the data with that symbol replaced.
pub fn put_stands<F: NumberedField>() -> u8
    ensures { Puts F.Field.ops (numbered_of F.Field.ops.zero F.symbol) }
{
    0
}
