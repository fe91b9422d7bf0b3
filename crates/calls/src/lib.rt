// The calls of an engine: their names, answers and faults, and what is promised of them over every history.
#![tactic(auto)]

ghost use Rattle.std.specs.Prelude.{◌≡◌};
ghost use Rattle.calls.specs.Numbers.{fault_number};
ghost use Rattle.calls.specs.Theorem.{EveryHistory, EveryCall};

use field::NumberedField;
use store::Cause;

mod call;
mod fault;

pub use call::{Answer, Call, CallFault, CallName, Found, Reason, SheetFault};
pub use fault::named;

impl CallFault {
    // The number of a fault.
    pub fn number(self) -> u8
        ensures { result ≡ fault_number self }
    {
        // Kept: a sheet's reason brings a fault with it, so the reasons are no plain numbers.
        match self.reason {
            Reason::SmallField => 15,
            Reason::SmallStore => 16,
            Reason::OutOfRange => 17,
            Reason::WrongLength => 18,
            Reason::ShortMemory => 19,
            Reason::NotLost => 40,
            Reason::Sheet(sheet) => match sheet.fault.cause {
                Cause::OffStore => 16,
                Cause::Blank => 41,
                Cause::Worn => 42,
            },
        }
    }
}

// Every history of calls has the claims, and every call that meets its contract extends every history.
pub fn histories_stand<F: NumberedField>() -> u8
    ensures every { EveryHistory F.Field.ops F.NumberedField.size }
    ensures extends { EveryCall F.Field.ops F.NumberedField.size }
{
    0
}
