// How a fault of the store becomes the fault of a sheet, and this the fault of a call.
ghost use Rattle.std.specs.Prelude.{◌≡◌};
ghost use Rattle.calls.specs.Faults.{call_fault, sheet_fault, unnamed};

use crate::call::{CallFault, CallName, Reason, SheetFault};
use sheet::Part;
use store::StoreFault;

// The place and the cause stay; `named` says of which call and part.
// Kept: a call and a part stand here until then, since a conversion sees the fault alone.
impl From<StoreFault> for SheetFault {
    ghost from_gives = { λ f r. r ≡ unnamed f };

    fn from(fault: StoreFault) -> SheetFault {
        SheetFault {
            call: CallName::Fetch,
            part: Part::First,
            fault,
        }
    }
}

impl From<SheetFault> for CallFault {
    ghost from_gives = { λ f r. r ≡ call_fault f };

    fn from(fault: SheetFault) -> CallFault {
        CallFault {
            call: fault.call,
            reason: Reason::Sheet(fault),
        }
    }
}

// The fault with its call and its part.
pub fn named(fault: SheetFault, call: CallName, part: Part) -> SheetFault
    ensures { result ≡ sheet_fault call part fault.fault }
{
    SheetFault {
        call,
        part,
        ..fault
    }
}
