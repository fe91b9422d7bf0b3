// How answers and faults of an engine become replies.
// Kept: the faults and the answers are of other crates, so no From between them may stand here.
ghost use Rattle.std.specs.Prelude.{◌≡◌};
ghost use Rattle.answers.specs.Declines.{number_of};
ghost use Rattle.calls.specs.Numbers.{fault_number};
ghost use Rattle.desk.specs.Replies.{fault_decline, make_decline, reply_of};

use answers::decline::Decline;
use answers::reply::{Accepted, Reply};
use array::ParameterFault;
use calls::{Answer, CallFault, Reason};
use repair::MakeFault;
use sheet::Place;
use store::{Cause, StoreFault};

// The decline of a call's fault, which has the fault's number and, for a place on the sheet, that place.
pub fn decline_of(fault: CallFault) -> Decline
    ensures decline { result ≡ fault_decline fault }
    ensures number { number_of result ≡ fault_number fault }
{
    match fault.reason {
        Reason::SmallField => Decline::SmallField,
        Reason::SmallStore => Decline::SmallStore,
        Reason::OutOfRange => Decline::OutOfRange,
        Reason::WrongLength => Decline::WrongLength,
        Reason::ShortMemory => Decline::ShortMemory,
        Reason::NotLost => Decline::NotLost,
        Reason::Sheet(sheet) => {
            let StoreFault { row, node, cause } = sheet.fault;
            match cause {
                Cause::OffStore => Decline::SmallStore,
                Cause::Blank => Decline::Blank(Place { row, node }),
                Cause::Worn => Decline::Worn(Place { row, node }),
            }
        }
    }
}

// The decline of a make.
pub fn make_decline(fault: MakeFault) -> Decline
    ensures { result ≡ make_decline fault }
{
    match fault {
        MakeFault::Unfit(ParameterFault::DataNodes) => Decline::DataNodes,
        MakeFault::Unfit(ParameterFault::ClassA) => Decline::ClassANodes,
        MakeFault::Unfit(ParameterFault::Piggybacks) => Decline::Piggybacks,
        MakeFault::Unfit(ParameterFault::ClassB) => Decline::ClassBNodes,
        MakeFault::Unfit(ParameterFault::SmallField) => Decline::SmallField,
        MakeFault::SmallStore => Decline::SmallStore,
    }
}

// The reply to a call.
pub fn reply_of<F: Copy>(answer: Result<Answer<F>, CallFault>) -> Reply<F>
    ensures { result ≡ reply_of answer }
{
    match answer.map_err(decline_of)? {
        Answer::Counted(count) => Ok(Accepted::Counted(count)),
        Answer::Fetched(count, symbol) => Ok(Accepted::Fetched(count, symbol)),
        Answer::Cleared(sum) => Ok(Accepted::Cleared(sum)),
    }
}
