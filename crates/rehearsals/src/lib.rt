// The two-class engine on a concrete store: the theorem over every history gives its claims at the end.
#![tactic(auto)]

ghost use Rattle.std.specs.Prelude.{OnOk};
ghost use Rattle.field.specs.Decimal.{symbol_of, decimal as decimal_operations};
ghost use Rattle.row.specs.Numbered.{numbered as numbered_of};
ghost use Rattle.kept.specs.Stores.{bank_means};
ghost use Rattle.repair.specs.TwoClass.{two_class};
ghost use Rattle.tour.specs.Tour.{Reached};

use array::Parameters;
use calls::{Answer, CallFault};
use engine::MakeFault;
use field::Decimal;
use kept::KeptBank;
use repair::TwoClass;
use sheet::Record;
use tour::rehearse;

// Makes an engine over decimal symbols on a memory bank, sets symbols, loses node 0 and mends it.
pub fn rehearse_decimal(
    parameters: Parameters,
    store: &mut KeptBank<Decimal>,
    symbols: &[Decimal],
    memory: &mut [Record<Decimal>],
) -> Result<Result<Answer<Decimal>, CallFault>, MakeFault>
    ensures { OnOk result (Reached decimal_operations 11 (two_class decimal_operations (numbered_of decimal_operations.zero symbol_of) parameters) (bank_means store.old) (bank_means store.new)) }
{
    rehearse(TwoClass { parameters }, store, symbols, memory)
}
