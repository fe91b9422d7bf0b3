// How the faults of the parameters and of the engine become the fault of a making.
ghost use Rattle.std.specs.Prelude.{◌≡◌};
ghost use Rattle.repair.specs.Promise.{of_engine};
ghost use Rattle.repair.specs.declared.fault.MakeFault.TheVariants.{Unfit};

use crate::fault::MakeFault;
use array::ParameterFault;

impl From<ParameterFault> for MakeFault {
    ghost from_gives = { λ f r. r ≡ Unfit f };

    fn from(fault: ParameterFault) -> MakeFault {
        MakeFault::Unfit(fault)
    }
}

impl From<engine::MakeFault> for MakeFault {
    ghost from_gives = { λ f r. r ≡ of_engine f };

    fn from(fault: engine::MakeFault) -> MakeFault {
        match fault {
            engine::MakeFault::SmallField => MakeFault::Unfit(ParameterFault::SmallField),
            engine::MakeFault::SmallStore => MakeFault::SmallStore,
        }
    }
}
