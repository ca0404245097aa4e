//! Why a move was not made.

use net_machine::StepFault;
use std::alloc::AllocError;
use window_engine::EngineFault;

/// Why a move was not made.
#[derive(Clone, Copy, Debug, PartialEq, Eq)]
pub enum MoveFault {
    /// There was no memory.
    NoMemory,
    /// As many events were run as there may be, and one more is due.
    CountFull,
    /// A worker did not give back what it ran.
    NoWorker,
}

impl From<AllocError> for MoveFault {
    ghost use Rattle.std.specs.Prelude.{◌≡◌};
    ghost use Rattle.debugger.specs.declared.fault.MoveFault.TheVariants.{NoMemory};

    ghost from_gives = { λ _ e. e ≡ NoMemory };

    fn from(_error: AllocError) -> MoveFault {
        MoveFault::NoMemory
    }
}

impl From<StepFault> for MoveFault {
    ghost use Rattle.std.specs.Prelude.{◌≡◌};
    ghost use Rattle.debugger.specs.Faults.{of_step};

    ghost from_gives = { λ fault e. e ≡ of_step fault };

    fn from(fault: StepFault) -> MoveFault {
        match fault {
            StepFault::NoMemory => MoveFault::NoMemory,
            StepFault::CountFull => MoveFault::CountFull,
        }
    }
}

impl From<EngineFault> for MoveFault {
    ghost use Rattle.std.specs.Prelude.{◌≡◌};
    ghost use Rattle.debugger.specs.Faults.{of_windows};

    ghost from_gives = { λ fault e. e ≡ of_windows fault };

    fn from(fault: EngineFault) -> MoveFault {
        match fault {
            EngineFault::NoMemory => MoveFault::NoMemory,
            EngineFault::CountFull => MoveFault::CountFull,
            EngineFault::NoWorker | EngineFault::Sink { .. } | EngineFault::Failed => {
                MoveFault::NoWorker
            }
        }
    }
}
