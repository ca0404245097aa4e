//! Why workers did not run a window.
ghost use Rattle.std.specs.Prelude.{◌≡◌};
ghost use Rattle.window_workers.specs.WindowOutcomes.{as_fault};

use std::alloc::AllocError;
use window_core::GroupFault;

/// Why workers did not run a window.
#[derive(Clone, Copy, Drop)]
pub enum WorkersFault {
    /// There was no memory.
    NoMemory,
    /// As many events were run as there may be, and one more is due.
    CountFull,
    /// A piece did not come back.
    Failed,
}

impl From<AllocError> for WorkersFault {
    ghost use Rattle.std.specs.Prelude.{◌≡◌};
    ghost use Rattle.window_workers.specs.declared.fault.WorkersFault.TheVariants.{NoMemory};

    ghost from_gives = { λ _ e. e ≡ NoMemory };

    fn from(_error: AllocError) -> WorkersFault {
        WorkersFault::NoMemory
    }
}

/// A group's fault as the workers tell it.
pub(crate) fn group_fault(fault: GroupFault) -> WorkersFault
    ensures { result ≡ as_fault fault }
{
    match fault {
        GroupFault::NoMemory => WorkersFault::NoMemory,
        GroupFault::CountFull => WorkersFault::CountFull,
    }
}
