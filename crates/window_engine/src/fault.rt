//! How the engine's calls end.
ghost use Rattle.std.specs.Prelude.{◌≡◌};
ghost use Rattle.window_engine.specs.Outcomes.{as_engine_fault};

use std::alloc::AllocError;
use window_workers::WorkersFault;

/// Why windows were not run, or not written. Each later call answers `Failed`.
#[derive(Clone, Copy, PartialEq, Drop)]
pub enum EngineFault {
    /// There was no memory.
    NoMemory,
    /// As many events were run as there may be, and one more is due.
    CountFull,
    /// A thread could not be started. No call answers it (`IsOfWorkers`): windows are run by the threads that do start.
    NoWorker,
    /// The sink failed.
    Sink {
        /// How many bytes of the call's text went out before, from its first on.
        written: u128,
    },
    /// A piece did not come back, or an earlier call had a fault.
    Failed,
}

impl From<AllocError> for EngineFault {
    ghost use Rattle.std.specs.Prelude.{◌≡◌};
    ghost use Rattle.window_engine.specs.declared.fault.EngineFault.TheVariants.{NoMemory};

    ghost from_gives = { λ _ e. e ≡ NoMemory };

    fn from(_error: AllocError) -> EngineFault {
        EngineFault::NoMemory
    }
}

/// The workers' fault as the engine tells it.
pub(crate) fn engine_fault(fault: WorkersFault) -> EngineFault
    ensures { result ≡ as_engine_fault fault }
{
    match fault {
        WorkersFault::NoMemory => EngineFault::NoMemory,
        WorkersFault::CountFull => EngineFault::CountFull,
        WorkersFault::Failed => EngineFault::Failed,
    }
}

/// Where a run of windows ended.
#[derive(Clone, Copy, PartialEq)]
pub enum Stop {
    /// At the run's end: no event below it is left.
    End,
    /// At the moment that was asked for: no event below it is left, and later ones are.
    Until,
}
