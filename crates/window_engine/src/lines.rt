//! What a window's lines go to: a sheaf, where they stay group by group, or a batch, which has them in
//! the order of their keys.
use window_core::{Batch, Sheaf, TurnFault, Window};
use window_workers::WorkersFault;

/// What a window's lines go to.
pub(crate) trait LineTarget {
    ghost use Rattle.std.specs.Prelude.{◌≡◌, true, false, IfErr, OnOk};
    ghost use Rattle.table_run.specs.State.{State};
    ghost use Rattle.window_core.specs.Batches.{BatchValue};
    ghost use Rattle.window_core.specs.Full.{RunsTooLong};
    ghost use Rattle.window_core.specs.Window.{IsFrom, HasGoneOn, HasTurned, states_of};
    ghost use Rattle.window_core.specs.Windows.{AreBelow, all_done};
    ghost use Rattle.window_workers.specs.Edges.{StaysNet};
    ghost use Rattle.window_workers.specs.WindowOutcomes.{IsWorkersFault};

    // The lines that it has.
    ghost reported: { Self → BatchValue };

    /// Gives the memory of lines that are read back to the groups that wrote them, where it has that.
    fn give_back(&mut self, window: &mut Window)
        requires { window.old.out ≡ false }
        ensures { window.new ≡ window.old };

    /// Turns a window whose groups are done, and then has its lines. After a fault it may be empty.
    fn turn(&mut self, window: &mut Window) -> Result<(), WorkersFault>
        requires inside { window.old.out ≡ false }
        requires done { all_done window.old.until (states_of window.old.groups) ≡ true }
        ensures turned { OnOk result (HasTurned window.old (reported self.new) window.new) }
        ensures run { OnOk result ((edge : State) → IsFrom edge window.old → HasGoneOn edge (reported self.new).lines window.new) }
        ensures below { OnOk result (AreBelow window.old.until (reported self.new).lines) }
        ensures fault { IfErr result (IsWorkersFault 1 (RunsTooLong window.old)) }
        ensures stays { StaysNet window.old window.new };
}

impl LineTarget for Batch {
    ghost reported = { λ batch. batch };

    fn give_back(&mut self, _window: &mut Window) {}

    fn turn(&mut self, window: &mut Window) -> Result<(), WorkersFault> {
        match window.turn_into(self) {
            Ok(()) => Ok(()),
            Err(TurnFault::NotDone) => unreachable!(),
            Err(TurnFault::NoMemory) => Err(WorkersFault::NoMemory),
            Err(TurnFault::CountFull) => Err(WorkersFault::CountFull),
        }
    }
}

impl LineTarget for Sheaf {
    ghost use Rattle.window_core.specs.Sheaves.{merged};

    ghost reported = { merged };

    fn give_back(&mut self, window: &mut Window) {
        window.reclaim(self);
    }

    fn turn(&mut self, window: &mut Window) -> Result<(), WorkersFault> {
        match window.turn_apart(self) {
            Ok(()) => Ok(()),
            Err(TurnFault::NotDone) => unreachable!(),
            Err(TurnFault::NoMemory) => Err(WorkersFault::NoMemory),
            Err(TurnFault::CountFull) => Err(WorkersFault::CountFull),
        }
    }
}
