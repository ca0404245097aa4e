//! Actions on a window, one at a time.
ghost use Rattle.std.specs.Prelude.{◌≡◌, false, IfOk, IfErr, OnErr};
ghost use Rattle.table_run.specs.State.{State};
ghost use Rattle.window_core.specs.Acting.{HasActed, IsFaultOf, IsFromAfter, IsUnfiredAfter, fault_of};
ghost use Rattle.window_core.specs.Window.{IsFrom};

use super::Window;
use super::turning::TurnFault;
use line_merge::Batch;
use node_group::GroupFault;

/// What may be done with a window's groups.
#[derive(Clone, Copy)]
pub enum Action {
    /// A group, by its number, runs its least event before the window's end.
    Fire(usize),
    /// The groups are brought together, and the next window begins.
    Turn,
}

impl From<GroupFault> for TurnFault {
    ghost from_gives = { λ fault turn. turn ≡ fault_of fault };

    fn from(fault: GroupFault) -> TurnFault {
        match fault {
            GroupFault::NoMemory => TurnFault::NoMemory,
            GroupFault::CountFull => TurnFault::CountFull,
        }
    }
}

impl Window {
    // Takes a turn where no group has an event before the window's end. The answer is whether one
    // was taken.
    fn turn_if_done(&mut self) -> Result<bool, TurnFault>
        requires { self.old.out ≡ false }
        ensures ok { IfOk result (λ done. HasActed self.old Action.Turn done self.new) }
        ensures run { IfOk result (λ done. (edge : State) → IsFrom edge self.old → IsFromAfter edge Action.Turn done self.new) }
        ensures inside { self.new.out ≡ false }
        ensures unfired { IfOk result (λ done. IsUnfiredAfter Action.Turn done self.new) }
        ensures fault { IfErr result (λ fault. IsFaultOf self.old Action.Turn fault) }
        ensures err { OnErr result (self.new ≡ self.old) }
    {
        match self.turn_over() {
            Ok(()) => Ok(true),
            Err(TurnFault::NotDone) => Ok(false),
            Err(fault) => Err(fault),
        }
    }

    /// Does what the action says where that is possible: a group can fire where there is such a
    /// group and it has an event before the window's end, and a turn can be taken where no group
    /// has one. The answer is whether it was; where not, and on a fault, nothing changes.
    pub fn act(&mut self, action: Action) -> Result<bool, TurnFault>
        requires { self.old.out ≡ false }
        ensures ok { IfOk result (λ done. HasActed self.old action done self.new) }
        ensures run { IfOk result (λ done. (edge : State) → IsFrom edge self.old → IsFromAfter edge action done self.new) }
        ensures inside { self.new.out ≡ false }
        ensures unfired { IfOk result (λ done. IsUnfiredAfter action done self.new) }
        ensures fault { IfErr result (λ fault. IsFaultOf self.old action fault) }
        ensures err { OnErr result (self.new ≡ self.old) }
    {
        match action {
            Action::Fire(group) => Ok(self.fire(group)?),
            Action::Turn => self.turn_if_done(),
        }
    }

    /// The batch of the last turn that `act` took, until its next turn. It is empty before that,
    /// and after a `turn`.
    pub fn taken(&self) -> &Batch
        ensures { result.now ≡ self.now.taken }
    {
        &self.taken
    }
}
