//! A window's groups run one after another on the calling thread.
ghost use Rattle.std.specs.Prelude.{◌≡◌, ◌≤◌, length, false, None, IfErr, OnOk};
ghost use Rattle.table_run.specs.State.{due};
ghost use Rattle.window_core.specs.Group.{state_of};
ghost use Rattle.window_core.specs.Groups.{up_to};
ghost use Rattle.window_core.specs.Window.{value_at};
ghost use Rattle.window_workers.specs.Edges.{StaysNet};
ghost use Rattle.window_workers.specs.Laid.{HasRun, HasFullGroup};
ghost use Rattle.window_workers.specs.WindowOutcomes.{IsWorkersFault};

use crate::fault::{WorkersFault, group_fault};
use crate::gate::Gate;
use std::snapshot::Snapshot;
use window_core::{GroupFault, Window};

/// Tells the gate of a group that has not run: it is as it was before all of them.
fn enter(gate: &Gate, _before: &Snapshot<Window>, _window: &Window, group: usize)
    requires { value_at _window.now.groups group ≡ value_at _before.now.value.groups group }
{
    gate.enter(group as u64);
}

/// Tells the gate of a group that has run: it has no event left below the window's end, unless the
/// group had a fault.
fn leave(gate: &Gate, _window: &Window, group: usize, _ran: &Result<(), GroupFault>)
    requires { OnOk _ran.now (due (up_to _window.now.until (state_of (value_at _window.now.groups group))) ≡ None) }
{
    gate.leave(group as u64);
}

/// Runs the groups one after another on the calling thread, up to the window's end.
pub fn run_in_turn(gate: &Gate, window: &mut Window) -> Result<(), WorkersFault>
    requires inside { window.old.out ≡ false }
    requires few { length window.old.groups ≤ 64 }
    ensures done { OnOk result (HasRun window.old window.new) }
    ensures stays { StaysNet window.old window.new }
    ensures fault { IfErr result (IsWorkersFault 1 (HasFullGroup window.old)) }
{
    let before = Snapshot::of(window);
    for i in 0..window.groups() {
        enter(gate, &before, window, i);
        let ran = window.run_group(i);
        leave(gate, window, i, &ran);
        if let Err(fault) = ran {
            return Err(group_fault(fault));
        }
    }
    Ok(())
}
