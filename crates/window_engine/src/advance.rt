//! One window: workers have run its groups, or the calling thread runs them, and it is turned.
ghost use Rattle.std.specs.Prelude.{◌≤◌, IfErr, OnOk};
ghost use Rattle.window_core.specs.Full.{HasTooMany};
ghost use Rattle.window_core.specs.Partition.{groups_of};
ghost use Rattle.window_core.specs.Window.{IsWindow};
ghost use Rattle.window_engine.specs.RunStates.{IsTurnedBy};
ghost use Rattle.window_workers.specs.Edges.{IsAtEdge, StaysNet, reached_in};
ghost use Rattle.window_workers.specs.Laid.{HasRunBy, HasRunOr, IsDoneBy};
ghost use Rattle.window_workers.specs.WindowOutcomes.{IsWorkersFault};

use crate::lines::LineTarget;
use sim_time::Time;
use std::snapshot::Snapshot;
use window_core::Window;
use window_workers::{Gate, WindowWorkers, WorkersFault, run_in_turn};

/// Where workers have not run the groups, runs them on the calling thread, up to the window's end or a
/// moment that is sooner, in the memory of lines that are read. How the window was before is for clauses
/// alone.
fn run_rest<L: LineTarget>(
    gate: &Gate,
    ran: bool,
    until: Time,
    before: &Snapshot<Window>,
    window: &mut Window,
    lines: &mut L,
) -> Result<(), WorkersFault>
    requires edge { IsAtEdge before.now.value }
    requires few { groups_of before.now.value.entries ≤ 64 }
    requires ran { HasRunOr ran until before.now.value window.old }
    requires stays { StaysNet before.now.value window.old }
    ensures done { OnOk result (IsDoneBy until before.now.value window.new) }
    ensures stays { StaysNet before.now.value window.new }
    ensures fault { IfErr result (IsWorkersFault 1 (HasTooMany (reached_in before.now.value))) }
{
    if ran {
        return Ok(());
    }
    lines.give_back(window);
    let _began = window.position();
    window.limit(until);
    let _limited = window.position();
    run_in_turn(gate, window)
}

/// Ends a window that workers have run, up to its end or a moment that is sooner, or that is as it was:
/// then the calling thread runs it, and it is turned. A window with an event in it has a line. After a
/// fault groups may be out, and there may be no lines. How the window was before is for clauses alone.
pub(crate) fn finish<L: LineTarget>(
    workers: &WindowWorkers,
    ran: Result<bool, WorkersFault>,
    until: Time,
    before: &Snapshot<Window>,
    window: &mut Window,
    lines: &mut L,
) -> Result<(), WorkersFault>
    requires edge { IsAtEdge before.now.value }
    requires is_window { IsWindow before.now.value }
    requires few { groups_of before.now.value.entries ≤ 64 }
    requires ran { HasRunBy workers.now.workers until before.now.value ran window.old }
    ensures turned { OnOk result (IsTurnedBy until before.now.value (L.reported lines.new) window.new) }
    ensures stays { StaysNet before.now.value window.new }
    ensures fault { IfErr result (IsWorkersFault workers.now.workers (HasTooMany (reached_in before.now.value))) }
{
    let ran = ran?;
    run_rest(workers.gate, ran, until, before, window, lines)?;
    lines.turn(window)?;
    Ok(())
}
