//! All stalls of a run, found by running it again.
ghost use Rattle.std.specs.Prelude.{◌≡◌, ◌++◌, take, length, Some, OnOk, OnErr};
ghost use Rattle.node_core.specs.TraceLine.{shown};
ghost use Rattle.net_machine.specs.Run.{IsRun, Stepped};
ghost use Rattle.debugger.specs.Moves.{Passes};
ghost use Rattle.debugger.specs.Stalls.{stall_by, stalls_by, IsAllStalls};
ghost use Rattle.debugger.specs.UnderWay.{AreUnderWay};

use crate::checkpoints::Checkpoints;
use crate::fault::MoveFault;
use crate::under_way::{count_on, counts_of, leaves_moving};
use breakpoints::breaks::sends_own;
use flow_waits::becomes_stalled;
use net_machine::{Due, Net};
use net_watch::{Watch, run_by_two};
use node_core::Line;
use scenario_image::limits::MOST_FLOWS;
use sim_time::Time;
use std::alloc::AllocError;
use std::snapshot::Snapshot;

/// Where a flow of a run becomes stalled.
#[derive(Clone, Copy)]
pub struct StallAt {
    /// The position behind the event by which it does.
    pub position: u64,
    /// The flow's number.
    pub flow: u16,
    /// When the event is, in nanoseconds.
    pub time: Time,
}

/// Puts the stall of a flow by a line, after which a net stands, behind others, where the flow becomes stalled; or
/// nothing.
fn push_stall(
    flow: u16,
    before: &Snapshot<Net>,
    net: &Net,
    line: &Line,
    out: &mut Vec<StallAt>,
) -> Result<(), AllocError>
    requires is_run { IsRun before.now.value }
    requires stepped { Stepped before.now.value (Some (shown line.now)) net.now }
    ensures ok { OnOk result (out.new.items ≡ out.old.items ++ stall_by net.now.position before.now.value.state (shown line.now) net.now.state flow) }
    ensures err { OnErr result (out.new.items ≡ out.old.items) }
{
    match becomes_stalled(*out.allocator(), net, line, flow) {
        Ok(true) => {
            out.push(StallAt {
                position: net.position(),
                flow,
                time: line.key.time,
            })?;
            Ok(())
        }
        Ok(false) => Ok(()),
        Err(fault) => Err(fault),
    }
}

/// The same of each flow, by number. On a fault some may have been put.
fn push_each_stall(
    before: &Snapshot<Net>,
    net: &Net,
    line: &Line,
    out: &mut Vec<StallAt>,
) -> Result<(), AllocError>
    requires is_run { IsRun before.now.value }
    requires stepped { Stepped before.now.value (Some (shown line.now)) net.now }
    ensures ok { OnOk result (out.new.items ≡ out.old.items ++ stalls_by net.now.position before.now.value.state (shown line.now) net.now.state) }
    ensures err { OnErr result (take (length out.old.items) out.new.items ≡ out.old.items) }
{
    for flow in 0..MOST_FLOWS {
        push_stall(flow as u16, before, net, line, out)?;
    }
    Ok(())
}

/// The same. No flow is looked at where the packets under way, or what the event's own flow sends, tell that none
/// becomes stalled.
fn push_stalls(
    counts: &[u64],
    before: &Snapshot<Net>,
    net: &Net,
    line: &Line,
    out: &mut Vec<StallAt>,
) -> Result<(), AllocError>
    requires is_run { IsRun before.now.value }
    requires stepped { Stepped before.now.value (Some (shown line.now)) net.now }
    requires counted { AreUnderWay counts.now net.now.state }
    ensures ok { OnOk result (out.new.items ≡ out.old.items ++ stalls_by net.now.position before.now.value.state (shown line.now) net.now.state) }
    ensures err { OnErr result (take (length out.old.items) out.new.items ≡ out.old.items) }
{
    if leaves_moving(counts, line) {
        Ok(())
    } else if sends_own(&line.event, line.acts.as_slice()) {
        Ok(())
    } else {
        push_each_stall(before, net, line, out)
    }
}

/// Who puts the stalls of a run behind others.
#[derive(Drop)]
struct AllStalls<'a> {
    /// The others.
    out: &'a mut Vec<StallAt>,
    /// Of each flow how many packets are known to be under way.
    counts: &'a mut Vec<u64>,
    /// Whether memory was refused for a stall, or as one was looked for.
    refused: bool,
}

impl Watch for AllStalls<'_> {
    ghost use Rattle.std.specs.Prelude.{◌≡◌, List, ◌++◌, refl};
    ghost use Rattle.table_run.specs.State.{State};
    ghost use Rattle.net_machine.specs.Run.{IsRun};
    ghost use Rattle.debugger.specs.declared.stalls.StallAt.{StallAt};
    ghost use Rattle.debugger.specs.Found.{AreFound};
    ghost use Rattle.debugger.specs.Moves.{Passes};
    ghost use Rattle.debugger.specs.Stalls.{stalls_upto};
    ghost use Rattle.debugger.specs.UnderWay.{AreUnderWay};

    ghost fits = { λ w at. IsRun at × AreUnderWay w.counts.now.items at.state };

    ghost has = { λ began from w at goes_on. (w.out.ghost_name ≡ began.out.ghost_name) × ((start : State) (before : List StallAt) → Passes start from → began.out.now.items ≡ before ++ stalls_upto start from.position → AreFound (stalls_upto start at.position) before w.out.now.items began.refused w.refused goes_on) };

    ghost begins = { λ _ _. (refl, λ _ _ _ are. (are, refl)) };

    fn ahead(&self, _at: &Net, _next: Option<Due>) -> bool {
        true
    }

    fn see(&mut self, before: &Snapshot<Net>, after: &Net, line: &Line) -> bool {
        let _count = after.position();
        count_on(self.counts, line);
        match push_stalls(self.counts.as_slice(), before, after, line, self.out) {
            Ok(()) => true,
            Err(_) => {
                self.refused = true;
                false
            }
        }
    }
}

/// Runs from a run's beginning to its end, and appends its stalls. On a fault some may have been appended.
fn run_for_stalls(
    net: &mut Net,
    checkpoints: &mut Checkpoints,
    line: &mut Line,
    out: &mut Vec<StallAt>,
) -> Result<(), MoveFault>
    requires on_run { Passes checkpoints.old net.old }
    requires from { net.old.position ≡ 0 }
    ensures ok { OnOk result (IsAllStalls checkpoints.old out.old.items out.new.items) }
    ensures err { OnErr result (take (length out.old.items) out.new.items ≡ out.old.items) }
    ensures same { checkpoints.new ≡ checkpoints.old }
{
    let _count = net.position();
    let mut counts = counts_of(*out.allocator(), net);
    let mut stalls = AllStalls {
        out,
        counts: &mut counts,
        refused: false,
    };
    let ended = run_by_two(net, checkpoints, &mut stalls, line);
    match ended {
        Ok(_) if stalls.refused => Err(MoveFault::NoMemory),
        Ok(_) => Ok(()),
        Err(fault) => Err(fault.into()),
    }
}

/// Appends the stalls of the whole run, or nothing.
pub(crate) fn append_stalls(
    checkpoints: &mut Checkpoints,
    line: &mut Line,
    out: &mut Vec<StallAt>,
) -> Result<(), MoveFault>
    ensures ok { OnOk result (IsAllStalls checkpoints.old out.old.items out.new.items) }
    ensures err { OnErr result (out.new.items ≡ out.old.items) }
    ensures same { checkpoints.new ≡ checkpoints.old }
{
    let many = out.len();
    match checkpoints.first() {
        Ok(net) => {
            let mut net = net;
            match run_for_stalls(&mut net, checkpoints, line, out) {
                Ok(()) => Ok(()),
                Err(fault) => {
                    out.truncate(many);
                    Err(fault)
                }
            }
        }
        Err(_) => Err(MoveFault::NoMemory),
    }
}
