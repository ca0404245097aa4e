//! Lines of a run that a breakpoint matches, one event after another, and on to the next.
ghost use Rattle.std.specs.Prelude.{◌≡◌, ◌≢◌, ◌↔◌, Some, IsTrue, IfOk, IfErr, OnOk, length};
ghost use Rattle.node_core.specs.TraceLine.{shown};
ghost use Rattle.net_machine.specs.Run.{Reached, IsRun, Stepped};
ghost use Rattle.breakpoints.specs.Breaks.{IsHit};
ghost use Rattle.breakpoints.specs.Seen.{AreSeen};
ghost use Rattle.debugger.specs.UnderWay.{AreUnderWay};
ghost use Rattle.debugger.specs.Moves.{Passes, RunGoesTo, IsTooLong};

use crate::checkpoints::Checkpoints;
use crate::fault::MoveFault;
use crate::under_way::{count_on, counts_of, leaves_moving};
use breakpoints::breaks::Breaks;
use breakpoints::seen::{Seen, see_again, see_all};
use net_machine::{Due, Net};
use net_watch::{Watch, run_by_two};
use node_core::Line;
use std::alloc::AllocError;
use std::snapshot::Snapshot;

/// Whether a breakpoint matches a line, after which a net stands. Where what is counted of packets under way tells that
/// no flow becomes stalled, no stall is looked for.
#[tactic(none)]
pub(crate) fn is_stop(
    breaks: &Breaks,
    counts: &[u64],
    seen: &[Seen],
    net: &Net,
    line: &Line,
) -> Result<bool, AllocError>
    requires { length seen.now ≡ length breaks.now }
    ensures { (before : Reached) → IsRun before → Stepped before (Some (shown line.now)) net.now → AreUnderWay counts.now net.now.state → AreSeen breaks.now before.state seen.now → IfOk result (λ found. IsTrue found ↔ IsHit breaks.now before.state (shown line.now) net.now.state) }
{
    let quiet = leaves_moving(counts, line);
    if breaks.may_hit(quiet, line) {
        breaks.hits(seen, net, line)
    } else {
        Ok(false)
    }
}

/// Who finds the lines of a run that a breakpoint matches: the first, which ends the run, or the last.
#[derive(Drop)]
pub(crate) struct Stops<'a> {
    /// The breakpoints.
    pub breaks: &'a Breaks,
    /// Of each flow how many packets are known to be under way.
    pub counts: Vec<u64>,
    /// What each breakpoint sees of the state at which the run is.
    pub seen: Vec<Seen>,
    /// Whether the first that is found ends the run.
    pub first: bool,
    /// The position behind the last that was found.
    pub found: Option<u64>,
    /// Whether memory was refused, as a stall was looked for.
    pub refused: bool,
}

impl Watch for Stops<'_> {
    ghost use Rattle.std.specs.Prelude.{◌≡◌, None, refl};
    ghost use Rattle.table_run.specs.State.{State};
    ghost use Rattle.net_machine.specs.Run.{IsRun};
    ghost use Rattle.debugger.specs.Moves.{Passes};
    ghost use Rattle.debugger.specs.Stops.{HasSought, none_sought};
    ghost use Rattle.debugger.specs.UnderWay.{AreUnderWay};
    ghost use Rattle.breakpoints.specs.Seen.{AreSeen};

    ghost fits = { λ w at. IsRun at × AreUnderWay w.counts.items at.state × AreSeen w.breaks.now at.state w.seen.items };

    ghost has = { λ began from w at goes_on. (w.breaks.now ≡ began.breaks.now) × (w.first ≡ began.first) × ((start : State) → Passes start from → began.found ≡ None → HasSought start began.breaks.now from.position at.position began.first w.found began.refused w.refused goes_on) };

    ghost begins = { λ w at. (refl, refl, λ start _ none. none_sought start w.breaks.now at.position w.first w.found w.refused none) };

    fn ahead(&self, _at: &Net, _next: Option<Due>) -> bool {
        true
    }

    fn see(&mut self, before: &Snapshot<Net>, after: &Net, line: &Line) -> bool {
        let position = after.position();
        count_on(&mut self.counts, line);
        let counts = self.counts.as_slice();
        let seen = self.seen.as_slice();
        let found = is_stop(self.breaks, counts, seen, after, line);
        let breaks = self.breaks.as_slice();
        see_again(&mut self.seen, breaks, before, after, line);
        match found {
            Ok(true) => {
                self.found = Some(position);
                !self.first
            }
            Ok(false) => true,
            Err(_) => {
                self.refused = true;
                false
            }
        }
    }
}

/// Runs events up to the next position whose line a breakpoint matches, or to the run's end.
fn run_to_stop(
    net: &mut Net,
    breaks: &Breaks,
    checkpoints: &mut Checkpoints,
    line: &mut Line,
) -> Result<(), MoveFault>
    requires { Passes checkpoints.old net.old }
    ensures on_run { OnOk result (Passes checkpoints.old net.new) }
    ensures goes { OnOk result (RunGoesTo checkpoints.old breaks.now net.old.position net.new.position) }
    ensures full { IfErr result (λ fault. fault ≡ MoveFault.CountFull → IsTooLong checkpoints.old) }
    ensures no_worker { IfErr result (λ fault. fault ≢ MoveFault.NoWorker) }
    ensures same { checkpoints.new ≡ checkpoints.old }
{
    let _count = net.position();
    let seen = see_all(breaks.allocator(), breaks.as_slice(), net)?;
    let mut stops = Stops {
        breaks,
        counts: counts_of(breaks.allocator(), net),
        seen,
        first: true,
        found: None,
        refused: false,
    };
    match run_by_two(net, checkpoints, &mut stops, line) {
        Ok(_) if stops.refused => Err(MoveFault::NoMemory),
        Ok(_) => Ok(()),
        Err(fault) => Err(fault.into()),
    }
}

/// The net at the next position, past the present one, whose line a breakpoint matches, or at the run's end.
/// Stalls are seen too, which windows do not show.
pub(crate) fn net_at_stop(
    present: &Net,
    breaks: &Breaks,
    checkpoints: &mut Checkpoints,
    line: &mut Line,
) -> Result<Net, MoveFault>
    requires { Passes checkpoints.old present.now }
    ensures on_run { IfOk result (Passes checkpoints.old) }
    ensures goes { IfOk result (λ net. RunGoesTo checkpoints.old breaks.now present.now.position net.position) }
    ensures full { IfErr result (λ fault. fault ≡ MoveFault.CountFull → IsTooLong checkpoints.old) }
    ensures no_worker { IfErr result (λ fault. fault ≢ MoveFault.NoWorker) }
    ensures same { checkpoints.new ≡ checkpoints.old }
{
    let mut net = present.copy()?;
    run_to_stop(&mut net, breaks, checkpoints, line)?;
    Ok(net)
}
