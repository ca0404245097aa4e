//! From one state of a run to a later one.
ghost use Rattle.std.specs.Prelude.{◌≡◌, ◌≤◌, ◌⊎◌, true, Ok, IfOk, IfErr, OnOk, is_none};
ghost use Rattle.table_run.specs.State.{due};
ghost use Rattle.net_watch.specs.Watched.{Watched, goes_on};
ghost use Rattle.debugger.specs.Moves.{Passes, HasPosition, StepGoesTo, IsTooLong};

use crate::checkpoints::Checkpoints;
use net_machine::{Net, StepFault};
use net_watch::{Both, RunEnd, UpTo, Watch, run_by_two};
use node_core::Line;

/// Whether no event is left below the end.
pub(crate) fn is_ended(net: &Net) -> bool
    ensures { result ≡ is_none (due net.now.state) }
{
    match net.first() {
        None => true,
        Some(key) => !(key.time < net.end()),
    }
}

/// Runs so many events, or all that are left where there are fewer.
pub fn forward(
    net: &mut Net,
    count: u64,
    checkpoints: &mut Checkpoints,
    line: &mut Line,
) -> Result<(), StepFault>
    requires { Passes checkpoints.old net.old }
    ensures on_run { OnOk result (Passes checkpoints.old net.new) }
    ensures goes { OnOk result (StepGoesTo checkpoints.old net.old.position count net.new.position) }
    ensures full { IfErr result (λ fault. fault ≡ StepFault.CountFull → IsTooLong checkpoints.old) }
    ensures same { checkpoints.new ≡ checkpoints.old }
{
    let mut upto = UpTo {
        position: net.position().saturating_add(count),
    };
    let ended = run_by_two(net, checkpoints, &mut upto, line);
    let _count = net.position();
    match ended {
        Ok(_) => Ok(()),
        Err(fault) => Err(fault),
    }
}

/// Runs events up to a position that the run has.
#[tactic(none)]
pub fn reach(
    net: &mut Net,
    target: u64,
    checkpoints: &mut Checkpoints,
    line: &mut Line,
) -> Result<(), StepFault>
    requires on_run { Passes checkpoints.old net.old }
    requires below { net.old.position ≤ target }
    requires position { HasPosition checkpoints.old target }
    ensures on_run { OnOk result (Passes checkpoints.old net.new) }
    ensures reached { OnOk result (net.new.position ≡ target) }
    ensures full { IfErr result (λ fault. fault ≡ StepFault.CountFull → IsTooLong checkpoints.old) }
    ensures same { checkpoints.new ≡ checkpoints.old }
{
    let count = target - net.position();
    match forward(net, count, checkpoints, line) {
        Ok(()) => Ok(()),
        Err(fault) => Err(fault),
    }
}

/// Runs events up to a position that the run has, and has each watched. The run ends before it where the watcher says so.
pub(crate) fn reach_watched<W: Watch>(
    net: &mut Net,
    target: u64,
    checkpoints: &mut Checkpoints,
    watch: &mut W,
    line: &mut Line,
) -> Result<RunEnd, StepFault>
    requires on_run { Passes checkpoints.old net.old }
    requires below { net.old.position ≤ target }
    requires position { HasPosition checkpoints.old target }
    requires fits { W.fits watch.old net.old }
    ensures watched { Watched W.has net.old watch.old net.new watch.new (goes_on result) }
    ensures on_run { Passes checkpoints.old net.new }
    ensures reached { IfOk result (λ end. goes_on (Ok end) ≡ true → W.halts watch.new net.new ⊎ (net.new.position ≡ target)) }
    ensures full { IfErr result (λ fault. fault ≡ StepFault.CountFull → IsTooLong checkpoints.old) }
    ensures same { checkpoints.new ≡ checkpoints.old }
{
    let mut both = Both {
        first: watch,
        second: UpTo { position: target },
    };
    run_by_two(net, checkpoints, &mut both, line)
}
