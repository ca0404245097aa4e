//! Nets that moves come to, each made of a copy, so that the present one stays.
ghost use Rattle.std.specs.Prelude.{◌≡◌, ◌≢◌, IfOk, IfErr};
ghost use Rattle.debugger.specs.Moves.{Passes, HasPosition, StepGoesTo, IsTooLong};

use crate::checkpoints::Checkpoints;
use crate::fault::MoveFault;
use crate::walk::{forward, reach};
use net_machine::Net;
use node_core::Line;

/// The net so many events after the present one, or at the run's end where that comes first.
pub fn net_after(
    present: &Net,
    count: u64,
    checkpoints: &mut Checkpoints,
    line: &mut Line,
) -> Result<Net, MoveFault>
    requires { Passes checkpoints.old present.now }
    ensures on_run { IfOk result (Passes checkpoints.old) }
    ensures goes { IfOk result (λ net. StepGoesTo checkpoints.old present.now.position count net.position) }
    ensures full { IfErr result (λ fault. fault ≡ MoveFault.CountFull → IsTooLong checkpoints.old) }
    ensures no_worker { IfErr result (λ fault. fault ≢ MoveFault.NoWorker) }
    ensures same { checkpoints.new ≡ checkpoints.old }
{
    let mut net = present.copy()?;
    forward(&mut net, count, checkpoints, line)?;
    Ok(net)
}

/// The net at a position that the run has, from the nearest state before it that is known.
pub fn net_at(
    present: &Net,
    target: u64,
    checkpoints: &mut Checkpoints,
    line: &mut Line,
) -> Result<Net, MoveFault>
    requires on_run { Passes checkpoints.old present.now }
    requires position { HasPosition checkpoints.old target }
    ensures on_run { IfOk result (Passes checkpoints.old) }
    ensures goes { IfOk result (λ net. net.position ≡ target) }
    ensures full { IfErr result (λ fault. fault ≡ MoveFault.CountFull → IsTooLong checkpoints.old) }
    ensures no_worker { IfErr result (λ fault. fault ≢ MoveFault.NoWorker) }
    ensures same { checkpoints.new ≡ checkpoints.old }
{
    let mut net = checkpoints.nearest(target, present)?;
    reach(&mut net, target, checkpoints, line)?;
    Ok(net)
}
