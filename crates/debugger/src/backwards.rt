//! Back to the last line before a position that a breakpoint matches.
ghost use Rattle.std.specs.Prelude.{◌≡◌, ◌≢◌, ◌+◌, ◌<◌, ◌≤◌, IfOk, IfErr};
ghost use Rattle.debugger.specs.Backwards.{FindsLast, IsSearched};
ghost use Rattle.debugger.specs.Moves.{Passes, HasPosition, ReverseGoesTo, IsTooLong};

use crate::checkpoints::Checkpoints;
use crate::fault::MoveFault;
use crate::reached::net_at;
use crate::to_stop::Stops;
use crate::under_way::counts_of;
use crate::walk::reach_watched;
use breakpoints::breaks::Breaks;
use breakpoints::seen::see_all;
use net_machine::Net;
use node_core::Line;

/// What was found in a stretch of the run that was run again.
#[derive(Drop)]
struct Searched {
    /// The position before its first line.
    from: u64,
    /// The last position in it whose line a breakpoint matches.
    found: Option<u64>,
}

/// Runs events up to a position, and answers the last position on the way whose line a breakpoint
/// matches.
fn last_stop(
    net: &mut Net,
    upto: u64,
    breaks: &Breaks,
    checkpoints: &mut Checkpoints,
    line: &mut Line,
) -> Result<Option<u64>, MoveFault>
    requires on_run { Passes checkpoints.old net.old }
    requires below { net.old.position ≤ upto }
    requires position { HasPosition checkpoints.old upto }
    ensures ok { IfOk result (λ found. FindsLast checkpoints.old breaks.now net.old.position upto found) }
    ensures full { IfErr result (λ fault. fault ≡ MoveFault.CountFull → IsTooLong checkpoints.old) }
    ensures no_worker { IfErr result (λ fault. fault ≢ MoveFault.NoWorker) }
    ensures same { checkpoints.new ≡ checkpoints.old }
{
    let _count = net.position();
    let seen = see_all(breaks.allocator(), breaks.as_slice(), net)?;
    let mut stops = Stops {
        breaks,
        counts: counts_of(breaks.allocator(), net),
        seen,
        first: false,
        found: None,
        refused: false,
    };
    match reach_watched(net, upto, checkpoints, &mut stops, line) {
        Ok(_) if stops.refused => Err(MoveFault::NoMemory),
        Ok(_) => Ok(stops.found),
        Err(fault) => Err(fault.into()),
    }
}

/// The same over the stretch up to a position that begins at the nearest checkpoint before it.
#[tactic(none)]
fn search_before(
    present: &Net,
    upto: u64,
    breaks: &Breaks,
    checkpoints: &mut Checkpoints,
    line: &mut Line,
) -> Result<Searched, MoveFault>
    requires on_run { Passes checkpoints.old present.now }
    requires some { 0 < upto }
    requires position { HasPosition checkpoints.old upto }
    ensures ok { IfOk result (λ s. IsSearched checkpoints.old breaks.now s.from upto s.found) }
    ensures full { IfErr result (λ fault. fault ≡ MoveFault.CountFull → IsTooLong checkpoints.old) }
    ensures no_worker { IfErr result (λ fault. fault ≢ MoveFault.NoWorker) }
    ensures same { checkpoints.new ≡ checkpoints.old }
{
    match checkpoints.nearest(upto - 1, present) {
        Ok(net) => {
            let mut net = net;
            let from = net.position();
            match last_stop(&mut net, upto, breaks, checkpoints, line) {
                Ok(found) => Ok(Searched { from, found }),
                Err(fault) => Err(fault),
            }
        }
        Err(_) => Err(MoveFault::NoMemory),
    }
}

/// The last position up to one whose line a breakpoint matches, or 0. From checkpoint to checkpoint
/// backwards, so that each event is run again once at most.
#[tactic(none)]
fn stop_upto(
    present: &Net,
    upto: u64,
    breaks: &Breaks,
    checkpoints: &mut Checkpoints,
    line: &mut Line,
) -> Result<u64, MoveFault>
    requires on_run { Passes checkpoints.old present.now }
    requires position { HasPosition checkpoints.old upto }
    ensures goes { IfOk result (ReverseGoesTo checkpoints.old breaks.now (upto + 1)) }
    ensures full { IfErr result (λ fault. fault ≡ MoveFault.CountFull → IsTooLong checkpoints.old) }
    ensures no_worker { IfErr result (λ fault. fault ≢ MoveFault.NoWorker) }
    ensures same { checkpoints.new ≡ checkpoints.old }
{
    let mut last = upto;
    while last > 0 {
        match search_before(present, last, breaks, checkpoints, line) {
            Ok(searched) => match searched.found {
                Some(position) => return Ok(position),
                None => last = searched.from,
            },
            Err(fault) => return Err(fault),
        }
    }
    Ok(0)
}

/// The net at the last position before the present one whose line a breakpoint matches, or at 0.
#[tactic(none)]
pub(crate) fn net_before(
    present: &Net,
    breaks: &Breaks,
    checkpoints: &mut Checkpoints,
    line: &mut Line,
) -> Result<Net, MoveFault>
    requires { Passes checkpoints.old present.now }
    ensures on_run { IfOk result (Passes checkpoints.old) }
    ensures goes { IfOk result (λ net. ReverseGoesTo checkpoints.old breaks.now present.now.position net.position) }
    ensures full { IfErr result (λ fault. fault ≡ MoveFault.CountFull → IsTooLong checkpoints.old) }
    ensures no_worker { IfErr result (λ fault. fault ≢ MoveFault.NoWorker) }
    ensures same { checkpoints.new ≡ checkpoints.old }
{
    let before = present.position().saturating_sub(1);
    match stop_upto(present, before, breaks, checkpoints, line) {
        Ok(target) => net_at(present, target, checkpoints, line),
        Err(fault) => Err(fault),
    }
}
