//! The one loop over a net's events.
ghost use Rattle.net_watch.specs.Watched.{Watched, IsRunEnd, goes_on};

use crate::run_end::RunEnd;
use crate::watch::Watch;
use net_machine::{Net, StepFault};
use node_core::Line;
use std::snapshot::Snapshot;

/// Runs the events of a net in the order of their keys, and has each watched, until the watcher ends the run or no
/// event is due. Each is told of in `line`.
#[inline(always)]
pub fn run_watched<W: Watch>(
    net: &mut Net,
    watch: &mut W,
    line: &mut Line,
) -> Result<RunEnd, StepFault>
    requires { W.fits watch.old net.old }
    ensures watched { Watched W.has net.old watch.old net.new watch.new (goes_on result) }
    ensures fits { W.fits watch.new net.new }
    ensures end { IsRunEnd (W.halts watch.new net.new) net.old net.new result }
{
    loop {
        let next = net.next_due();
        if !watch.ahead(net, next) {
            return Ok(RunEnd::Held);
        }
        let before = Snapshot::of(net);
        match net.run_due(next, line) {
            Ok(true) => {}
            Ok(false) => return Ok(RunEnd::Done),
            Err(fault) => return Err(fault),
        }
        let _count = net.position();
        if !watch.see(&before, net, line) {
            return Ok(RunEnd::Stopped);
        }
    }
}
