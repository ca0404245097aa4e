//! A run that two watch.
ghost use Rattle.std.specs.Prelude.{◌⊎◌};
ghost use Rattle.net_watch.specs.Watched.{Watched, IsRunEnd, goes_on};
ghost use Rattle.net_watch.specs.BothHave.{BothHave};

use crate::both::Both;
use crate::one_loop::run_watched;
use crate::run_end::RunEnd;
use crate::watch::Watch;
use net_machine::{Net, StepFault};
use node_core::Line;

/// Runs events as [`run_watched`] does, and has each watched by both.
#[inline(always)]
pub fn run_by_two<A: Watch, B: Watch>(
    net: &mut Net,
    first: &mut A,
    second: &mut B,
    line: &mut Line,
) -> Result<RunEnd, StepFault>
    requires first { A.fits first.old net.old }
    requires second { B.fits second.old net.old }
    ensures watched { BothHave (Watched A.has net.old first.old net.new first.new) (Watched B.has net.old second.old net.new second.new) (goes_on result) }
    ensures first { A.fits first.new net.new }
    ensures second { B.fits second.new net.new }
    ensures end { IsRunEnd (A.halts first.new net.new ⊎ B.halts second.new net.new) net.old net.new result }
{
    let mut both = Both { first, second };
    run_watched(net, &mut both, line)
}
