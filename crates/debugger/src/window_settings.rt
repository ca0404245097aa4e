//! Moves by windows, which workers run, or the calling thread alone.
ghost use Rattle.std.specs.Prelude.{◌≡◌, ◌<◌, ◌≤◌, false, length, IfOk, IfErr};
ghost use Rattle.sim_time.specs.declared.limits.TheConstants.{MOST_EVENTS};
ghost use Rattle.debugger.specs.Moves.{Passes, UntilGoesTo, IsTooLong};
ghost use Rattle.debugger.specs.Aims.{GoesTo, IsSought};

use crate::aim::Aim;
use crate::checkpoints::Checkpoints;
use crate::course::WindowedNet;
use crate::fault::MoveFault;
use net_machine::Net;
use node_core::Line;
use sim_time::Time;
use std::alloc::Global;
use window_core::Partition;
use window_engine::{Gate, Hands};

/// How windows are run: by which groups of nodes, and by how many workers.
#[derive(Drop)]
pub struct WindowSettings {
    /// The group of each node.
    pub partition: Partition,
    /// How many workers, from 1 to 64.
    pub workers: usize,
    /// Where memory is taken.
    pub alloc: Global,
    ghost some: { 0 < workers },
    ghost few: { workers ≤ 64 },
}

impl WindowSettings {
    /// Whether the calling thread alone runs all: there is one worker, or one group.
    pub(crate) fn is_alone(&self) -> bool {
        self.workers == 1 || self.partition.groups() < 2
    }

    /// The net at the position that a move from the present one goes to.
    pub(crate) fn find<H: Hands>(
        &self,
        hands: &H,
        gate: &Gate,
        present: &Net,
        aim: &Aim,
        checkpoints: &mut Checkpoints,
        line: &mut Line,
    ) -> Result<Net, MoveFault>
        requires ready { H.ready hands.now }
        requires on_run { Passes checkpoints.old present.now }
        requires nodes { length self.now.partition ≡ length present.now.state.parts }
        ensures on_run { IfOk result (Passes checkpoints.old) }
        ensures goes { IfOk result (λ net. GoesTo checkpoints.old aim.now present.now.position net.position) }
        ensures full { IfErr result (λ fault. fault ≡ MoveFault.CountFull → IsTooLong checkpoints.old) }
        ensures several { IfErr result (λ fault. fault ≡ MoveFault.NoWorker → 1 < self.now.workers) }
        ensures same { checkpoints.new ≡ checkpoints.old }
    {
        let mut course = WindowedNet::new(self.alloc, present, &self.partition)?;
        match self.seek(hands, gate, present, aim, checkpoints, &mut course) {
            Ok(Some(target)) => course.into_net_at(target, checkpoints, line),
            Ok(None) => course.into_edge(),
            Err(fault) => {
                drop(course);
                Err(fault)
            }
        }
    }

    /// The net at the first position where all events before a time are run, wherever it lies.
    pub(crate) fn find_moment<H: Hands>(
        &self,
        hands: &H,
        gate: &Gate,
        present: &Net,
        time: Time,
        checkpoints: &mut Checkpoints,
        line: &mut Line,
    ) -> Result<Net, MoveFault>
        requires ready { H.ready hands.now }
        requires on_run { Passes checkpoints.old present.now }
        requires nodes { length self.now.partition ≡ length present.now.state.parts }
        ensures on_run { IfOk result (Passes checkpoints.old) }
        ensures goes { IfOk result (λ net. UntilGoesTo checkpoints.old time 0 net.position) }
        ensures full { IfErr result (λ fault. fault ≡ MoveFault.CountFull → IsTooLong checkpoints.old) }
        ensures several { IfErr result (λ fault. fault ≡ MoveFault.NoWorker → 1 < self.now.workers) }
        ensures same { checkpoints.new ≡ checkpoints.old }
    {
        match checkpoints.nearest_before(time, present) {
            Ok(near) => self.find(hands, gate, &near, &Aim::Moment(time), checkpoints, line),
            Err(_) => Err(MoveFault::NoMemory),
        }
    }

    // The position that a move from the present one goes to, where a window of a course has it; none
    // where the course ends first, and the move with it. Each window has an event, and a run has at most 10^15.
    fn seek<H: Hands>(
        &self,
        hands: &H,
        gate: &Gate,
        present: &Net,
        aim: &Aim,
        checkpoints: &mut Checkpoints,
        course: &mut WindowedNet,
    ) -> Result<Option<u64>, MoveFault>
        requires ready { H.ready hands.now }
        requires on_run { Passes checkpoints.old present.now }
        requires net { course.old.engine.net ≡ present.now }
        requires running { course.old.engine.failed ≡ false }
        requires behind { course.old.behind ≡ present.now }
        requires few { present.now.position ≤ MOST_EVENTS }
        requires slice { 1 ≤ course.old.slice }
        ensures found { IfOk result (IsSought checkpoints.old aim.now present.now.position course.new) }
        ensures full { IfErr result (λ fault. fault ≡ MoveFault.CountFull → IsTooLong checkpoints.old) }
        ensures several { IfErr result (λ fault. fault ≡ MoveFault.NoWorker → 1 < self.now.workers) }
        ensures same { checkpoints.new ≡ checkpoints.old }
    {
        loop {
            let Some(batch) = course.window(hands, gate, self.workers)? else {
                return Ok(None);
            };
            let found = aim.end_in(&batch);
            drop(batch);
            if let Some(target) = found {
                return Ok(Some(target));
            }
            course.follow(checkpoints);
        }
    }
}
