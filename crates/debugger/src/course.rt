//! A copy of a net, on its way by windows.
ghost use Rattle.std.specs.Prelude.{◌≡◌, ◌≢◌, ◌<◌, ◌≤◌, false, length, IfOk, IfErr, IfSome, OnOk, OnErr};
ghost use Rattle.sim_time.specs.declared.limits.TheConstants.{MOST_EVENTS};
ghost use Rattle.window_core.specs.Full.{HasTooMany};
ghost use Rattle.debugger.specs.Moves.{Passes, HasPosition, IsTooLong};
ghost use Rattle.debugger.specs.Courses.{IsOnWindows, WentOn};

use crate::checkpoints::Checkpoints;
use crate::fault::MoveFault;
use crate::walk::reach;
use net_machine::Net;
use node_core::Line;
use sim_time::Time;
use std::alloc::{AllocError, Global};
use window_core::{Batch, Partition};
use window_engine::{Engine, FIRST_SLICE, Gate, Hands, next_slice};

/// The net behind is left behind by fewer events than these, and those of a window.
const MOST_BEHIND: u64 = 8_192;

/// A copy of a net, on its way by windows.
#[derive(Drop)]
pub(crate) struct WindowedNet {
    /// The copy, run by windows.
    pub engine: Engine,
    /// A net of the same run that is not past it, from which a line of the last window is reached.
    pub behind: Net,
    /// How much of the simulated time the next window may span at most, in nanoseconds.
    pub slice: Time,
}

// An engine where a net stands.
fn ahead(alloc: Global, present: &Net, partition: &Partition) -> Result<Engine, AllocError>
    requires { length partition.now ≡ length present.now.state.parts }
    ensures net { IfOk result (λ engine. engine.net ≡ present.now) }
    ensures running { IfOk result (λ engine. engine.failed ≡ false) }
{
    let groups = partition.copy()?;
    Engine::at(alloc, present.copy()?, groups)
}

impl WindowedNet {
    /// From where a net stands.
    pub(crate) fn new(
        alloc: Global,
        present: &Net,
        partition: &Partition,
    ) -> Result<WindowedNet, AllocError>
        requires { length partition.now ≡ length present.now.state.parts }
        ensures net { IfOk result (λ c. c.engine.net ≡ present.now) }
        ensures running { IfOk result (λ c. c.engine.failed ≡ false) }
        ensures behind { IfOk result (λ c. c.behind ≡ present.now) }
        ensures few { present.now.position ≤ MOST_EVENTS }
        ensures slice { IfOk result (λ c. 1 ≤ c.slice) }
    {
        let _reached = present.position();
        let engine = ahead(alloc, present, partition)?;
        match present.copy() {
            Ok(behind) => Ok(WindowedNet {
                engine,
                behind,
                slice: FIRST_SLICE,
            }),
            Err(fault) => {
                drop(engine);
                Err(fault)
            }
        }
    }

    /// Runs the next window by so many workers, and gives its lines; none where no event is left. A window that is run
    /// has a line.
    pub(crate) fn window<H: Hands>(
        &mut self,
        hands: &H,
        gate: &Gate,
        workers: usize,
    ) -> Result<Option<Batch>, MoveFault>
        requires ready { H.ready hands.now }
        requires running { self.old.engine.failed ≡ false }
        requires slice { 1 ≤ self.old.slice }
        requires workers { (0 < workers) × (workers ≤ 64) }
        ensures gone { IfOk result (λ batch. WentOn self.old.engine.net batch self.new.engine.net) }
        ensures some { IfOk result (λ batch. IfSome batch (λ _. self.old.engine.net.position < self.new.engine.net.position)) }
        ensures few { OnOk result (self.new.engine.net.position ≤ MOST_EVENTS) }
        ensures running { OnOk result (self.new.engine.failed ≡ false) }
        ensures full { IfErr result (λ fault. fault ≡ MoveFault.CountFull → HasTooMany self.old.engine.net) }
        ensures several { IfErr result (λ fault. fault ≡ MoveFault.NoWorker → 1 < workers) }
        ensures behind { self.new.behind ≡ self.old.behind }
        ensures slice { 1 ≤ self.new.slice }
    {
        let _began = self.engine.position();
        let Some(next) = self.engine.next() else {
            return Ok(None);
        };
        let until = next.saturating_add(self.slice);
        let batch = self.engine.window(hands, workers, gate, until)?;
        let (events, shared) = (batch.len(), batch.beside_most());
        self.slice = next_slice(self.slice, self.slice, events, shared, workers);
        let _reached = self.engine.position();
        Ok(Some(batch))
    }

    /// Brings the net behind to the last window's edge, and saves the state there, where enough
    /// events were passed. Where memory is refused, it stays.
    pub(crate) fn follow(&mut self, checkpoints: &mut Checkpoints)
        requires { IsOnWindows checkpoints.old self.old.engine.net.position self.old }
        ensures on_way { IsOnWindows checkpoints.old self.new.engine.net.position self.new }
        ensures engine { self.new.engine ≡ self.old.engine }
        ensures slice { self.new.slice ≡ self.old.slice }
        ensures same { checkpoints.new ≡ checkpoints.old }
    {
        if self.engine.position() - self.behind.position() < MOST_BEHIND {
            return;
        }
        if let Ok(edge) = self.engine.edge() {
            checkpoints.keep(&edge);
            self.behind = edge;
        }
    }

    /// The net at a position that the net behind is not past, and that the run has.
    pub(crate) fn into_net_at(
        self,
        target: u64,
        checkpoints: &mut Checkpoints,
        line: &mut Line,
    ) -> Result<Net, MoveFault>
        requires on_way { IsOnWindows checkpoints.old target self }
        requires position { HasPosition checkpoints.old target }
        ensures on_run { IfOk result (Passes checkpoints.old) }
        ensures goes { IfOk result (λ net. net.position ≡ target) }
        ensures full { IfErr result (λ fault. fault ≡ MoveFault.CountFull → IsTooLong checkpoints.old) }
        ensures no_worker { IfErr result (λ fault. fault ≢ MoveFault.NoWorker) }
        ensures same { checkpoints.new ≡ checkpoints.old }
    {
        let mut net = self.behind;
        drop(self.engine);
        match reach(&mut net, target, checkpoints, line) {
            Ok(()) => Ok(net),
            Err(fault) => {
                drop(net);
                Err(fault.into())
            }
        }
    }

    /// The net at the last window's edge.
    pub(crate) fn into_edge(self) -> Result<Net, MoveFault>
        requires { self.engine.failed ≡ false }
        ensures net { IfOk result (λ net. net ≡ self.engine.net) }
        ensures no_count { IfErr result (λ fault. fault ≢ MoveFault.CountFull) }
        ensures no_worker { IfErr result (λ fault. fault ≢ MoveFault.NoWorker) }
    {
        let edge = self.engine.edge();
        drop(self);
        match edge {
            Ok(net) => Ok(net),
            Err(fault) => Err(fault.into()),
        }
    }
}
