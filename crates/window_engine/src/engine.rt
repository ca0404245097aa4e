//! The engine: a scenario's run by windows on many workers.
ghost use Rattle.std.specs.Prelude.{◌≡◌, ◌<◌, ◌≤◌, ℕ, List, length, true, false, is_err, IfErr, IfOk, IfSome, OnOk, OnErr, None, Some, Err};
ghost use Rattle.scenario_image.specs.declared.parts.ScenarioParts.{ScenarioParts};
ghost use Rattle.scenario_image.specs.Scenario.{IsScenario};
ghost use Rattle.node_core.specs.TraceLine.{TraceLine};
ghost use Rattle.table_run.specs.State.{due, initial};
ghost use Rattle.table_run.specs.Laws.{ComesTo};
ghost use Rattle.net_machine.specs.Run.{IsRun};
ghost use Rattle.window_core.specs.Full.{HasTooMany};
ghost use Rattle.window_core.specs.Lookahead.{lookahead};
ghost use Rattle.window_core.specs.Partition.{group_in};
ghost use Rattle.window_core.specs.Windows.{AreBelow};
ghost use Rattle.window_engine.specs.Outcomes.{IsOfRun, IsOfWorkers};
ghost use Rattle.window_engine.specs.Engines.{GoesOn, NoneBelow, Commits, IsNext, IsStop, next_time, window_end_by, sink_failures};

use crate::advance::finish;
use crate::fault::{EngineFault, Stop, engine_fault};
use crate::granularity::Granularity;
use crate::run_state::{RunState, split};
use net_machine::Net;
use scenario_image::Scenario;
use sim_time::Time;
use std::alloc::{AllocError, Global};
use std::marker::Model;
use std::snapshot::Snapshot;
use window_core::{Batch, Partition, Sheaf};
use window_text::Sink;
use window_workers::{Gate, Hands, WindowWorkers};

/// A scenario's run by windows on many workers. After a fault each call answers `Failed`.
#[derive(Drop)]
pub struct Engine {
    /// The net on its way.
    run_state: RunState,
    /// Whether a call had a fault.
    failed: bool,
    /// How many events of the last window were beside those of its busiest group.
    shared: usize,
}

impl Model for Engine {
    ghost use Rattle.window_engine.specs.Engines.{EngineValue};
    ghost use Rattle.window_engine.specs.EngineCode.{engine_code};

    ghost Value = { EngineValue };

    ghost coded = { engine_code };

    ghost use Rattle.window_engine.specs.EngineOf.{engine_of, IsEngineInside};

    ghost view = { engine_of };

    ghost invariant = { IsEngineInside };
}

/// The numbers of the nodes, those of the first group before those of the second, and so on.
fn by_groups(alloc: Global, partition: &Partition) -> Result<Vec<u16>, AllocError> {
    let mut order = Vec::new(alloc);
    for group in 0..partition.groups() {
        for node in 0..partition.nodes() {
            match u16::try_from(node) {
                Ok(number) if partition.group(node) == group => order.push(number)?,
                _ => {}
            }
        }
    }
    Ok(order)
}

/// The net of a scenario before anything is sent. What the nodes of a group keep stands together in memory, so that
/// workers do not write to the same cache lines.
fn initial_net(alloc: Global, scenario: &Scenario, partition: &Partition) -> Result<Net, AllocError>
    ensures state { IfOk result (λ net. net ≡ record { state = initial scenario.now; position = 0 }) }
{
    let order = by_groups(alloc, partition)?;
    Net::new(alloc, scenario)?.copy_in(&order)
}

impl Engine {
    /// A scenario's run from its beginning. A refusal gives the partition up.
    pub fn new(
        alloc: Global,
        scenario: &Scenario,
        partition: Partition,
    ) -> Result<Engine, AllocError>
        requires { length partition ≡ length scenario.now.nodes }
        ensures { IfOk result (λ e. e ≡ record { entries = partition; ahead = lookahead (group_in partition) scenario.now.links; net = record { state = initial scenario.now; position = 0 }; failed = false }) }
    {
        let _parts = scenario.parts();
        let net = initial_net(alloc, scenario, &partition)?;
        Engine::at(alloc, net, partition)
    }

    /// The run from where a net stands. A refusal gives the net and the partition up.
    pub fn at(alloc: Global, net: Net, partition: Partition) -> Result<Engine, AllocError>
        requires { length partition ≡ length net.state.parts }
        ensures net { IfOk result (λ e. e.net ≡ net) }
        ensures entries { IfOk result (λ e. e.entries ≡ partition) }
        ensures ahead { IfOk result (λ e. (p : ScenarioParts) (before : List TraceLine) → IsScenario p → ComesTo p net.position before net.state → e.ahead ≡ lookahead (group_in partition) p.links) }
        ensures failed { IfOk result (λ e. e.failed ≡ false) }
    {
        let many = partition.groups();
        let position = net.position();
        let end = net.end();
        let window = split(alloc, net, &partition)?;
        Ok(Engine {
            run_state: RunState {
                groups: partition,
                ahead: window.lookahead(),
                granularity: Granularity::new(many),
                window,
                end,
                position,
                sheaf: Sheaf::new(alloc, 0),
                alloc,
            },
            failed: false,
            shared: 0,
        })
    }

    /// How many events of the run are committed.
    pub fn position(&self) -> u64
        ensures count { result ≡ self.now.net.position }
        ensures is_run { self.now.failed ≡ false → IsRun self.now.net }
    {
        let _reached = self.run_state.window.position();
        self.run_state.position
    }

    /// Whether a call had a fault.
    pub fn failed(&self) -> bool
        ensures { result ≡ self.now.failed }
    {
        self.failed
    }

    /// The net at the last window's edge.
    pub fn edge(&self) -> Result<Net, AllocError>
        requires { self.now.failed ≡ false }
        ensures { IfOk result (λ net. net ≡ self.now.net) }
    {
        let _reached = self.run_state.window.position();
        self.run_state.window.edge()
    }

    /// When the next event is, in nanoseconds, where one is left below the run's end.
    pub fn next(&self) -> Option<Time>
        requires { self.now.failed ≡ false }
        ensures none { result ≡ None → due self.now.net.state ≡ None }
        ensures next { IfSome result (λ time. next_time self.now.net.state ≡ Some time) }
        ensures below { IfSome result (λ time. time < self.now.net.state.end) }
    {
        self.run_state.next()
    }

    /// Runs the next window by so many workers, to end by a moment at the latest, and gives its
    /// lines.
    pub fn window<H: Hands>(
        &mut self,
        hands: &H,
        workers: usize,
        gate: &Gate,
        until: Time,
    ) -> Result<Batch, EngineFault>
        requires ready { H.ready hands.now }
        requires workers { (0 < workers) × (workers ≤ 64) }
        ensures ok { IfOk result (λ batch. GoesOn self.old.net batch self.new.net) }
        ensures early { IfOk result (λ batch. AreBelow (window_end_by self.old until) batch.lines) }
        ensures none_left { OnOk result (NoneBelow (window_end_by self.old until) self.new.net.state) }
        ensures some { IfOk result (λ batch. (time : ℕ) → IsNext until self.old.net.state time → 0 < length batch.lines) }
        ensures err { OnErr result (self.new.net.position ≡ self.old.net.position) }
        ensures fault { self.old.failed ≡ false → IfErr result (IsOfWorkers workers) }
        ensures full { IfErr result (λ fault. fault ≡ EngineFault.CountFull → HasTooMany self.old.net) }
        ensures failed { self.new.failed ≡ is_err result }
        ensures failed_before { self.old.failed ≡ true → result ≡ Err EngineFault.Failed }
        ensures nothing_more { self.old.failed ≡ true → self.new ≡ self.old }
        ensures entries { self.new.entries ≡ self.old.entries }
        ensures ahead { self.new.ahead ≡ self.old.ahead }
    {
        if self.failed {
            return Err(EngineFault::Failed);
        }
        let _reached = self.run_state.window.position();
        let alloc = self.run_state.alloc;
        let before = Snapshot::of(&self.run_state.window);
        let window_workers = WindowWorkers {
            gate,
            workers,
            // No text is made.
            processors: 0,
            alloc,
        };
        let window = &mut self.run_state.window;
        let many = window_workers.hands(window, self.shared, 0, until);
        let ran = if many == 1 {
            Ok(false)
        } else {
            window_workers.run_once(hands, many, until, window)
        };
        let mut batch = Batch::new(alloc, 0);
        match finish(&window_workers, ran, until, &before, window, &mut batch) {
            Ok(()) => {}
            Err(fault) => {
                self.failed = true;
                return Err(engine_fault(fault));
            }
        }
        self.run_state.position = self.run_state.window.position();
        self.shared = batch.beside_most();
        Ok(batch)
    }

    /// Runs events by so many workers and writes their lines, up to the run's end or until none is left below a moment:
    /// by windows, or where these hold few one after another for a while.
    pub fn run<H: Hands, S: Sink>(
        &mut self,
        hands: &H,
        workers: usize,
        gate: &Gate,
        until: Time,
        sink: &mut S,
    ) -> Result<Stop, EngineFault>
        requires ready { H.ready hands.now }
        requires workers { (0 < workers) × (workers ≤ 64) }
        ensures commits { Commits until self.old.net result self.new.net (S.contents sink.old) (S.contents sink.new) }
        ensures stop { IfOk result (IsStop until self.new.net.state) }
        ensures fault { self.old.failed ≡ false → IfErr result (IsOfRun workers) }
        ensures full { IfErr result (λ fault. fault ≡ EngineFault.CountFull → HasTooMany self.old.net) }
        ensures failed { self.new.failed ≡ is_err result }
        ensures failed_before { self.old.failed ≡ true → result ≡ Err EngineFault.Failed }
        ensures nothing_more { self.old.failed ≡ true → self.new ≡ self.old }
        ensures failures { S.failures sink.new ≡ sink_failures result (S.failures sink.old) }
        ensures entries { self.new.entries ≡ self.old.entries }
        ensures ahead { self.new.ahead ≡ self.old.ahead }
    {
        if self.failed {
            return Err(EngineFault::Failed);
        }
        let _reached = self.run_state.window.position();
        let alloc = self.run_state.alloc;
        let window_workers = WindowWorkers {
            gate,
            workers,
            processors: hands.processors(),
            alloc,
        };
        let outcome = self
            .run_state
            .write_together(hands, window_workers, until, sink);
        self.failed = outcome.is_err();
        outcome
    }
}
