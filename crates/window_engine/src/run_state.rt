//! The net on its way, with what is used again from window to window.
ghost use Rattle.std.specs.Prelude.{◌≡◌, ◌+◌, ◌<◌, ◌≤◌, Some, None, IfOk, IfErr, IfSome, length};
ghost use Rattle.table_run.specs.State.{due};
ghost use Rattle.window_workers.specs.Edges.{IsAtEdge, edge_of};
ghost use Rattle.window_engine.specs.Engines.{IsNext, IsStop, next_time};
ghost use Rattle.window_engine.specs.RunStates.{CanTell, Opens, reported_as};

use crate::fault::{EngineFault, Stop, engine_fault};
use crate::granularity::{Granularity, Turnout};
use crate::slice::{next_slice, slice_beside_text};
use net_machine::Net;
use sim_time::Time;
use std::alloc::{AllocError, Global};
use window_core::{Partition, Sheaf, Window};
use window_workers::{WindowWorkers, WorkersFault};

/// Of fewer events it is not asked how they lie in their window.
const MANY: usize = 4_096;

/// All of so many parts of a window's events but the last are nearly all.
const MOST: usize = 16;

/// The net on its way, with what is used again from window to window.
#[derive(Drop)]
pub(crate) struct RunState {
    /// The groups that were asked for.
    pub groups: Partition,
    /// The least delay of a link between two of them, in nanoseconds.
    pub ahead: Option<Time>,
    /// Whether events are run by windows or one after another, and for how long.
    pub granularity: Granularity,
    /// The net, by groups.
    pub window: Window,
    /// Events before this moment are run, in nanoseconds.
    pub end: Time,
    /// How many events are committed.
    pub position: u64,
    /// A window's lines.
    pub sheaf: Sheaf,
    /// Where memory is taken.
    pub alloc: Global,
}

/// A window that is to be run.
#[derive(Clone, Copy, Drop)]
pub(crate) struct WindowPlan {
    /// When its first event is, in nanoseconds.
    pub next: Time,
    /// By when it ends at the latest.
    pub bound: Time,
    /// How long it is.
    pub span: Time,
    /// Whether it ends by the lookahead, and not sooner.
    pub whole: bool,
    /// How many workers are to run it.
    pub workers: usize,
}

/// Why a window was not run, or not written.
#[derive(Clone, Copy, Drop)]
pub(crate) enum WriteFault {
    /// The workers' fault. Of the window that they ran no event is committed.
    Workers(WorkersFault),
    /// The sink failed after so many bytes of a window's text.
    Sink(u128),
}

/// The fault as the engine tells it, after so many bytes of earlier windows.
pub(crate) fn reported(fault: WriteFault, written: u128) -> EngineFault
    requires { CanTell written fault }
    ensures { result ≡ reported_as written fault }
{
    match fault {
        WriteFault::Workers(fault) => engine_fault(fault),
        WriteFault::Sink(count) => EngineFault::Sink {
            written: written + count,
        },
    }
}

/// A net by groups: its first window opens. A refusal gives the net up.
pub(crate) fn split(alloc: Global, net: Net, groups: &Partition) -> Result<Window, AllocError>
    requires { length groups.now ≡ length net.state.parts }
    ensures { IfOk result (Opens net groups.now) }
{
    match Window::new(alloc, net, groups.copy().unwrap()) {
        Ok(window) => Ok(window),
        Err(_) => Err(AllocError),
    }
}

impl RunState {
    /// When the next event is, in nanoseconds, where one is left below the end.
    pub(crate) fn next(&self) -> Option<Time>
        requires edge { IsAtEdge self.now.window }
        requires end { self.now.end ≡ self.now.window.end }
        ensures none { result ≡ None → due (edge_of self.now.window) ≡ None }
        ensures next { IfSome result (λ time. next_time (edge_of self.now.window) ≡ Some time) }
        ensures some { IfSome result (λ time. time < self.now.end) }
    {
        let _began = self.window.position();
        let time = self.window.next()?;
        if time < self.end { Some(time) } else { None }
    }

    /// When the next event is, where one is left below the end and a moment; else why windows end.
    fn next_below(&self, until: Time) -> Result<Time, Stop>
        requires edge { IsAtEdge self.now.window }
        requires end { self.now.end ≡ self.now.window.end }
        ensures next { IfOk result (IsNext until (edge_of self.now.window)) }
        ensures stop { IfErr result (IsStop until (edge_of self.now.window)) }
    {
        let Some(next) = self.next() else {
            return Err(Stop::End);
        };
        if next >= until {
            return Err(Stop::Until);
        }
        Ok(next)
    }

    /// The next window, which ends by a moment at the latest and is no longer than a slice, where an event
    /// is left below the moment; else why windows end.
    pub(crate) fn plan(
        &self,
        until: Time,
        slice: Time,
        workers: &WindowWorkers,
    ) -> Result<WindowPlan, Stop>
        requires edge { IsAtEdge self.now.window }
        requires end { self.now.end ≡ self.now.window.end }
        requires slice { 1 ≤ slice }
        ensures next { IfOk result (λ plan. IsNext plan.bound (edge_of self.now.window) plan.next) }
        ensures bound { IfOk result (λ plan. plan.bound ≤ until) }
        ensures workers { IfOk result (λ plan. (0 < plan.workers) × (plan.workers ≤ workers.now.workers)) }
        ensures stop { IfErr result (IsStop until (edge_of self.now.window)) }
    {
        let next = self.next_below(until)?;
        let bound = until.min(next.saturating_add(slice));
        let end = self.window.end();
        let (shared, lines) = (self.sheaf.beside_most(), self.sheaf.len());
        let hands = if self.groups.groups() == 1 {
            workers.hands_of_one(lines)
        } else {
            workers.hands(&self.window, shared, lines, bound)
        };
        Ok(WindowPlan {
            next,
            bound,
            span: end.min(bound).saturating_sub(next),
            whole: end <= bound,
            workers: hands,
        })
    }

    /// In how much of a window's time nearly all its events were, in nanoseconds, where it began at a
    /// moment and was so long: a burst may be over long before the window. Of few events it is all.
    fn busy(&self, next: Time, span: Time) -> Time {
        if self.sheaf.len() < MANY {
            return span;
        }
        let mut moments = [0; MOST];
        self.sheaf.cut_into(&mut moments);
        moments[MOST - 1].saturating_sub(next).min(span)
    }

    /// How long the next window may be after one, by so many workers, in nanoseconds.
    pub(crate) fn slice_after(&self, plan: &WindowPlan, workers: usize) -> Time
        ensures { 1 ≤ result }
    {
        let busy = self.busy(plan.next, plan.span);
        let (events, shared) = (self.sheaf.len(), self.sheaf.beside_most());
        if workers > 1 && self.groups.groups() == 1 {
            return slice_beside_text(plan.span, busy, events);
        }
        next_slice(plan.span, busy, events, shared, workers)
    }
    /// After a window, which ended by the lookahead or sooner and of whose groups threads ran so many, chooses whether
    /// the next events are run by windows: not where the last windows held few events or threads came late to them, and
    /// after a while again, to see how it is then; and always for a gate that asks for all workers in each window.
    pub(crate) fn choose(&mut self, worth: usize, whole: bool, turnout: Turnout)
        ensures { self.new ≡ record self.old { granularity = self.new.granularity } }
    {
        if worth == 0 {
            return;
        }
        let (nodes, groups) = (self.groups.nodes(), self.groups.groups());
        let turnout = if groups > 1 && self.sheaf.beside_most() < worth {
            // There was less to share than a thread is worth.
            Turnout::none()
        } else {
            turnout
        };
        self.granularity.count(self.sheaf.len(), whole, turnout);
        self.granularity.choose(nodes, groups);
    }
}
