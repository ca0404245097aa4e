//! Windows one after another. The text of a window's lines is made by the calling thread before the next
//! one runs, so that the lines are in the near cache and the groups have their memory back; or by the
//! workers that run the next one, once no group is left to them, so that no processor waits for the
//! longest group. Then it is owed: the calling thread writes it while the others begin the window after that,
//! so that they do not wait for the sink.
ghost use Rattle.std.specs.Prelude.{◌≡◌, ◌+◌, ◌<◌, ◌≤◌, ◌^◌, ℕ, [], length, true, Err, None, IfOk, IfErr, OnOk};
ghost use Rattle.net_machine.specs.Run.{Reached};
ghost use Rattle.window_core.specs.Partition.{groups_of};
ghost use Rattle.window_core.specs.Sheaves.{merged};
ghost use Rattle.window_core.specs.Window.{IsWindow};
ghost use Rattle.window_core.specs.Windows.{AreBelow};
ghost use Rattle.window_engine.specs.Calls.{HasPending, HasRested, HasWrittenAll};
ghost use Rattle.window_engine.specs.RunStates.{AtRest, AwaitsSink, HasGroups, IsOwing, HasEnded, StandsAt, Wrote, Broke, fails_after};
ghost use Rattle.window_workers.specs.Edges.{IsAtEdge, edge_of};
ghost use Rattle.window_engine.specs.Engines.{GoesOn, IsNext, IsStop};
ghost use Rattle.window_workers.specs.Laid.{HasRunBy};
ghost use Rattle.window_workers.specs.TextStates.{CanMakeText, HasMadeText};
ghost use Rattle.window_text.specs.Parts.{AreRight, IsWhole};

use crate::advance::finish;
use crate::call::{Call, Writing};
use crate::fault::{EngineFault, Stop, engine_fault};
use crate::granularity::Turnout;
use crate::run_state::{RunState, WindowPlan, WriteFault, reported};
use sim_time::Time;
use std::alloc::AllocError;
use std::mem::swap;
use std::snapshot::Snapshot;
use thread_pool::ThreadPool;
use window_core::Sheaf;
use window_text::{Sink, Text};
use window_workers::{
    Hands, Job, TextState, WindowJob, WindowWorkers, WorkersFault, lacks_threads,
};

/// Where a call's windows stand.
#[derive(Drop)]
enum Stage {
    /// Threads are to share the next one, and none wait for it.
    ToShare,
    /// They have ended so.
    Ended(Result<Stop, EngineFault>),
}

/// Who runs windows now.
#[derive(Drop)]
struct Team<'a, H: Hands> {
    /// By whose hands.
    hands: &'a H,
    /// The threads that wait for jobs, where some do.
    pool: Option<&'a ThreadPool<Job>>,
}

impl RunState {
    /// Commits the events of the sheaf's lines and writes their text, where it was made. All of it
    /// is made before its first byte is put.
    fn put_made<S: Sink>(
        &mut self,
        made: Result<(), AllocError>,
        text: &Text,
        sink: &mut S,
    ) -> Result<u128, WriteFault>
        requires text { OnOk made (IsWhole self.old.sheaf text.now) }
        requires fits { self.old.position + length (merged self.old.sheaf).lines < 2 ^ 63 }
        ensures position { OnOk result (self.new.position ≡ self.old.position + length (merged self.old.sheaf).lines) }
        ensures rest { self.new ≡ record self.old { position = self.new.position } }
        ensures wrote { IfOk result (λ bytes. (until : ℕ) (from to : Reached) → AreBelow until (merged self.old.sheaf).lines → GoesOn from (merged self.old.sheaf) to → Wrote until from to bytes (S.contents sink.old) (S.contents sink.new)) }
        ensures broke { IfErr result (λ fault. (until : ℕ) (from to : Reached) → AreBelow until (merged self.old.sheaf).lines → GoesOn from (merged self.old.sheaf) to → self.old.position ≡ from.position → Broke 1 until from self.new.position (S.contents sink.old) (S.contents sink.new) fault) }
        ensures not_full { IfErr result (λ fault. fault ≡ WriteFault.Workers WorkersFault.CountFull → ⊥) }
        ensures failures { S.failures sink.new ≡ fails_after result (S.failures sink.old) }
    {
        let position = self.position + self.sheaf.len() as u64;
        let Ok(()) = made else {
            return Err(WriteFault::Workers(WorkersFault::NoMemory));
        };
        self.position = position;
        match text.put(sink) {
            Ok(bytes) => Ok(bytes),
            Err(written) => Err(WriteFault::Sink(written)),
        }
    }

    /// Writes the pending text, where that was not done yet, and commits the events of its lines.
    fn settle<S: Sink>(
        &mut self,
        call: &Call<S>,
        writing: &mut Writing<S>,
        sink: &mut S,
    ) -> Result<(), EngineFault>
        requires pending { HasPending S.contents S.failures call.now (record self.old { window = writing.old.window.value }) writing.old sink.old }
        ensures writing { OnOk result (HasWrittenAll S.contents S.failures call.now (record self.new { window = writing.new.window.value }) writing.new.written sink.new) }
        ensures rest { self.new ≡ record self.old { position = self.new.position } }
        ensures same { writing.new ≡ record writing.old { texts = record writing.old.texts { pending_text = writing.new.texts.pending_text }; written = writing.new.written } }
        ensures ended { IfErr result (λ fault. HasEnded call.now.workers.workers call.now.until call.now.began.value self.new (Err fault) (S.contents call.now.known.value) (S.contents sink.new) (S.failures call.now.known.value) (S.failures sink.new)) }
    {
        let put = writing.texts.pending_text.put(&writing.texts.before, sink);
        self.position += writing.texts.pending_text.lines;
        match put {
            Ok(count) => {
                writing.written += count;
                Ok(())
            }
            Err(count) => Err(EngineFault::Sink {
                written: writing.written + count,
            }),
        }
    }

    /// Completes the text of the lines before a window, which is then pending, and ends the window, which workers
    /// have run or the calling thread runs; the sheaf then has its lines. Where the window can't be ended what is
    /// pending is written at once.
    fn go_on<S: Sink>(
        &mut self,
        call: &Call<S>,
        plan: &WindowPlan,
        ran: Result<bool, WorkersFault>,
        writing: &mut Writing<S>,
        sink: &mut S,
    ) -> Result<(), EngineFault>
        requires writing { HasWrittenAll S.contents S.failures call.now (record self.old { window = writing.old.window.value }) writing.old.written sink.old }
        requires is_window { IsWindow writing.old.window.value }
        requires right { AreRight self.old.sheaf writing.old.texts.text.formatters.items }
        requires bound { plan.now.bound ≤ call.now.until }
        requires ran { HasRunBy call.now.workers.workers plan.now.bound writing.old.window.value ran self.old.window }
        ensures owing { OnOk result (AwaitsSink call.now.until call.now.began.value self.new writing.new.texts.pending_text writing.new.written (S.contents call.now.known.value) (S.contents sink.new) (S.failures call.now.known.value) (S.failures sink.new)) }
        ensures some { OnOk result ((time : ℕ) → IsNext plan.now.bound (edge_of writing.old.window.value) time → writing.old.window.value.position < self.new.window.position) }
        ensures ended { IfErr result (λ fault. HasEnded call.now.workers.workers call.now.until call.now.began.value self.new (Err fault) (S.contents call.now.known.value) (S.contents sink.new) (S.failures call.now.known.value) (S.failures sink.new)) }
    {
        let formatters = writing.texts.text.formatters.as_slice();
        let turnout = Turnout::of(self.groups.groups(), formatters);
        let Ok(()) = writing.texts.text.complete(&self.sheaf) else {
            return Err(EngineFault::NoMemory);
        };
        swap(
            &mut writing.texts.text,
            &mut writing.texts.pending_text.text,
        );
        writing.texts.pending_text.lines = self.sheaf.len() as u64;
        writing.texts.pending_text.put = None;
        match finish(
            &call.workers,
            ran,
            plan.bound,
            &writing.window,
            &mut self.window,
            &mut self.sheaf,
        ) {
            Ok(()) => {}
            Err(fault) => {
                self.position += writing.texts.pending_text.lines;
                return match writing.texts.pending_text.text.put(sink) {
                    Ok(_) => Err(engine_fault(fault)),
                    Err(count) => Err(EngineFault::Sink {
                        written: writing.written + count,
                    }),
                };
            }
        }
        let _turned = self.window.position();
        writing.slice = self.slice_after(plan, call.workers.workers);
        self.choose(call.workers.gate.worth(), plan.whole, turnout);
        Ok(())
    }

    /// Makes the text of the lines that are left where windows end, commits their events and writes them.
    fn come_to_rest<S: Sink>(
        &mut self,
        call: &Call<S>,
        writing: &mut Writing<S>,
        sink: &mut S,
    ) -> Result<(), EngineFault>
        requires writing { HasWrittenAll S.contents S.failures call.now self.old writing.old.written sink.old }
        ensures rests { OnOk result (HasRested S.contents S.failures call.now self.new writing.new.written sink.new) }
        ensures rest { self.new ≡ record self.old { position = self.new.position } }
        ensures ended { IfErr result (λ fault. HasEnded call.now.workers.workers call.now.until call.now.began.value self.new (Err fault) (S.contents call.now.known.value) (S.contents sink.new) (S.failures call.now.known.value) (S.failures sink.new)) }
    {
        let _reached = self.window.position();
        let made = writing.texts.text.make_all(&self.sheaf);
        match self.put_made(made, &writing.texts.text, sink) {
            Ok(count) => {
                writing.written += count;
                Ok(())
            }
            Err(fault) => Err(reported(fault, writing.written)),
        }
    }

    /// The same, and the call ends.
    fn end<S: Sink>(
        &mut self,
        stop: Stop,
        call: &Call<S>,
        writing: &mut Writing<S>,
        sink: &mut S,
    ) -> Result<Stop, EngineFault>
        requires writing { HasWrittenAll S.contents S.failures call.now self.old writing.old.written sink.old }
        requires stop { IsStop call.now.until (edge_of self.old.window) stop }
        ensures { HasEnded call.now.workers.workers call.now.until call.now.began.value self.new result (S.contents call.now.known.value) (S.contents sink.new) (S.failures call.now.known.value) (S.failures sink.new) }
    {
        match self.come_to_rest(call, writing, sink) {
            Ok(()) => Ok(stop),
            Err(fault) => Err(fault),
        }
    }

    /// Where events are to be run one after another, writes what is left of windows, and goes on so for a while.
    fn write_singly<S: Sink>(
        &mut self,
        call: &Call<S>,
        writing: &mut Writing<S>,
        sink: &mut S,
    ) -> Result<(), EngineFault>
        requires single { self.old.granularity.single ≡ true }
        requires writing { HasWrittenAll S.contents S.failures call.now self.old writing.old.written sink.old }
        ensures owing { OnOk result (IsOwing call.now.until call.now.began.value self.new [] 0 writing.new.written (S.contents call.now.known.value) (S.contents sink.new)) }
        ensures failures { OnOk result (S.failures sink.new ≡ S.failures call.now.known.value) }
        ensures on { OnOk result (self.old.window.position ≤ self.new.window.position) }
        ensures ended { IfErr result (λ fault. HasEnded call.now.workers.workers call.now.until call.now.began.value self.new (Err fault) (S.contents call.now.known.value) (S.contents sink.new) (S.failures call.now.known.value) (S.failures sink.new)) }
    {
        match self.come_to_rest(call, writing, sink) {
            Ok(()) => {}
            Err(fault) => return Err(fault),
        }
        match self.go_singly(call, &mut writing.written, sink) {
            Ok(()) => {}
            Err(fault) => return Err(fault),
        }
        self.sheaf = Sheaf::new(self.alloc, self.position + 1);
        Ok(())
    }

    /// Ends the call where the text of the window before is pending.
    fn end_owing<S: Sink>(
        &mut self,
        stop: Stop,
        call: &Call<S>,
        writing: &mut Writing<S>,
        sink: &mut S,
    ) -> Result<Stop, EngineFault>
        requires now { writing.old.window.value ≡ self.old.window }
        requires pending { HasPending S.contents S.failures call.now self.old writing.old sink.old }
        requires stop { IsStop call.now.until (edge_of self.old.window) stop }
        ensures { HasEnded call.now.workers.workers call.now.until call.now.began.value self.new result (S.contents call.now.known.value) (S.contents sink.new) (S.failures call.now.known.value) (S.failures sink.new) }
    {
        self.settle(call, writing, sink)?;
        self.end(stop, call, writing, sink)
    }

    /// The same as `write_singly` where the text of the window before is pending: then there is none.
    fn write_singly_owing<S: Sink>(
        &mut self,
        call: &Call<S>,
        writing: &mut Writing<S>,
        sink: &mut S,
    ) -> Result<(), EngineFault>
        requires owing { AwaitsSink call.now.until call.now.began.value self.old writing.old.texts.pending_text writing.old.written (S.contents call.now.known.value) (S.contents sink.old) (S.failures call.now.known.value) (S.failures sink.old) }
        ensures owing { OnOk result (AwaitsSink call.now.until call.now.began.value self.new writing.new.texts.pending_text writing.new.written (S.contents call.now.known.value) (S.contents sink.new) (S.failures call.now.known.value) (S.failures sink.new)) }
        ensures on { OnOk result (self.old.window.position ≤ self.new.window.position) }
        ensures ended { IfErr result (λ fault. HasEnded call.now.workers.workers call.now.until call.now.began.value self.new (Err fault) (S.contents call.now.known.value) (S.contents sink.new) (S.failures call.now.known.value) (S.failures sink.new)) }
    {
        if !self.granularity.is_single() || call.workers.gate.worth() == 0 {
            return Ok(());
        }
        let (before, now) = (Snapshot::of(sink), Snapshot::of(&self.window));
        writing.texts.before = before;
        writing.window = now;
        match self.settle(call, writing, sink) {
            Ok(()) => {}
            Err(fault) => return Err(fault),
        }
        match self.write_singly(call, writing, sink) {
            Ok(()) => {}
            Err(fault) => return Err(fault),
        }
        writing.texts.pending_text.forget();
        Ok(())
    }

    /// Has workers run a window up to its end or the plan's, where threads wait for jobs, and then make the text of the
    /// lines before it; the pending text is written meanwhile. Where no threads wait, or one worker is to run it, the
    /// window is left as it was. After a fault the groups may be out.
    fn share<H: Hands, S: Sink>(
        &mut self,
        team: &Team<H>,
        call: &Call<S>,
        plan: &WindowPlan,
        texts: &mut TextState<S>,
        sink: &mut S,
    ) -> Result<bool, WorkersFault>
        requires workers { plan.now.workers ≤ call.now.workers.workers }
        requires edge { IsAtEdge self.old.window }
        requires few { groups_of self.old.window.entries ≤ 64 }
        requires texts { CanMakeText S.contents S.failures self.old.sheaf texts.old sink.old }
        ensures ran { HasRunBy call.now.workers.workers plan.now.bound self.old.window result self.new.window }
        ensures run_state { self.new ≡ record self.old { window = self.new.window } }
        ensures texts { HasMadeText S.contents S.failures self.old.sheaf texts.old texts.new sink.new }
    {
        match team.pool {
            Some(pool) if plan.workers > 1 => {
                let job = WindowJob {
                    pool,
                    gate: call.workers.gate,
                    alloc: self.alloc,
                    workers: plan.workers,
                    until: plan.bound,
                };
                team.hands
                    .run_shared(&job, &mut self.window, &mut self.sheaf, texts, sink)
            }
            _ => Ok(false),
        }
    }

    /// Has workers run windows, makes the text of each while the next one runs, and writes it while the one after
    /// that begins, until they end, or until threads are to share one and none wait for it.
    fn write_on<H: Hands, S: Sink>(
        &mut self,
        team: &Team<H>,
        call: &Call<S>,
        writing: &mut Writing<S>,
        sink: &mut S,
    ) -> Stage
        requires owing { AwaitsSink call.now.until call.now.began.value self.old writing.old.texts.pending_text writing.old.written (S.contents call.now.known.value) (S.contents sink.old) (S.failures call.now.known.value) (S.failures sink.old) }
        ensures stands { StandsAt call.now.workers.workers call.now.until call.now.began.value self.new writing.new.texts.pending_text writing.new.written (S.contents call.now.known.value) (S.contents sink.new) (S.failures call.now.known.value) (S.failures sink.new) result }
        ensures shared { result ≡ Stage.ToShare → team.entry.now.pool ≡ None }
    {
        loop {
            match self.write_singly_owing(call, writing, sink) {
                Ok(()) => {}
                Err(fault) => return Stage::Ended(Err(fault)),
            }
            let (before, now) = (Snapshot::of(sink), Snapshot::of(&self.window));
            writing.texts.before = before;
            writing.window = now;
            let plan = match self.plan(call.until, writing.slice.max(1), &call.workers) {
                Ok(plan) => plan,
                Err(stop) => return Stage::Ended(self.end_owing(stop, call, writing, sink)),
            };
            if lacks_threads(team.pool, plan.workers) {
                return Stage::ToShare;
            }
            let _reached = self.window.position();
            writing.texts.text.clear(&self.sheaf);
            let ran = self.share(team, call, &plan, &mut writing.texts, sink);
            match self.settle(call, writing, sink) {
                Ok(()) => {}
                Err(fault) => return Stage::Ended(Err(fault)),
            }
            match self.go_on(call, &plan, ran, writing, sink) {
                Ok(()) => {}
                Err(fault) => return Stage::Ended(Err(fault)),
            }
        }
    }

    /// The same with threads that wait for jobs. It goes on to where windows end, and the threads may go then.
    fn write_shared<H: Hands, S: Sink>(
        &mut self,
        by: &H,
        call: &Call<S>,
        pool: &ThreadPool<Job>,
        writing: &mut Writing<S>,
        sink: &mut S,
    ) -> Result<Stop, EngineFault>
        requires owing { AwaitsSink call.now.until call.now.began.value self.old writing.old.texts.pending_text writing.old.written (S.contents call.now.known.value) (S.contents sink.old) (S.failures call.now.known.value) (S.failures sink.old) }
        ensures { HasEnded call.now.workers.workers call.now.until call.now.began.value self.new result (S.contents call.now.known.value) (S.contents sink.new) (S.failures call.now.known.value) (S.failures sink.new) }
    {
        let team = Team {
            hands: by,
            pool: Some(pool),
        };
        match self.write_on(&team, call, writing, sink) {
            Stage::Ended(outcome) => outcome,
            Stage::ToShare => unreachable!(),
        }
    }

    /// Starts the threads that are to share windows, and goes on with them.
    fn write_by_threads<H: Hands, S: Sink>(
        &mut self,
        by: &H,
        call: &Call<S>,
        writing: &mut Writing<S>,
        sink: &mut S,
    ) -> Result<Stop, EngineFault>
        requires ready { H.ready by.now }
        requires owing { AwaitsSink call.now.until call.now.began.value self.old writing.old.texts.pending_text writing.old.written (S.contents call.now.known.value) (S.contents sink.old) (S.failures call.now.known.value) (S.failures sink.old) }
        ensures { HasEnded call.now.workers.workers call.now.until call.now.began.value self.new result (S.contents call.now.known.value) (S.contents sink.new) (S.failures call.now.known.value) (S.failures sink.new) }
    {
        let Ok(pool) = call.workers.pool_for(&self.window) else {
            let (before, now) = (Snapshot::of(sink), Snapshot::of(&self.window));
            writing.texts.before = before;
            writing.window = now;
            self.settle(call, writing, sink)?;
            return Err(EngineFault::NoMemory);
        };
        let pool = &pool;
        by.with_threads(
            call.workers.gate,
            pool,
            &mut || -> Result<Stop, EngineFault>
                requires owing { AwaitsSink call.now.until call.now.began.value self.now writing.now.texts.pending_text writing.now.written (S.contents call.now.known.value) (S.contents sink.now) (S.failures call.now.known.value) (S.failures sink.now) }
                ensures { HasEnded call.entry.now.workers.workers call.entry.now.until call.entry.now.began.value self.exit.now result (S.contents call.entry.now.known.value) (S.contents sink.exit.now) (S.failures call.entry.now.known.value) (S.failures sink.exit.now) }
            { self.write_shared(by, call, pool, writing, sink) },
        )
    }

    /// Has workers run windows, and writes the lines of each while later ones run, up to the run's end or until no
    /// event is left below a moment. Nothing is left to write where they end. Threads are started once a window is
    /// worth it, and stay. Where windows hold few events, or threads come late to them, events are run one after
    /// another for a while.
    pub(crate) fn write_together<H: Hands, S: Sink>(
        &mut self,
        by: &H,
        workers: WindowWorkers,
        until: Time,
        sink: &mut S,
    ) -> Result<Stop, EngineFault>
        requires ready { H.ready by.now }
        requires rest { AtRest self.old }
        requires groups { HasGroups self.old }
        ensures { HasEnded workers.entry.workers until self.old self.new result (S.contents sink.old) (S.contents sink.new) (S.failures sink.old) (S.failures sink.new) }
    {
        let Ok(mut writing) = Writing::new(self.alloc, &self.window, sink) else {
            return Err(EngineFault::NoMemory);
        };
        let (began, known) = (Snapshot::of(self), Snapshot::of(sink));
        let call = Call {
            workers,
            until,
            began,
            known,
        };
        self.sheaf = Sheaf::new(self.alloc, self.position + 1);
        let team = Team {
            hands: by,
            pool: None,
        };
        match self.write_on(&team, &call, &mut writing, sink) {
            Stage::Ended(outcome) => outcome,
            Stage::ToShare => self.write_by_threads(by, &call, &mut writing, sink),
        }
    }
}
