//! Events one after another on the calling thread, by the net itself: no line is kept, and each is written into the
//! text right behind its event. A run goes on so for a while where windows hold few events, or threads come late to
//! them.
ghost use Rattle.std.specs.Prelude.{◌≡◌, ◌<◌, ◌≤◌, [], IfOk, IfErr, OnOk};
ghost use Rattle.window_core.specs.Full.{HasTooMany};
ghost use Rattle.window_engine.specs.Calls.{HasRested};
ghost use Rattle.window_engine.specs.RunStates.{Broke, HasEnded, Wrote, fails_after};
ghost use Rattle.window_workers.specs.Edges.{IsAtEdge, reached_in};
ghost use Rattle.window_workers.specs.WindowOutcomes.{IsWorkersFault};
ghost use Rattle.window_engine.specs.Singly.{HasGone, IsOn};

use crate::call::Call;
use crate::fault::EngineFault;
use crate::run_state::{RunState, WriteFault, reported, split};
use net_machine::{Due, Net, StepFault};
use net_watch::{Watch, run_watched};
use node_core::Line;
use sim_time::Time;
use std::alloc::{AllocError, Global};
use std::snapshot::Snapshot;
use trace_text::Page;
use window_core::Window;
use window_text::{LINE_BYTES, Sink, put_all};
use window_workers::WorkersFault;

/// After so many events their text is written, once those of the same moment are run too.
const AT_ONCE: usize = 1_024;

/// A net that goes on one event at a time, and memory for what it tells.
#[derive(Drop)]
struct Single {
    /// The net.
    net: Net,
    /// The line of the last event.
    line: Line,
    /// The text of the last events.
    page: Page,
}

impl Single {
    /// The net where windows ended, with memory for what it tells.
    fn new(alloc: Global, window: &Window) -> Result<Single, AllocError>
        requires { IsAtEdge window.now }
        ensures { IfOk result (λ single. single.net ≡ reached_in window.now) }
    {
        let _reached = window.position();
        let page = Page::new(alloc, AT_ONCE.saturating_mul(LINE_BYTES))?;
        Ok(Single {
            net: window.edge()?,
            line: Line::new(alloc),
            page,
        })
    }
}

/// Who has the text of a net's next events on a page: of those before a moment, about so many as are written at once, or
/// those that are left. It ends the run behind the last event of some moment.
#[derive(Drop)]
struct Paging<'a> {
    /// Their text.
    page: &'a mut Page,
    /// Before which moment they are, in nanoseconds.
    until: Time,
    /// Whether that is sooner than the run's end.
    sooner: bool,
    /// From which position on only events of the last one's moment are run.
    enough: u64,
    /// When the last one was, in nanoseconds.
    last: Time,
    /// Whether memory was refused for the text of the last one.
    refused: bool,
}

impl Watch for Paging<'_> {
    ghost use Rattle.std.specs.Prelude.{◌≡◌, ◌≤◌, [], false, refl};
    ghost use Rattle.window_engine.specs.Singly.{CanStop, IsBefore, IsPaged, going_none};

    ghost fits = { λ w at. (w.until ≤ at.state.end) × (w.sooner ≡ false → at.state.end ≤ w.until) };

    ghost has = { λ began from w at goes_on. (w.page.ghost_name ≡ began.page.ghost_name) × (w.until ≡ began.until) × (w.sooner ≡ began.sooner) × (began.page.now ≡ [] → began.refused ≡ false → IsPaged goes_on began.until w.last from at w.page.now w.refused) };

    ghost begins = { λ w at. (refl, refl, refl, λ empty none. (none, going_none w.until w.last at w.page.now empty)) };

    ghost goes = { λ w at. IsBefore w.until at.state };

    ghost halts = { λ w at. CanStop w.until w.last at.state };

    #[inline(always)]
    fn ahead(&self, at: &Net, next: Option<Due>) -> bool {
        let many = at.position() >= self.enough;
        if !self.sooner && !many {
            return true;
        }
        let Some(next) = next else {
            return false;
        };
        if next.time >= self.until {
            return false;
        }
        if many && next.time > self.last {
            return false;
        }
        true
    }

    #[inline(always)]
    fn see(&mut self, _before: &Snapshot<Net>, after: &Net, line: &Line) -> bool {
        let position = after.position();
        match self.page.put_line(position, line) {
            Ok(()) => {
                self.last = self.last.max(line.key.time);
                true
            }
            Err(_) => {
                self.refused = true;
                false
            }
        }
    }
}

/// Runs events of a net that are before a moment, in nanoseconds, one after another, and has their text on an empty page:
/// about so many as are written at once, or those that are left. It ends behind the last event of some moment.
fn run_some(
    net: &mut Net,
    line: &mut Line,
    page: &mut Page,
    until: Time,
) -> Result<(), WorkersFault>
    requires empty { page.old ≡ [] }
    requires until { until ≤ net.old.state.end }
    ensures gone { OnOk result (HasGone until net.old net.new page.new) }
    ensures fault { IfErr result (IsWorkersFault 1 (HasTooMany net.old)) }
{
    let enough = net.position().saturating_add(AT_ONCE as u64);
    let sooner = until < net.end();
    let mut paging = Paging {
        page,
        until,
        sooner,
        enough,
        last: 0,
        refused: false,
    };
    match run_watched(net, &mut paging, line) {
        Ok(_) if paging.refused => Err(WorkersFault::NoMemory),
        Ok(_) => Ok(()),
        Err(StepFault::CountFull) => Err(WorkersFault::CountFull),
        Err(StepFault::NoMemory) => Err(WorkersFault::NoMemory),
    }
}

impl RunState {
    /// Runs some events of a net that has gone on from where windows ended, commits them and writes their text. The answer
    /// is how many bytes went out.
    fn write_some<S: Sink>(
        &mut self,
        single: &mut Single,
        until: Time,
        sink: &mut S,
    ) -> Result<u128, WriteFault>
        requires until { until ≤ single.old.net.state.end }
        requires committed { self.old.position ≡ single.old.net.position }
        ensures wrote { IfOk result (λ bytes. Wrote until single.old.net single.new.net bytes (S.contents sink.old) (S.contents sink.new)) }
        ensures committed { OnOk result (self.new.position ≡ single.new.net.position) }
        ensures rest { self.new ≡ record self.old { position = self.new.position } }
        ensures broke { IfErr result (Broke 1 until single.old.net self.new.position (S.contents sink.old) (S.contents sink.new)) }
        ensures full { IfErr result (λ fault. fault ≡ WriteFault.Workers WorkersFault.CountFull → HasTooMany single.old.net) }
        ensures failures { S.failures sink.new ≡ fails_after result (S.failures sink.old) }
    {
        single.page.clear();
        match run_some(&mut single.net, &mut single.line, &mut single.page, until) {
            Ok(()) => {}
            Err(fault) => return Err(WriteFault::Workers(fault)),
        }
        self.position = single.net.position();
        let text = single.page.as_slice();
        match put_all(sink, text) {
            Ok(()) => Ok(text.len() as u128),
            Err(count) => Err(WriteFault::Sink(count as u128)),
        }
    }

    /// Runs events of a net that is where windows ended, commits them and writes their text: as many as the granularity
    /// says, or until none is left below a moment.
    fn run_singly<S: Sink>(
        &mut self,
        call: &Call<S>,
        single: &mut Single,
        written: &mut u128,
        sink: &mut S,
    ) -> Result<(), EngineFault>
        requires rests { HasRested S.contents S.failures call.now self.old written.old sink.old }
        requires net { single.old.net ≡ reached_in self.old.window }
        ensures on { OnOk result (IsOn call.now.until self.old self.new single.new.net written.old written.new (S.contents sink.old) (S.contents sink.new)) }
        ensures failures { OnOk result (S.failures sink.new ≡ S.failures sink.old) }
        ensures ended { IfErr result (λ fault. HasEnded call.now.workers.workers call.now.until call.now.began.value self.new (Err fault) (S.contents call.now.known.value) (S.contents sink.new) (S.failures call.now.known.value) (S.failures sink.new)) }
    {
        let bound = call.until.min(self.end);
        let mut more = true;
        while more && self.granularity.is_single() {
            let before = self.position;
            let put = self.write_some(single, bound, sink);
            let _reached = single.net.position();
            match put {
                Ok(count) => *written += count,
                Err(fault) => return Err(reported(fault, *written)),
            }
            more = self.position != before;
            self.granularity.count_singly(self.position - before);
        }
        Ok(())
    }

    /// Goes on one event at a time from where windows ended, for as many events as the granularity says or until none
    /// is left below a moment; then the net is by groups again. Where memory for the net as one is refused, windows go
    /// on at once; where it is refused for the groups, the call ends by that.
    pub(crate) fn go_singly<S: Sink>(
        &mut self,
        call: &Call<S>,
        written: &mut u128,
        sink: &mut S,
    ) -> Result<(), EngineFault>
        requires rests { HasRested S.contents S.failures call.now self.old written.old sink.old }
        ensures rests { OnOk result (HasRested S.contents S.failures call.now self.new written.new sink.new) }
        ensures on { OnOk result (self.old.window.position ≤ self.new.window.position) }
        ensures ended { IfErr result (λ fault. HasEnded call.now.workers.workers call.now.until call.now.began.value self.new (Err fault) (S.contents call.now.known.value) (S.contents sink.new) (S.failures call.now.known.value) (S.failures sink.new)) }
    {
        let Ok(mut single) = Single::new(self.alloc, &self.window) else {
            self.granularity.go_by_windows();
            return Ok(());
        };
        match self.run_singly(call, &mut single, written, sink) {
            Ok(()) => {}
            Err(fault) => return Err(fault),
        }
        let Ok(window) = split(self.alloc, single.net, &self.groups) else {
            return Err(EngineFault::NoMemory);
        };
        self.window = window;
        Ok(())
    }
}
