//! A scenario's run, written as its trace.
ghost use Rattle.std.specs.Prelude.{◌≡◌, ◌≢◌, ◌⊎◌, ℕ, List, Option, true, false, Err, []};
ghost use Rattle.table_run.specs.State.{State, initial};
ghost use Rattle.net_machine.specs.Run.{Reached};
ghost use Rattle.net_watch.specs.Watched.{IsRunEnd, goes_on};
ghost use Rattle.sessions.specs.Written.{Writes, WritesBefore, IsBeginningOf};
ghost use Rattle.sessions.specs.Trace.{IsTraceOrStart};
ghost use Rattle.sessions.specs.Ended.{IsRunOutput, writes_after};
ghost use Rattle.sessions.specs.Traced.{HasEnded, IsPut, loss_of};

use crate::fault::SessionFault;
use crate::output::{PAGE, put_full_page, put_page};
use crate::progress::{Progress, Telling};
use command_line::notes::Notes;
use command_line::subcommand::Wishes;
use net_machine::{Due, Net, StepFault};
use net_watch::{RunEnd, Watch, run_by_two};
use node_core::{Acts, After, Event, Line};
use scenario_image::Scenario;
use sim_time::Key;
use std::alloc::Global;
use std::snapshot::Snapshot;
use trace_text::Page;
use window_engine::Sink;

/// Runs a scenario to its end, writes its trace, and tells how far it is where that is wished.
/// Memory that is refused and a run of too many events end it after whole lines.
pub fn run_scenario<W: Sink, N: Notes>(
    alloc: Global,
    wishes: Wishes,
    scenario: &Scenario,
    writer: &mut W,
    notes: &mut N,
) -> Result<(), SessionFault>
    ensures output { Writes (IsRunOutput (initial scenario.now) result) (W.contents writer.old) (W.contents writer.new) }
    ensures failures { W.failures writer.new ≡ writes_after result (W.failures writer.old) }
{
    let mut page = Page::new(alloc, PAGE)?;
    let mut net = Net::new(alloc, scenario)?;
    let mut line = unused_line(alloc);
    let mut telling = Telling {
        progress: Progress::new(wishes.progress, net.end()),
        notes,
    };
    run_net(&mut net, &mut line, &mut page, writer, &mut telling)
}

/// A line to be lent to each step. What it shows before the first one is used nowhere.
fn unused_line(alloc: Global) -> Line {
    Line {
        key: Key {
            time: 0,
            node: 0,
            source: 0,
            number: 0,
        },
        event: Event::Start(0),
        after: After::AtRouter,
        acts: Acts::new(alloc),
    }
}

/// Runs a net to its end, and writes all that it made of the trace.
fn run_net<W: Sink, N: Notes>(
    net: &mut Net,
    line: &mut Line,
    page: &mut Page,
    writer: &mut W,
    telling: &mut Telling<'_, N>,
) -> Result<(), SessionFault>
    requires initial { net.old.position ≡ 0 }
    requires empty { page.old ≡ [] }
    ensures output { Writes (IsRunOutput net.old.state result) (W.contents writer.old) (W.contents writer.new) }
    ensures failures { W.failures writer.new ≡ writes_after result (W.failures writer.old) }
{
    let ended = put_lines(net, line, page, writer, telling);
    let (done, events) = (ended.is_ok(), net.position());
    telling.progress.ends(done, events, telling.notes);
    let failed = writer_failed(&ended);
    if failed {
        return ended;
    }
    put_page(page, writer)?;
    ended
}

/// Whether it was the writer that failed.
fn writer_failed(ended: &Result<(), SessionFault>) -> bool
    ensures failed { result ≡ true → ended.now ≡ Err SessionFault.WriteFailed }
    ensures other { result ≡ false → ended.now ≢ Err SessionFault.WriteFailed }
{
    matches!(ended, Err(SessionFault::WriteFailed))
}

/// Who writes a run's trace: its lines go to a page, and from there to a writer.
#[derive(Drop)]
struct Tracing<'a, W> {
    /// Where lines wait.
    page: &'a mut Page,
    /// Where they go.
    writer: &'a mut W,
    /// Of a line that was not put, whether it was memory that was refused; else the writer failed.
    refused: bool,
}

impl<W: Sink> Watch for Tracing<'_, W> {
    ghost use Rattle.std.specs.Prelude.{◌≡◌, [], refl};
    ghost use Rattle.sessions.specs.Traced.{IsPut, none_put};

    ghost has = { λ began from w at goes_on. (w.page.ghost_name ≡ began.page.ghost_name) × (w.writer.ghost_name ≡ began.writer.ghost_name) × (from.position ≡ 0 → began.page.now ≡ [] → IsPut from.state at w.page.now (W.contents began.writer.now) (W.contents w.writer.now) (W.failures began.writer.now) (W.failures w.writer.now) w.refused goes_on) };

    ghost begins = { λ w at. (refl, refl, λ initial empty. none_put at w.page.now (W.contents w.writer.now) (W.failures w.writer.now) w.refused initial empty) };

    #[inline(always)]
    fn ahead(&self, _at: &Net, _next: Option<Due>) -> bool {
        true
    }

    #[inline(always)]
    fn see(&mut self, _before: &Snapshot<Net>, after: &Net, line: &Line) -> bool {
        match self.page.put_line(after.position(), line) {
            Ok(()) => {}
            Err(_) => {
                self.refused = true;
                return false;
            }
        }
        match put_full_page(self.page, self.writer) {
            Ok(()) => true,
            Err(_) => {
                self.refused = false;
                false
            }
        }
    }
}

impl<W: Sink> Tracing<'_, W> {
    /// Puts the last line where a run is done, and answers how it ended.
    fn finish(&mut self, net: &Net, end: Result<RunEnd, StepFault>) -> Result<(), SessionFault>
        ensures same_page { self.new.page.ghost_name ≡ self.old.page.ghost_name }
        ensures same_writer { self.new.writer.ghost_name ≡ self.old.writer.ghost_name }
        ensures ended { (s : State) (from : Reached) (known : Option (List ℕ)) (failed : ℕ) → IsRunEnd (⊥ ⊎ ⊥) from net.now end → IsPut s net.now self.old.page.now known (W.contents self.old.writer.now) failed (W.failures self.old.writer.now) self.old.refused (goes_on end) → HasEnded s self.new.page.now known (W.contents self.new.writer.now) failed (W.failures self.new.writer.now) result }
    {
        match end {
            Ok(RunEnd::Done) => match self.page.put_end(net.position()) {
                Ok(()) => Ok(()),
                Err(_) => Err(SessionFault::NoMemory),
            },
            Ok(RunEnd::Stopped | RunEnd::Held) => Err(self.loss()),
            Err(fault) => Err(fault.into()),
        }
    }

    /// Why a line was not put.
    fn loss(&self) -> SessionFault
        ensures { result ≡ loss_of self.now.refused }
    {
        if self.refused {
            SessionFault::NoMemory
        } else {
            SessionFault::WriteFailed
        }
    }
}

/// Runs a net to its end. What it made of the trace was written, or waits in the page.
fn put_lines<W: Sink, N: Notes>(
    net: &mut Net,
    line: &mut Line,
    page: &mut Page,
    writer: &mut W,
    telling: &mut Telling<'_, N>,
) -> Result<(), SessionFault>
    requires initial { net.old.position ≡ 0 }
    requires empty { page.old ≡ [] }
    ensures made { result ≢ Err SessionFault.WriteFailed → WritesBefore page.new (IsRunOutput net.old.state result) (W.contents writer.old) (W.contents writer.new) }
    ensures failed { result ≡ Err SessionFault.WriteFailed → Writes (IsBeginningOf (IsTraceOrStart net.old.state)) (W.contents writer.old) (W.contents writer.new) }
    ensures failures { W.failures writer.new ≡ writes_after result (W.failures writer.old) }
{
    let mut tracing = Tracing {
        page,
        writer,
        refused: false,
    };
    let end = run_by_two(net, &mut tracing, telling, line);
    tracing.finish(net, end)
}
