//! A scenario's run by windows, written as its trace.
ghost use Rattle.std.specs.Prelude.{◌≡◌, ◌<◌, ◌≤◌, ℕ, length, is_err, IfErr, IfOk};
ghost use Rattle.table_run.specs.State.{initial};
ghost use Rattle.trace_text.specs.End.{end_bytes};
ghost use Rattle.window_core.specs.Full.{HasTooMany};
ghost use Rattle.window_engine.specs.Engines.{IsStop, sink_failures};
ghost use Rattle.sessions.specs.Ended.{IsRunOutput, writes_after};
ghost use Rattle.sessions.specs.Output.{IsAllOrNothing};
ghost use Rattle.sessions.specs.Worked.{RunsTo, EndsRun};
ghost use Rattle.sessions.specs.Written.{Writes};

use crate::fault::SessionFault;
use crate::means::SessionTools;
use crate::output::put_all;
use crate::progress::{Progress, WHOLE, hundredths};
use command_line::notes::Notes;
use scenario_image::Scenario;
use std::alloc::Global;
use trace_text::end_text;
use window_core::Partition;
use window_engine::{Engine, EngineFault, Hands, Sink, Stop};

/// Runs an engine to a moment by several workers, from one hundredth of it to the next where it is told
/// how far it is.
fn run_by_workers<W: Sink, H: Hands, N: Notes>(
    tools: &SessionTools<H>,
    workers: usize,
    progress: &Progress,
    engine: &mut Engine,
    writer: &mut W,
    notes: &mut N,
) -> Result<Stop, EngineFault>
    requires ready { H.ready tools.now.hands.now }
    requires first { engine.old.net.position ≡ 0 }
    requires workers { (0 < workers) × (workers ≤ 64) }
    ensures runs { RunsTo engine.old.net.state result engine.new.net (W.contents writer.old) (W.contents writer.new) }
    ensures stop { IfOk result (IsStop progress.now.end engine.new.net.state) }
    ensures full { IfErr result (λ fault. fault ≡ EngineFault.CountFull → HasTooMany engine.old.net) }
    ensures failed { engine.new.failed ≡ is_err result }
    ensures failures { W.failures writer.new ≡ sink_failures result (W.failures writer.old) }
{
    let (hands, gate) = (tools.hands, tools.means.gate);
    for percent in progress.first()..WHOLE {
        let moment = hundredths(progress.end, percent);
        let stop = engine.run(hands, workers, gate, moment, writer)?;
        let events = engine.position();
        if stop == Stop::Until {
            progress.say(percent, events, notes);
        }
    }
    engine.run(hands, workers, gate, progress.end, writer)
}

/// Writes the last line of a run of so many events.
fn put_end<W: Sink>(alloc: Global, events: u64, writer: &mut W) -> Result<(), SessionFault>
    ensures output { Writes (IsAllOrNothing (end_bytes events) result) (W.contents writer.old) (W.contents writer.new) }
    ensures failures { W.failures writer.new ≡ writes_after result (W.failures writer.old) }
{
    let mut last = Vec::new(alloc);
    end_text(events, &mut last)?;
    put_all(writer, last.as_slice())?;
    Ok(())
}

/// Writes the last line of a run that came to this, where it came to its end.
fn write_end<W: Sink>(
    alloc: Global,
    ran: Result<Stop, EngineFault>,
    events: u64,
    writer: &mut W,
) -> Result<(), SessionFault>
    ensures ends { EndsRun ran events result (W.contents writer.old) (W.contents writer.new) }
    ensures failures { (n : ℕ) → W.failures writer.old ≡ sink_failures ran n → W.failures writer.new ≡ writes_after result n }
{
    match ran {
        Ok(_stop) => put_end(alloc, events, writer),
        Err(fault) => Err(SessionFault::from(fault)),
    }
}

/// Runs a scenario to its end by windows, and writes its trace. Whatever ends it sooner does so after
/// whole lines, unless it is the writer.
pub(crate) fn run_by_windows<W: Sink, H: Hands, N: Notes>(
    tools: &SessionTools<H>,
    workers: usize,
    scenario: &Scenario,
    partition: Partition,
    writer: &mut W,
    notes: &mut N,
) -> Result<(), SessionFault>
    requires ready { H.ready tools.now.hands.now }
    requires nodes { length partition ≡ length scenario.now.nodes }
    requires workers { (0 < workers) × (workers ≤ 64) }
    ensures output { Writes (IsRunOutput (initial scenario.now) result) (W.contents writer.old) (W.contents writer.new) }
    ensures failures { W.failures writer.new ≡ writes_after result (W.failures writer.old) }
{
    let means = tools.means;
    let mut engine = Engine::new(means.alloc, scenario, partition)?;
    let progress = Progress::new(means.wishes.progress, scenario.parts().end);
    let ran = run_by_workers(tools, workers, &progress, &mut engine, writer, notes);
    let events = engine.position();
    let ended = write_end(means.alloc, ran, events, writer);
    progress.ends(ended.is_ok(), events, notes);
    drop(engine);
    ended
}
