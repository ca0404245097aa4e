//! A whole session: a scenario's run, walked through by commands.
ghost use Rattle.std.specs.Prelude.{◌≡◌, ◌<◌, ◌≤◌, length, OnOk, OnErr};
ghost use Rattle.scenario_asm.specs.Lines.{lines_of_text};
ghost use Rattle.table_run.specs.State.{initial};
ghost use Rattle.debugger.specs.Debugging.{debugging_opened};
ghost use Rattle.window_engine.specs.Failures.{failures_after};
ghost use Rattle.debug_session.specs.Taking.{Takes, IsBeginningOf};
ghost use Rattle.debug_session.specs.Answers.{session_state};
ghost use Rattle.debug_session.specs.Sessions as sessions;

use crate::reply::answer;
use crate::said::Said;
use debugger::Debugger;
use prompt_words::Limits;
use prompt_words::cut::cut;
use scenario_image::Scenario;
use std::alloc::Global;
use window_core::Partition;
use window_engine::{Gate, Hands, Sink, SinkFail, put_all};

/// Why a session has no further output.
#[derive(Debug, Drop)]
pub enum DialogueFault {
    /// There was no memory for the initial state.
    NoMemory,
    /// The output failed.
    OutputFailed,
}

/// Answers commands, one a line. The moves `run` and `until` have workers, which the gate is told
/// of.
#[tactic(none)]
pub fn run_commands<H: Hands, S: Sink>(
    hands: &H,
    gate: &Gate,
    debugger: &mut Debugger,
    limits: Limits,
    commands: &[u8],
    said: &mut Said,
    out: &mut S,
) -> Result<(), SinkFail>
    requires ready { H.ready hands.now }
    ensures ok { OnOk result (Takes (sessions.Output limits debugger.old.start (lines_of_text commands.now) (session_state debugger.old)) (S.contents out.old) (S.contents out.new)) }
    ensures err { OnErr result (Takes (IsBeginningOf (sessions.OutputStart limits debugger.old.start (lines_of_text commands.now) (session_state debugger.old))) (S.contents out.old) (S.contents out.new)) }
    ensures failures { S.failures out.new ≡ failures_after result (S.failures out.old) }
{
    let mut rest = commands;
    while !rest.is_empty() {
        let (line, after) = cut(rest, b'\n');
        let answered = answer(hands, gate, debugger, limits, line, said);
        match put_all(out, said.text_of(answered)) {
            Ok(()) => {}
            Err(_) => return Err(SinkFail),
        }
        rest = after;
    }
    Ok(())
}

/// Answers all commands of a session, one a line, by a debugger at the initial state.
fn answer_all<H: Hands, S: Sink>(
    hands: &H,
    gate: &Gate,
    scenario: &Scenario,
    commands: &[u8],
    debugger: &mut Debugger,
    said: &mut Said,
    out: &mut S,
) -> Result<(), DialogueFault>
    requires ready { H.ready hands.now }
    requires opened { debugger.old ≡ debugging_opened (initial scenario.now) debugger.old.workers }
    ensures output { Takes (sessions.IsEnding scenario.now (lines_of_text commands.now) result) (S.contents out.old) (S.contents out.new) }
    ensures failures { S.failures out.new ≡ sessions.failures_of result (S.failures out.old) }
{
    let limits = Limits::of(scenario);
    match run_commands(hands, gate, debugger, limits, commands, said, out) {
        Ok(()) => Ok(()),
        Err(_) => Err(DialogueFault::OutputFailed),
    }
}

/// A whole session over a scenario: its commands are answered, one a line, from the initial state
/// on. A command that is refused for want of memory or workers doesn't end it.
pub fn run_session<H: Hands, S: Sink>(
    hands: &H,
    gate: &Gate,
    alloc: Global,
    scenario: &Scenario,
    partition: Partition,
    workers: usize,
    commands: &[u8],
    out: &mut S,
) -> Result<(), DialogueFault>
    requires ready { H.ready hands.now }
    requires partition { length partition ≡ length scenario.now.nodes }
    requires workers { (0 < workers) × (workers ≤ 64) }
    ensures output { Takes (sessions.IsEnding scenario.now (lines_of_text commands.now) result) (S.contents out.old) (S.contents out.new) }
    ensures failures { S.failures out.new ≡ sessions.failures_of result (S.failures out.old) }
{
    let Ok(mut debugger) = Debugger::new(alloc, scenario, partition, workers) else {
        return Err(DialogueFault::NoMemory);
    };
    let mut said = Said::new(alloc);
    let ended = answer_all(
        hands,
        gate,
        scenario,
        commands,
        &mut debugger,
        &mut said,
        out,
    );
    drop(debugger);
    drop(said);
    ended
}
