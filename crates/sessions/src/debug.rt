//! A debugging session: the commands behind a scenario text are answered.
ghost use Rattle.sessions.specs.Debug.{IsDebugSession, IsDebugSessionOn};
ghost use Rattle.sessions.specs.Done.{SessionIsDone, written_by};
ghost use Rattle.sessions.specs.Session.{IsWithin, OutcomeTells};
ghost use Rattle.sessions.specs.Streams.{Streams, streams_of};

use crate::fault::SessionFault;
use crate::means::SessionTools;
use crate::outcome::Outcome;
use crate::run::groups_to_debug;
use crate::scenario_input::reported_text;
use crate::session::run_task;
use crate::source::Source;
use command_line::notes::Notes;
use command_line::sharing::Sharing;
use command_line::subcommand::Task;
use prompt_words::split;
use std::alloc::Global;
use std::sync::Wait;
use std::thread::Threads;
use window_engine::{Gate, Hands, Sink};

/// Does a debugging session over an input, where its text has a scenario whose nodes are in the groups:
/// its commands are answered. Moves to a breakpoint and to a moment go by workers.
pub(crate) fn answer_commands<W: Sink, H: Hands, N: Notes>(
    tools: &SessionTools<H>,
    sharing: &Sharing,
    input: &[u8],
    writer: &mut W,
    notes: &mut N,
) -> Result<(), SessionFault>
    requires ready { H.ready tools.now.hands.now }
    requires within { IsWithin input.now }
    ensures { (now : Streams) → let at = written_by W.failures W.contents now in SessionIsDone (IsDebugSession sharing.now.groups input.now) (at writer.old) result (at writer.new) }
{
    let (text, lines) = split(input);
    let scenario = reported_text(tools.means, text, notes)?;
    let partition = groups_to_debug(tools.means, sharing, &scenario, notes)?;
    let answered = debug_session::run_session(
        tools.hands,
        tools.means.gate,
        tools.means.alloc,
        &scenario,
        partition,
        sharing.workers(),
        lines,
        writer,
    );
    drop(scenario);
    match answered {
        Ok(()) => Ok(()),
        Err(fault) => Err(SessionFault::from(fault)),
    }
}

/// A debugging session: writes the answers to the commands on the reader. Moves to a breakpoint and
/// to a moment go by workers.
pub fn run_debug<R: Source, W: Sink, H: Threads + Wait + Sync>(
    rt: &H,
    alloc: Global,
    sharing: &Sharing,
    gate: &Gate,
    reader: &mut R,
    writer: &mut W,
) -> Outcome
    ensures { let seen = streams_of R.failures R.typed W.failures W.contents in OutcomeTells result (λ ended. IsDebugSessionOn sharing.now.groups (R.remaining reader.old) ended (seen reader.old writer.old) (seen reader.new writer.new)) }
{
    let same = Sharing::new(sharing.workers(), sharing.groups());
    run_task(rt, alloc, Task::Debug(same), gate, reader, writer)
}
