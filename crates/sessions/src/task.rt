//! A task: its input is read, and its session done.
ghost use Rattle.std.specs.Prelude.{◌≡◌};
ghost use Rattle.sessions.specs.Done.{IsDebugWith, IsTaskWith, SessionIsDone, written_by};
ghost use Rattle.sessions.specs.Ended.{writes_after};
ghost use Rattle.sessions.specs.Input.{InputHasScenario};
ghost use Rattle.sessions.specs.Named.{IsTaskOver};
ghost use Rattle.sessions.specs.Output.{IsOutput};
ghost use Rattle.sessions.specs.Session.{IsSession, IsWithin};
ghost use Rattle.sessions.specs.Streams.{Streams, streams_of};
ghost use Rattle.sessions.specs.Written.{Writes};

use crate::conversion::{put_image, put_text};
use crate::debug::answer_commands;
use crate::fault::SessionFault;
use crate::figures_output::put_figures;
use crate::input::read_named;
use crate::means::SessionTools;
use crate::prompt::answer_prompt;
use crate::run::put_trace;
use crate::scenario_input::reported_scenario;
use crate::source::Source;
use crate::why::tell_unread;
use command_line::notes::Notes;
use command_line::sharing::Sharing;
use command_line::subcommand::{Subcommand, Task};
use scenario_image::Scenario;
use std::sync::Wait;
use std::thread::Threads;
use window_engine::{Alone, Hands, Several, Sink};

/// Writes what a subcommand makes of an input's scenario.
fn put_output<W: Sink, H: Hands, N: Notes>(
    tools: &SessionTools<H>,
    subcommand: Subcommand,
    input: &[u8],
    scenario: &Scenario,
    writer: &mut W,
    notes: &mut N,
) -> Result<(), SessionFault>
    requires ready { H.ready tools.now.hands.now }
    requires scenario { InputHasScenario input.now scenario.now }
    ensures output { Writes (IsOutput subcommand.entry input.now scenario.now result) (W.contents writer.old) (W.contents writer.new) }
    ensures failures { W.failures writer.new ≡ writes_after result (W.failures writer.old) }
{
    match subcommand {
        Subcommand::Asm => put_image(tools.means.alloc, scenario, writer),
        Subcommand::Dis => put_text(tools.means.alloc, scenario, writer),
        Subcommand::Run(sharing) => put_trace(tools, &sharing, scenario, writer, notes),
        Subcommand::Figures(counting) => {
            put_figures(tools.means, &counting, input, scenario, writer, notes)
        }
    }
}

/// Writes what a subcommand makes of an input that was read, where this has a scenario.
fn put_session<W: Sink, H: Hands, N: Notes>(
    tools: &SessionTools<H>,
    subcommand: Subcommand,
    input: &[u8],
    writer: &mut W,
    notes: &mut N,
) -> Result<(), SessionFault>
    requires ready { H.ready tools.now.hands.now }
    requires within { IsWithin input.now }
    ensures { (now : Streams) → let at = written_by W.failures W.contents now in SessionIsDone (IsSession subcommand.entry input.now) (at writer.old) result (at writer.new) }
{
    let scenario = reported_scenario(tools.means, input, notes)?;
    put_output(tools, subcommand, input, &scenario, writer, notes)
}

/// The same by one worker or several. One is the calling thread, which may not wait, so this returns then.
fn put_shared_session<W: Sink, T: Threads + Wait + Sync, N: Notes>(
    tools: &SessionTools<Several<T>>,
    subcommand: Subcommand,
    input: &[u8],
    writer: &mut W,
    notes: &mut N,
) -> Result<(), SessionFault>
    requires within { IsWithin input.now }
    ensures { (now : Streams) → let at = written_by W.failures W.contents now in SessionIsDone (IsSession subcommand.entry input.now) (at writer.old) result (at writer.new) }
{
    if let Subcommand::Run(sharing) = &subcommand
        && sharing.workers() > 1
    {
        return put_session(tools, subcommand, input, writer, notes);
    }
    let alone = SessionTools {
        means: tools.means,
        hands: &Alone,
    };
    put_session(&alone, subcommand, input, writer, notes)
}

/// Does a debugging session over an input that was read: of a file commands are typed, and in any
/// other they stand behind a text.
fn answer_debug<R: Source, W: Sink, T: Threads + Wait + Sync, N: Notes>(
    tools: &SessionTools<Several<T>>,
    sharing: &Sharing,
    input: &[u8],
    reader: &mut R,
    writer: &mut W,
    notes: &mut N,
) -> Result<(), SessionFault>
    requires { IsWithin input.now }
    ensures { let seen = streams_of R.failures R.typed W.failures W.contents in IsDebugWith sharing.now.groups tools.now.means.now.file input.now (seen reader.old writer.old) result (seen reader.new writer.new) }
{
    match tools.means.file.get() {
        Some(_) => answer_prompt(tools, sharing, input, reader, writer, notes),
        None if sharing.workers() > 1 => answer_commands(tools, sharing, input, writer, notes),
        None => {
            let alone = SessionTools {
                means: tools.means,
                hands: &Alone,
            };
            answer_commands(&alone, sharing, input, writer, notes)
        }
    }
}

/// Does a task over an input that was read.
fn answer_task<R: Source, W: Sink, T: Threads + Wait + Sync, N: Notes>(
    tools: &SessionTools<Several<T>>,
    task: Task,
    input: &[u8],
    reader: &mut R,
    writer: &mut W,
    notes: &mut N,
) -> Result<(), SessionFault>
    requires { IsWithin input.now }
    ensures { let seen = streams_of R.failures R.typed W.failures W.contents in IsTaskWith task.entry tools.now.means.now.file input.now (seen reader.old writer.old) result (seen reader.new writer.new) }
{
    match task {
        Task::Scenario(subcommand) => put_shared_session(tools, subcommand, input, writer, notes),
        Task::Debug(sharing) => answer_debug(tools, &sharing, input, reader, writer, notes),
    }
}

/// Does a task over its file, or over the reader where none is named.
pub(crate) fn answer_named<R: Source, W: Sink, T: Threads + Wait + Sync, N: Notes>(
    tools: &SessionTools<Several<T>>,
    task: Task,
    reader: &mut R,
    writer: &mut W,
    notes: &mut N,
) -> Result<(), SessionFault>
    ensures { let seen = streams_of R.failures R.typed W.failures W.contents in IsTaskOver task.entry tools.now.means.now.file (R.remaining reader.old) (R.bytes_of reader.old) result (seen reader.old writer.old) (seen reader.new writer.new) }
{
    let read = read_named(tools.means.alloc, &tools.means.file, reader);
    if let Err(fault) = &read {
        tell_unread(tools.means, fault, reader.last_error(), notes);
    }
    let input = read?;
    answer_task(tools, task, input.as_slice(), reader, writer, notes)
}
