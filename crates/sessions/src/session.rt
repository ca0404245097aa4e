//! A session: from the words and the input to the output, the status and the note.
ghost use Rattle.std.specs.Prelude.{◌≡◌, ◌≢◌, [], map, Err};
ghost use Rattle.clap.specs.Values.{kind_of};
ghost use Rattle.clap.specs.declared.error.kind.ErrorKind.TheVariants.{OutOfMemory};
ghost use Rattle.command_line.specs.declared.subcommand.Asked.{Asked};
ghost use Rattle.sessions.specs.Asked.{IsAskedOn};
ghost use Rattle.command_line.specs.CommandLine.{word_faults, AskFor, AreMistaken, AskForText, IsRequest};
ghost use Rattle.sessions.specs.Answered.{IsRefusal, IsAnswer};
ghost use Rattle.sessions.specs.Debug.{IsTaskOn};
ghost use Rattle.sessions.specs.Ended.{writes_after};
ghost use Rattle.sessions.specs.Session.{IsSessionOn, OutcomeTells};
ghost use Rattle.sessions.specs.Streams.{streams_of};
ghost use Rattle.sessions.specs.Written.{Writes};

use crate::explain::explain;
use crate::fault::SessionFault;
use crate::input::named_file;
use crate::means::{Means, SessionTools};
use crate::mistake::tell_mistake;
use crate::outcome::Outcome;
use crate::output::put_all;
use crate::source::Source;
use crate::task::answer_named;
use clap::error::ErrorKind;
use command_line::notes::{NoNotes, Notes};
use command_line::subcommand::{Asked, OptionalWord, Subcommand, Task, Wishes};
use command_line::words::read_words;
use std::alloc::Global;
use std::convert::AsStr;
use std::sync::Wait;
use std::thread::Threads;
use window_engine::{Gate, Several, Sink};

/// Tells that standard input is awaited for a task, where the words name no file.
fn tell_awaited<N: Notes>(task: &Task, word: &OptionalWord, notes: &mut N) {
    if word.get().is_none() {
        notes.input_is_awaited(task);
    }
}

/// What the words wish, with what the notes ask for beside it.
fn wishes_with<N: Notes>(wishes: Wishes, notes: &N) -> Wishes {
    Wishes {
        progress: wishes.progress,
        explain: wishes.explain || notes.explains(),
    }
}

/// Does what the words ask for.
fn answer_asked<R: Source, W: Sink, H: AllocGlobal + Threads + Wait + Sync, N: Notes>(
    rt: &H,
    gate: &Gate,
    asked: Asked,
    reader: &mut R,
    writer: &mut W,
    notes: &mut N,
) -> Result<(), SessionFault>
    ensures { let seen = streams_of R.failures R.typed W.failures W.contents in IsAskedOn asked.entry (R.remaining reader.old) (R.bytes_of reader.old) result (seen reader.old writer.old) (seen reader.new writer.new) }
{
    match asked {
        Asked::Session(task, word, wishes) => {
            tell_awaited(&task, &word, notes);
            let means = Means {
                alloc: rt.alloc(),
                gate,
                wishes: wishes_with(wishes, notes),
                file: named_file(&word),
            };
            let hands = Several { rt };
            let tools = SessionTools {
                means: &means,
                hands: &hands,
            };
            answer_named(&tools, task, reader, writer, notes)
        }
        Asked::Explanation(code) => explain(rt.alloc(), &code, writer),
    }
}

/// The session of a subcommand: writes what it makes of the input on the reader.
pub fn run_session<R: Source, W: Sink, H: Threads + Wait + Sync>(
    rt: &H,
    alloc: Global,
    subcommand: Subcommand,
    gate: &Gate,
    reader: &mut R,
    writer: &mut W,
) -> Outcome
    ensures { let seen = streams_of R.failures R.typed W.failures W.contents in OutcomeTells result (λ ended. IsSessionOn subcommand.entry (R.remaining reader.old) ended (seen reader.old writer.old) (seen reader.new writer.new)) }
{
    run_task(rt, alloc, Task::Scenario(subcommand), gate, reader, writer)
}

/// The session of a task.
pub fn run_task<R: Source, W: Sink, H: Threads + Wait + Sync>(
    rt: &H,
    alloc: Global,
    task: Task,
    gate: &Gate,
    reader: &mut R,
    writer: &mut W,
) -> Outcome
    ensures { let seen = streams_of R.failures R.typed W.failures W.contents in OutcomeTells result (λ ended. IsTaskOn task.entry (R.remaining reader.old) ended (seen reader.old writer.old) (seen reader.new writer.new)) }
{
    let means = Means {
        alloc,
        gate,
        wishes: Wishes::NONE,
        file: OptionalWord::new(None),
    };
    let hands = Several { rt };
    let tools = SessionTools {
        means: &means,
        hands: &hands,
    };
    Outcome::from(answer_named(&tools, task, reader, writer, &mut NoNotes))
}

/// Writes what the command line asks to be shown.
fn show_text<W: Sink>(alloc: Global, error: clap::Error, writer: &mut W) -> Result<(), SessionFault>
    ensures answer { Writes (IsAnswer result) (W.contents writer.old) (W.contents writer.new) }
    ensures failures { W.failures writer.new ≡ writes_after result (W.failures writer.old) }
{
    let text = error.to_string(alloc)?;
    put_all(writer, text.as_bytes())?;
    Ok(())
}

/// Writes what the command line asks to be shown, or has the mistake in it.
fn answer_words<W: Sink>(
    alloc: Global,
    error: clap::Error,
    writer: &mut W,
) -> Result<(), SessionFault>
    ensures no_memory { kind_of error ≡ OutOfMemory → (result ≡ Err SessionFault.NoMemory) × (writer.new ≡ writer.old) }
    ensures mistake { kind_of error ≢ OutOfMemory → ¬ IsRequest (kind_of error) → (result ≡ Err (SessionFault.CommandLine error)) × (writer.new ≡ writer.old) }
    ensures answer { IsRequest (kind_of error) → Writes (IsAnswer result) (W.contents writer.old) (W.contents writer.new) }
    ensures failures { IsRequest (kind_of error) → W.failures writer.new ≡ writes_after result (W.failures writer.old) }
{
    match error.kind() {
        ErrorKind::DisplayHelp | ErrorKind::DisplayVersion => show_text(alloc, error, writer),
        ErrorKind::OutOfMemory => Err(SessionFault::NoMemory),
        _ => Err(SessionFault::CommandLine(error)),
    }
}

/// A whole session. The words are the command line's, the program's name first; the gate is told
/// of the workers, and the notes of how far a run is where that is wished.
pub fn run_noted<H: AllocGlobal + Threads + Wait + Sync, R: Source, W: Sink, S: AsStr, N: Notes>(
    rt: &H,
    reader: &mut R,
    writer: &mut W,
    words: &[S],
    gate: &Gate,
    notes: &mut N,
) -> Outcome
    ensures asked { let seen = streams_of R.failures R.typed W.failures W.contents in (asked : Asked) → AskFor (map S.text words.now) asked → OutcomeTells result (λ ended. IsAskedOn asked (R.remaining reader.old) (R.bytes_of reader.old) ended (seen reader.old writer.old) (seen reader.new writer.new)) }
    ensures mistake { AreMistaken (map S.text words.now) → OutcomeTells result (IsRefusal (map S.text words.now)) × (writer.new ≡ writer.old) }
    ensures request { AskForText (map S.text words.now) → OutcomeTells result (λ ended. Writes (IsAnswer ended) (W.contents writer.old) (W.contents writer.new) × (W.failures writer.new ≡ writes_after ended (W.failures writer.old))) }
    ensures unread { word_faults (map S.text words.now) ≢ [] → reader.new ≡ reader.old }
{
    match read_words(rt.alloc(), words) {
        Ok(asked) => Outcome::from(answer_asked(rt, gate, asked, reader, writer, notes)),
        Err(error) => {
            tell_mistake(rt.alloc(), words, error.kind(), notes);
            Outcome::from(answer_words(rt.alloc(), error, writer))
        }
    }
}

/// A whole session. The words are the command line's, the program's name first; the gate is told
/// of the workers, and nobody of how far a run is.
pub fn run_with<H: AllocGlobal + Threads + Wait + Sync, R: Source, W: Sink, S: AsStr>(
    rt: &H,
    reader: &mut R,
    writer: &mut W,
    words: &[S],
    gate: &Gate,
) -> Outcome
    ensures asked { let seen = streams_of R.failures R.typed W.failures W.contents in (asked : Asked) → AskFor (map S.text words.now) asked → OutcomeTells result (λ ended. IsAskedOn asked (R.remaining reader.old) (R.bytes_of reader.old) ended (seen reader.old writer.old) (seen reader.new writer.new)) }
    ensures mistake { AreMistaken (map S.text words.now) → OutcomeTells result (IsRefusal (map S.text words.now)) × (writer.new ≡ writer.old) }
    ensures request { AskForText (map S.text words.now) → OutcomeTells result (λ ended. Writes (IsAnswer ended) (W.contents writer.old) (W.contents writer.new) × (W.failures writer.new ≡ writes_after ended (W.failures writer.old))) }
    ensures unread { word_faults (map S.text words.now) ≢ [] → reader.new ≡ reader.old }
{
    run_noted(rt, reader, writer, words, gate, &mut NoNotes)
}

/// A whole session, with workers that nobody is told of.
pub fn run_all<H: AllocGlobal + Threads + Wait + Sync, R: Source, W: Sink, S: AsStr>(
    rt: &H,
    reader: &mut R,
    writer: &mut W,
    words: &[S],
) -> Outcome
    ensures asked { let seen = streams_of R.failures R.typed W.failures W.contents in (asked : Asked) → AskFor (map S.text words.now) asked → OutcomeTells result (λ ended. IsAskedOn asked (R.remaining reader.old) (R.bytes_of reader.old) ended (seen reader.old writer.old) (seen reader.new writer.new)) }
    ensures mistake { AreMistaken (map S.text words.now) → OutcomeTells result (IsRefusal (map S.text words.now)) × (writer.new ≡ writer.old) }
    ensures request { AskForText (map S.text words.now) → OutcomeTells result (λ ended. Writes (IsAnswer ended) (W.contents writer.old) (W.contents writer.new) × (W.failures writer.new ≡ writes_after ended (W.failures writer.old))) }
    ensures unread { word_faults (map S.text words.now) ≢ [] → reader.new ≡ reader.old }
{
    run_with(rt, reader, writer, words, &Gate::open())
}
