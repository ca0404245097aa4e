//! A debugging session at a prompt: the scenario is a file's, and commands are typed, one a line.
ghost use Rattle.std.specs.Prelude.{◌≡◌, ◌<◌, ◌≤◌, [], length, IfOk, IfErr, OnOk, OnErr};
ghost use Rattle.std.specs.Io.KnownBytes.{Appends};
ghost use Rattle.table_run.specs.State.{initial};
ghost use Rattle.debugger.specs.Debugging.{debugging_opened};
ghost use Rattle.prompt_words.specs.Memos.{no_memo};
ghost use Rattle.prompt_words.specs.Refusals.{answer_of, by_code};
ghost use Rattle.debug_session.specs.Prompt.{at_prompt, answer_out};
ghost use Rattle.sessions.specs.Done.{IsPromptDone, IsPromptOpened, IsRefused};
ghost use Rattle.sessions.specs.Ended.{writes_after, reads_after};
ghost use Rattle.sessions.specs.Prompt.{IsTypedSession};
ghost use Rattle.sessions.specs.Session.{IsWithin};
ghost use Rattle.sessions.specs.Streams.{streams_of};
ghost use Rattle.sessions.specs.Turns.{IsTurn};
ghost use Rattle.sessions.specs.Written.{Writes, IsBeginningOf};
ghost use Rattle.window_engine.specs.Failures.{failures_after};

use crate::fault::SessionFault;
use crate::means::{Means, SessionTools};
use crate::naming::naming_of;
use crate::output::put_all;
use crate::refused_line::tell_refused;
use crate::run::groups_to_debug;
use crate::scenario_input::reported_scenario;
use crate::source::Source;
use command_line::notes::Notes;
use command_line::sharing::Sharing;
use debug_session::{Dialogue, Said, answer_typed};
use debugger::Debugger;
use prompt_words::{MOST_LINE, Naming, Refused, is_quit};
use scenario_image::Scenario;
use std::alloc::{AllocError, Global};
use std::sync::Wait;
use std::thread::Threads;
use window_core::Partition;
use window_engine::{Alone, Hands, Several, Sink, SinkFail};

/// What came of asking for a line.
#[derive(Clone, Copy)]
pub(crate) enum Turn {
    /// It was answered.
    Answered,
    /// It ends the session.
    Quit,
    /// There was none.
    NoLine,
}

/// A prompt, over the scenario that it was opened for.
#[derive(Drop)]
pub(crate) struct Prompt {
    /// Who is asked, and what was asked for last.
    pub dialogue: Dialogue,
    /// How the scenario's nodes, links and flows are called.
    pub naming: Naming,
    /// The answer to a line.
    pub said: Said,
}

/// Puts out the answer to a line; that the line is refused is told beside it.
fn put_answer<W: Sink, N: Notes>(
    alloc: Global,
    prompt: &Prompt,
    line: &[u8],
    answered: Result<(), Refused<'_>>,
    writer: &mut W,
    notes: &mut N,
) -> Result<(), SinkFail>
    ensures ok { OnOk result (Appends (W.contents writer.old) (W.contents writer.new) (answer_out (answer_of (by_code answered.entry) prompt.now.said))) }
    ensures err { OnErr result (Writes (IsBeginningOf (λ all. all ≡ answer_out (answer_of (by_code answered.entry) prompt.now.said))) (W.contents writer.old) (W.contents writer.new)) }
    ensures failures { W.failures writer.new ≡ failures_after result (W.failures writer.old) }
{
    match answered {
        Ok(()) => put_all(writer, prompt.said.as_slice()),
        Err(why) => {
            tell_refused(alloc, &prompt.naming, line, &why, notes);
            Ok(())
        }
    }
}

/// Asks for a line, and answers it.
fn take_turn<R: Source, W: Sink, H: Hands, N: Notes>(
    tools: &SessionTools<H>,
    prompt: &mut Prompt,
    room: &mut [u8],
    reader: &mut R,
    writer: &mut W,
    notes: &mut N,
) -> Result<Turn, SessionFault>
    requires ready { H.ready tools.now.hands.now }
    requires room { 65536 < length room.old }
    ensures room { length room.new ≡ length room.old }
    ensures turn { let seen = streams_of R.failures R.typed W.failures W.contents in IsTurn prompt.old.naming prompt.old.dialogue.debugger.start (at_prompt prompt.old.dialogue) (at_prompt prompt.new.dialogue) result (seen reader.old writer.old) (seen reader.new writer.new) }
    ensures start { prompt.new.dialogue.debugger.start ≡ prompt.old.dialogue.debugger.start }
    ensures naming { prompt.new.naming ≡ prompt.old.naming }
    ensures reads { R.failures reader.new ≡ reads_after result (R.failures reader.old) }
    ensures writes { W.failures writer.new ≡ writes_after result (W.failures writer.old) }
{
    notes.prompt();
    let Some(count) = reader.next_line(writer, room)? else {
        return Ok(Turn::NoLine);
    };
    let line = &room[..count];
    if is_quit(line) {
        return Ok(Turn::Quit);
    }
    let answered = answer_typed(
        tools.hands,
        tools.means.gate,
        &mut prompt.dialogue,
        &prompt.naming,
        line,
        &mut prompt.said,
    );
    put_answer(tools.means.alloc, prompt, line, answered, writer, notes)?;
    Ok(Turn::Answered)
}

/// Answers the lines that are typed, each before the next one is asked for.
#[tactic(none)]
fn answer_lines<R: Source, W: Sink, H: Hands, T: Wait, N: Notes>(
    rt: &T,
    tools: &SessionTools<H>,
    prompt: &mut Prompt,
    room: &mut [u8],
    reader: &mut R,
    writer: &mut W,
    notes: &mut N,
) -> Result<(), SessionFault>
    requires ready { H.ready tools.now.hands.now }
    requires room { 65536 < length room.old }
    ensures session { let seen = streams_of R.failures R.typed W.failures W.contents in IsTypedSession prompt.old.naming prompt.old.dialogue.debugger.start (at_prompt prompt.old.dialogue) result (seen reader.old writer.old) (seen reader.new writer.new) }
    ensures reads { R.failures reader.new ≡ reads_after result (R.failures reader.old) }
    ensures writes { W.failures writer.new ≡ writes_after result (W.failures writer.old) }
{
    for _ in rt.forever() {
        match take_turn(tools, prompt, room, reader, writer, notes)? {
            Turn::Answered => {}
            Turn::Quit => return Ok(()),
            Turn::NoLine => return Ok(()),
        }
    }
    unreachable!()
}

/// Room for a line, and for one byte more than it may have.
fn room_for_line(alloc: Global) -> Result<Vec<u8>, AllocError>
    ensures { IfOk result (λ room. 65536 < length room.items) }
{
    vec![in alloc; 0; MOST_LINE + 1]
}

/// Opens a prompt over a scenario whose nodes, links and flows are called so.
fn open_prompt(
    alloc: Global,
    workers: usize,
    scenario: &Scenario,
    partition: Partition,
    naming: Naming,
) -> Result<Prompt, AllocError>
    requires partition { length partition ≡ length scenario.now.nodes }
    requires workers { (0 < workers) × (workers ≤ 64) }
    ensures debugger { IfOk result (λ prompt. prompt.dialogue.debugger ≡ debugging_opened (initial scenario.now) workers) }
    ensures memo { IfOk result (λ prompt. prompt.dialogue.memo ≡ no_memo) }
    ensures displays { IfOk result (λ prompt. prompt.dialogue.displays.items ≡ []) }
    ensures naming { IfOk result (λ prompt. prompt.naming ≡ naming) }
{
    let debugger = Debugger::new(alloc, scenario, partition, workers)?;
    Ok(Prompt {
        dialogue: Dialogue::new(alloc, debugger),
        naming,
        said: Said::new(alloc),
    })
}

/// Opens a prompt over an input, where this has a scenario whose nodes are in the groups.
fn begin_prompt<N: Notes>(
    means: &Means,
    sharing: &Sharing,
    input: &[u8],
    notes: &mut N,
) -> Result<Prompt, SessionFault>
    requires { IsWithin input.now }
    ensures opened { IfOk result (IsPromptOpened sharing.now.groups input.now) }
    ensures refused { IfErr result (IsRefused sharing.now.groups input.now) }
{
    let scenario = reported_scenario(means, input, notes)?;
    let partition = groups_to_debug(means, sharing, &scenario, notes)?;
    let naming = naming_of(means.alloc, &scenario, input)?;
    let prompt = open_prompt(means.alloc, sharing.workers(), &scenario, partition, naming)?;
    drop(scenario);
    Ok(prompt)
}

/// Does a debugging session at a prompt over an input, where this has a scenario whose nodes are in the
/// groups: the lines that are typed are answered.
pub(crate) fn answer_prompt<R: Source, W: Sink, T: Threads + Wait + Sync, N: Notes>(
    tools: &SessionTools<Several<T>>,
    sharing: &Sharing,
    input: &[u8],
    reader: &mut R,
    writer: &mut W,
    notes: &mut N,
) -> Result<(), SessionFault>
    requires { IsWithin input.now }
    ensures { let seen = streams_of R.failures R.typed W.failures W.contents in IsPromptDone sharing.now.groups input.now (seen reader.old writer.old) result (seen reader.new writer.new) }
{
    let mut room = room_for_line(tools.means.alloc)?;
    let mut prompt = begin_prompt(tools.means, sharing, input, notes)?;
    let room = room.as_mut_slice();
    let rt = tools.hands.rt;
    if sharing.workers() > 1 {
        return answer_lines(rt, tools, &mut prompt, room, reader, writer, notes);
    }
    let alone = SessionTools {
        means: tools.means,
        hands: &Alone,
    };
    answer_lines(rt, &alone, &mut prompt, room, reader, writer, notes)
}
