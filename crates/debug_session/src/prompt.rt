//! Lines that are typed at a prompt.
ghost use Rattle.std.specs.Prelude.{◌≡◌, false};
ghost use Rattle.debug_session.specs.Answers.{session_state};
ghost use Rattle.prompt_words.specs.Refusals.{answer_of, by_code};
ghost use Rattle.debug_session.specs.Prompt as prompt;
ghost use Rattle.debug_session.specs.TypedAnswers as answers;
ghost use Rattle.prompt_words.specs.TypedGrammar.{is_quit};

use crate::dialogue::Dialogue;
use crate::displaying::obey_display;
use crate::said::Said;
use crate::typed_reply::obey_typed;
use debugger::Debugger;
use prompt_words::{
    Extent, Memo, Naming, Refusal, Refused, Request, Typed, is_long, knowing, read_typed, with_code,
};
use window_engine::{Gate, Hands};

/// The last move, once a command was read.
fn last_after(asked: Typed, last: Option<Typed>) -> Option<Typed>
    ensures { result ≡ answers.last_after asked last }
{
    match asked {
        Typed::Go(_) => Some(asked),
        _ => last,
    }
}

/// How far the run is known to go, where it goes on to where a debugger stands.
fn known_after(known: Extent, debugger: &Debugger) -> Extent
    ensures { result ≡ prompt.known_after known (session_state debugger.now) }
{
    Extent {
        upto: known.upto.max(debugger.position()),
        ends: known.ends || debugger.is_at_end(),
    }
}

/// What is in mind, once a command was read.
fn memo_after(asked: Typed, dialogue: &Dialogue) -> Memo
    ensures { result ≡ prompt.memo_after asked (prompt.at_prompt dialogue.now) }
{
    Memo {
        last: last_after(asked, dialogue.memo.last),
        known: known_after(dialogue.memo.known, &dialogue.debugger),
    }
}

/// Does what is asked for. A move is the last one from then on.
#[tactic(none)]
fn obey_at_prompt<H: Hands>(
    hands: &H,
    gate: &Gate,
    dialogue: &mut Dialogue,
    naming: &Naming,
    asked: Typed,
    said: &mut Said,
) -> Result<(), Refusal>
    requires ready { H.ready hands.now }
    ensures obeys { prompt.ObeysAtPrompt naming.now dialogue.old.debugger.start asked (prompt.at_prompt dialogue.old) (prompt.at_prompt dialogue.new) (answer_of result said.new) }
    ensures start { dialogue.new.debugger.start ≡ dialogue.old.debugger.start }
{
    dialogue.memo = memo_after(asked, dialogue);
    let known = dialogue.memo.known;
    obey_typed(
        hands,
        gate,
        &mut dialogue.debugger,
        naming,
        dialogue.displays.as_slice(),
        knowing(known, asked),
        said,
    )
}

/// Does the last move again, where there was one.
#[tactic(none)]
fn move_again<H: Hands>(
    hands: &H,
    gate: &Gate,
    dialogue: &mut Dialogue,
    naming: &Naming,
    said: &mut Said,
) -> Result<(), Refusal>
    requires ready { H.ready hands.now }
    ensures moves { prompt.MovesAgain naming.now dialogue.old.debugger.start dialogue.old.memo.last (prompt.at_prompt dialogue.old) (prompt.at_prompt dialogue.new) (answer_of result said.new) }
    ensures start { dialogue.new.debugger.start ≡ dialogue.old.debugger.start }
{
    match dialogue.memo.last {
        None => {
            said.clear();
            Ok(())
        }
        Some(asked) => obey_at_prompt(hands, gate, dialogue, naming, asked, said),
    }
}

/// Obeys what a line asks for.
#[tactic(none)]
fn obey_request<H: Hands>(
    hands: &H,
    gate: &Gate,
    dialogue: &mut Dialogue,
    naming: &Naming,
    asked: Request,
    said: &mut Said,
) -> Result<(), Refusal>
    requires ready { H.ready hands.now }
    ensures obeys { prompt.ObeysRequest naming.now dialogue.old.debugger.start asked (prompt.at_prompt dialogue.old) (prompt.at_prompt dialogue.new) (answer_of result said.new) }
    ensures start { dialogue.new.debugger.start ≡ dialogue.old.debugger.start }
{
    match asked {
        Request::Command(asked) => obey_at_prompt(hands, gate, dialogue, naming, asked, said),
        Request::Display(asked) => obey_display(dialogue, naming, asked, said),
    }
}

/// Follows what a line says.
#[tactic(none)]
fn follow_typed<'a, H: Hands>(
    hands: &H,
    gate: &Gate,
    dialogue: &mut Dialogue,
    naming: &Naming,
    line: &'a [u8],
    said: &mut Said,
) -> Result<(), Refused<'a>>
    requires ready { H.ready hands.now }
    ensures answers { prompt.AnswersTyped naming.now dialogue.old.debugger.start line.now (prompt.at_prompt dialogue.old) (prompt.at_prompt dialogue.new) (answer_of (by_code result) said.new) }
    ensures start { dialogue.new.debugger.start ≡ dialogue.old.debugger.start }
{
    match read_typed(naming, line) {
        None => with_code(move_again(hands, gate, dialogue, naming, said)),
        Some(Err(why)) => Err(why),
        Some(Ok(asked)) => with_code(obey_request(hands, gate, dialogue, naming, asked, said)),
    }
}

/// Answers a line that doesn't end the session: one that is too long is refused, and what any other
/// says is followed. The moves `run` and `until` go by the debugger's workers. Where the line is refused, nothing is said.
#[tactic(none)]
pub fn answer_typed<'a, H: Hands>(
    hands: &H,
    gate: &Gate,
    dialogue: &mut Dialogue,
    naming: &Naming,
    line: &'a [u8],
    said: &mut Said,
) -> Result<(), Refused<'a>>
    requires ready { H.ready hands.now }
    ensures answers { is_quit line.now ≡ false → prompt.TypedAnswers naming.now dialogue.old.debugger.start line.now (prompt.at_prompt dialogue.old) (prompt.at_prompt dialogue.new) (answer_of (by_code result) said.new) }
    ensures start { dialogue.new.debugger.start ≡ dialogue.old.debugger.start }
{
    if is_long(line) {
        Err(Refused::from(Refusal::B2))
    } else {
        follow_typed(hands, gate, dialogue, naming, line, said)
    }
}
