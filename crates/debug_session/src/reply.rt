//! A session's answer to a line of commands.
ghost use Rattle.std.specs.Prelude.{◌≡◌, MatchResult};
ghost use Rattle.prompt_words.specs.Refusals.{answer_of};
ghost use Rattle.debug_session.specs.Answers.{session_state, Obeys, Answers};
ghost use Rattle.debug_session.specs.Reported.{GoesBack};

use crate::moves::make;
use crate::said::Said;
use breakpoints::{Break, BreakFault};
use debugger::Debugger;
use prompt_words::{Command, Limits, Refusal, read_line};
use window_engine::{Gate, Hands};

/// Takes the last move back, where what it came to could not be told.
#[tactic(none)]
pub(crate) fn or_undone(debugger: &mut Debugger, told: Result<(), Refusal>) -> Result<(), Refusal>
    ensures same { result ≡ told }
    ensures undone { MatchResult told (λ _. debugger.new ≡ debugger.old) (λ _. GoesBack debugger.old debugger.new) }
{
    match told {
        Ok(()) => Ok(()),
        Err(why) => {
            let _undone = debugger.undo_move();
            Err(why)
        }
    }
}

/// Sets a breakpoint.
#[tactic(none)]
fn set_break(debugger: &mut Debugger, b: Break, said: &mut Said) -> Result<(), Refusal>
    ensures obeyed { Obeys debugger.old.start (Command.SetBreak b) (session_state debugger.old) (session_state debugger.new) (answer_of result said.new) }
    ensures start { debugger.new.start ≡ debugger.old.start }
{
    let _is_set = debugger.has_break(b);
    match debugger.add_break(b) {
        Ok(count) => {
            said.say_set(count);
            Ok(())
        }
        Err(BreakFault::TooMany) => Err(Refusal::B4),
        Err(BreakFault::NoMemory) => Err(Refusal::M),
    }
}

/// Does what a command asks for. The moves `run` and `until` go by the debugger's workers.
#[tactic(none)]
fn obey<H: Hands>(
    hands: &H,
    gate: &Gate,
    debugger: &mut Debugger,
    command: Command,
    said: &mut Said,
) -> Result<(), Refusal>
    requires ready { H.ready hands.now }
    ensures obeyed { Obeys debugger.old.start command (session_state debugger.old) (session_state debugger.new) (answer_of result said.new) }
    ensures start { debugger.new.start ≡ debugger.old.start }
{
    match command {
        Command::Go(asked) => match make(hands, gate, debugger, asked) {
            Ok(_) => {
                let told = said.say_state(debugger);
                or_undone(debugger, told)
            }
            Err(_) => Err(Refusal::M),
        },
        Command::State => {
            let _here = debugger.position();
            said.say_state(debugger)
        }
        Command::SetBreak(b) => set_break(debugger, b, said),
        Command::Clear => {
            debugger.clear_breaks();
            said.say_cleared();
            Ok(())
        }
    }
}

/// Answers a line: what it asks for is done, or it is refused and changes nothing.
#[tactic(none)]
pub fn answer<H: Hands>(
    hands: &H,
    gate: &Gate,
    debugger: &mut Debugger,
    limits: Limits,
    line: &[u8],
    said: &mut Said,
) -> Result<(), Refusal>
    requires ready { H.ready hands.now }
    ensures answers { Answers limits debugger.old.start line.now (session_state debugger.old) (session_state debugger.new) (answer_of result said.new) }
    ensures start { debugger.new.start ≡ debugger.old.start }
{
    match read_line(limits, line) {
        None => {
            said.clear();
            Ok(())
        }
        Some(Err(refusal)) => Err(refusal),
        Some(Ok(command)) => obey(hands, gate, debugger, command, said),
    }
}
