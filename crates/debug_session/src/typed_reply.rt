//! A session's answer to a command that is typed.
ghost use Rattle.std.specs.Prelude.{◌≡◌, [], MatchBool, OnOk};
ghost use Rattle.prompt_words.specs.Refusals.{answer_of};
ghost use Rattle.debug_session.specs.Answers.{session_state};
ghost use Rattle.debug_session.specs.Prompt.{MovesShowing, ObeysShowing};
ghost use Rattle.debug_session.specs.Reported.{CanBeUndone};
ghost use Rattle.debug_session.specs.TypedAnswers.{ObeysTyped};

use crate::moves::make;
use crate::reply::or_undone;
use crate::said::Said;
use crate::typed_move::present_time;
use breakpoints::Break;
use breakpoints::breaks::MOST_BREAKS;
use debugger::Debugger;
use prompt_words::{DisplayItem, Move, Naming, Refusal, Typed, number_of, of_number, report_of};
use window_engine::{Gate, Hands};

/// Sets a breakpoint, and tells its number: one that is set already keeps it.
#[tactic(none)]
fn set_numbered(
    debugger: &mut Debugger,
    naming: &Naming,
    b: Break,
    said: &mut Said,
) -> Result<(), Refusal>
    ensures obeyed { ObeysTyped naming.now debugger.old.start (Typed.SetBreak b) (session_state debugger.old) (session_state debugger.new) (answer_of result said.new) }
    ensures start { debugger.new.start ≡ debugger.old.start }
{
    let set = debugger.breaks();
    match number_of(set, b) {
        Some(number) => return said.say_break(naming, number, b),
        None => {}
    }
    if set.len() >= MOST_BREAKS {
        return Err(Refusal::B4);
    }
    let number = set.len() as u64 + 1;
    match said.say_break(naming, number, b) {
        Ok(()) => match debugger.add_break(b) {
            Ok(_) => Ok(()),
            Err(_) => Err(Refusal::M),
        },
        Err(_) => Err(Refusal::M),
    }
}

/// Takes the breakpoint of a number away, where one has it.
#[tactic(none)]
fn delete(
    debugger: &mut Debugger,
    naming: &Naming,
    number: u64,
    said: &mut Said,
) -> Result<(), Refusal>
    ensures obeyed { ObeysTyped naming.now debugger.old.start (Typed.Delete number) (session_state debugger.old) (session_state debugger.new) (answer_of result said.new) }
    ensures start { debugger.new.start ≡ debugger.old.start }
{
    match of_number(debugger.breaks(), number) {
        None => Err(Refusal::B5),
        Some((index, b)) => match said.say_deleted(naming, number, b) {
            Ok(()) => {
                let _taken = debugger.delete_break(index);
                Ok(())
            }
            Err(_) => Err(Refusal::M),
        },
    }
}

/// Makes a move, and tells what it came to. Where that cannot be told, the move is undone.
#[tactic(none)]
fn go<H: Hands>(
    hands: &H,
    gate: &Gate,
    debugger: &mut Debugger,
    naming: &Naming,
    asked: Move,
    said: &mut Said,
) -> Result<(), Refusal>
    requires ready { H.ready hands.now }
    ensures obeyed { ObeysTyped naming.now debugger.old.start (Typed.Go asked) (session_state debugger.old) (session_state debugger.new) (answer_of result said.new) }
    ensures start { debugger.new.start ≡ debugger.old.start }
    ensures left { OnOk result (CanBeUndone debugger.old debugger.new) }
{
    let from = debugger.position();
    let report = report_of(asked, from);
    match make(hands, gate, debugger, asked) {
        Ok(_) => {
            let told = said.say_move(debugger, naming, from, report);
            or_undone(debugger, told)
        }
        Err(_) => Err(Refusal::M),
    }
}

/// Makes a move, and tells displays behind its answer. Where they cannot be told, the move is undone.
#[tactic(none)]
fn go_behind<H: Hands>(
    hands: &H,
    gate: &Gate,
    debugger: &mut Debugger,
    naming: &Naming,
    displays: &[DisplayItem],
    asked: Move,
    said: &mut Said,
) -> Result<(), Refusal>
    requires ready { H.ready hands.now }
    ensures obeyed { MovesShowing naming.now displays.now debugger.old.start asked (session_state debugger.old) (session_state debugger.new) (answer_of result said.new) }
    ensures start { debugger.new.start ≡ debugger.old.start }
{
    match present_time(debugger) {
        Ok(before) => match go(hands, gate, debugger, naming, asked, said) {
            Ok(()) => {
                let behind = said.say_behind(debugger, &naming.names, displays, before);
                or_undone(debugger, behind)
            }
            Err(why) => Err(why),
        },
        Err(_) => Err(Refusal::M),
    }
}

/// Whether nothing is displayed.
fn is_bare(displays: &[DisplayItem]) -> bool
    ensures { MatchBool result (displays.now ≡ []) (Unit {0}) }
{
    displays.is_empty()
}

/// Makes a move, and tells displays behind its answer, if there are any.
#[tactic(none)]
fn go_showing<H: Hands>(
    hands: &H,
    gate: &Gate,
    debugger: &mut Debugger,
    naming: &Naming,
    displays: &[DisplayItem],
    asked: Move,
    said: &mut Said,
) -> Result<(), Refusal>
    requires ready { H.ready hands.now }
    ensures obeyed { MovesShowing naming.now displays.now debugger.old.start asked (session_state debugger.old) (session_state debugger.new) (answer_of result said.new) }
    ensures start { debugger.new.start ≡ debugger.old.start }
{
    if is_bare(displays) {
        go(hands, gate, debugger, naming, asked, said)
    } else {
        go_behind(hands, gate, debugger, naming, displays, asked, said)
    }
}

/// Does what is typed, and tells displays behind a move. The moves `run`, `until` and `goto` a moment go by the
/// debugger's workers.
#[tactic(none)]
pub(crate) fn obey_typed<H: Hands>(
    hands: &H,
    gate: &Gate,
    debugger: &mut Debugger,
    naming: &Naming,
    displays: &[DisplayItem],
    asked: Typed,
    said: &mut Said,
) -> Result<(), Refusal>
    requires ready { H.ready hands.now }
    ensures obeyed { ObeysShowing naming.now displays.now debugger.old.start asked (session_state debugger.old) (session_state debugger.new) (answer_of result said.new) }
    ensures start { debugger.new.start ≡ debugger.old.start }
{
    match asked {
        Typed::Go(asked) => go_showing(hands, gate, debugger, naming, displays, asked, said),
        Typed::State => {
            let _here = debugger.position();
            said.say_state(debugger)
        }
        Typed::SetBreak(b) => set_numbered(debugger, naming, b, said),
        Typed::Delete(number) => delete(debugger, naming, number, said),
        Typed::Clear => {
            debugger.clear_breaks();
            said.say_cleared();
            Ok(())
        }
        Typed::Breaks => said.say_breaks(naming, debugger.breaks()),
        Typed::Show(what) => said.say_shown(debugger, naming, what),
    }
}
