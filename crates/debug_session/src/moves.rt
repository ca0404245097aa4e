//! Moves: by the debugger's workers, or by the calling thread alone.
ghost use Rattle.std.specs.Prelude.{◌≡◌, IfOk, OnErr};
ghost use Rattle.debugger.specs.Debugging.{HasMoved};
ghost use Rattle.debugger.specs.Moves.{StepGoesTo};
ghost use Rattle.debug_session.specs.Answers.{session_state, GoesTo};

use debugger::{Debugger, MoveFault};
use prompt_words::Move;
use window_engine::{Gate, Hands};

/// Moves to a position, or to the run's end where that comes first.
fn move_to(debugger: &mut Debugger, target: u64) -> Result<u64, MoveFault>
    ensures moved { IfOk result (HasMoved debugger.old debugger.new) }
    ensures goes { IfOk result (StepGoesTo debugger.old.start 0 target) }
    ensures err { OnErr result (debugger.new ≡ debugger.old) }
{
    let from = debugger.position();
    if target < from {
        debugger.back(from - target)
    } else {
        debugger.step(target - from)
    }
}

/// Makes a move.
pub(crate) fn make<H: Hands>(
    hands: &H,
    gate: &Gate,
    debugger: &mut Debugger,
    asked: Move,
) -> Result<u64, MoveFault>
    requires ready { H.ready hands.now }
    ensures moved { IfOk result (HasMoved debugger.old debugger.new) }
    ensures goes { IfOk result (GoesTo asked debugger.old.start (session_state debugger.old)) }
    ensures err { OnErr result (debugger.new ≡ debugger.old) }
{
    match asked {
        Move::Step(count) => debugger.step(count),
        Move::Back(count) => debugger.back(count),
        Move::Run => debugger.run(hands, gate),
        Move::Reverse => debugger.reverse(),
        Move::Until(time) => debugger.until(hands, gate, time),
        Move::Goto(target) => move_to(debugger, target),
        Move::Moment(time) => debugger.goto_moment(hands, gate, time),
    }
}
