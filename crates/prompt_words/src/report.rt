//! How a move is told.
ghost use Rattle.std.specs.Prelude.{◌≡◌};
ghost use Rattle.prompt_words.specs.Reports.{report_of};

use crate::command::Move;
use sim_time::Time;

/// How a move is told.
#[derive(Clone, Copy)]
pub struct Report {
    /// The position past which the breakpoint is told that stops the move, and its line too.
    pub bound: u64,
    /// The moment that `until` asks for, in nanoseconds.
    pub until: Option<Time>,
}

/// How a move from a position is told.
pub fn report_of(asked: Move, from: u64) -> Report
    ensures { result ≡ report_of asked from }
{
    match asked {
        Move::Reverse => Report {
            bound: 0,
            until: None,
        },
        Move::Until(time) => Report {
            bound: from,
            until: Some(time),
        },
        Move::Step(_) | Move::Back(_) | Move::Run | Move::Goto(_) | Move::Moment(_) => Report {
            bound: from,
            until: None,
        },
    }
}
