//! What the workers of a window share, and what one of them has to do.
ghost use Rattle.std.specs.Prelude.{◌≡◌, ◌+◌, ◌<◌, ◌^◌, length};
ghost use Rattle.std.specs.Arc.{arc_value};
ghost use Rattle.window_core.specs.Sheaves.{merged};
ghost use Rattle.work_board.specs.Seats.{IsOf, HoldsNothing};
ghost use Rattle.window_text.specs.ResultTables.{IsTicketOf};
ghost use Rattle.window_workers.specs.Sweeps.{IsSwept};

use crate::gate::Gate;
use crate::work::work;
use std::alloc::Global;
use std::marker::Model;
use std::sync::Arc;
use window_core::Sheaf;
use window_text::{Parts, ResultTable, TextFormatter, Ticket};
use work_board::{Board, Seat};

/// What the workers of a window share.
#[derive(Drop)]
pub(crate) struct Tasks {
    /// The pieces that they run first.
    pub board: Board,
    /// The parts of the text that they make then.
    pub parts: Parts,
    /// The lines whose text it is.
    pub sheaf: Sheaf,
    /// Where each lays down what it made.
    pub result_table: ResultTable,
    ghost same: { result_table.sheaf ≡ sheaf },
    ghost fits: { sheaf.first + length (merged sheaf).lines < 2 ^ 63 },
}

/// What one worker begins with.
#[derive(Drop)]
pub(crate) struct Begin {
    /// Its seat at the board.
    pub seat: Seat,
    /// Its right to lay down one thing.
    pub ticket: Ticket,
    /// Where it lays that down, from 0 on. It tries first the pieces that lie as far along the board.
    pub place: usize,
    /// Of how many workers it is one.
    pub workers: usize,
    /// The memory for its text.
    pub formatter: TextFormatter,
}

/// Which piece a worker at a place tries first, of so many pieces and workers: a worker keeps to groups that its core's
/// cache has. Where workers are more than pieces the last ones have none of their own.
fn first_piece(pieces: usize, place: usize, workers: usize) -> Option<usize> {
    if workers <= pieces {
        return Some(pieces.saturating_mul(place) / workers.max(1));
    }
    if place < pieces { Some(place) } else { None }
}

/// Goes over the board and makes text, and lays that down: a worker that has a piece of its own goes over the board first,
/// one that has none takes only pieces that nobody has begun by the time that the text is made. The answer is the seat.
pub(crate) fn serve(tasks: &Tasks, gate: &Gate, begin: Begin) -> Seat
    requires board { IsOf tasks.now.board begin.seat }
    requires idle { HoldsNothing begin.seat }
    requires ticket { IsTicketOf tasks.now.result_table begin.ticket }
    ensures board { IsOf tasks.now.board result }
    ensures swept { IsSwept result }
{
    let Begin {
        seat,
        ticket,
        place,
        workers,
        mut formatter,
    } = begin;
    let first = first_piece(tasks.board.pieces(), place, workers);
    let mut ran = 0;
    formatter.clear();
    if first.is_none() {
        formatter.make_parts(&tasks.sheaf, &tasks.parts);
    }
    let seat = work(&tasks.board, seat, first.unwrap_or(0), gate, &mut ran);
    if first.is_some() {
        formatter.make_parts(&tasks.sheaf, &tasks.parts);
    }
    // Set last: a formatter that is refused memory forgets all.
    formatter.ran = ran;
    tasks.result_table.lay_down(ticket, place, formatter);
    seat
}

/// What a thread is to do for a window.
#[derive(Drop)]
pub struct Job {
    /// What it shares with the other workers.
    tasks: Arc<Tasks, Global>,
    /// What it begins with.
    begin: Begin,
}

impl Model for Job {
    ghost use Rattle.std.specs.Prelude.{ℕ};
    ghost use Rattle.std.specs.Arc.{arc_value};
    ghost use Rattle.work_board.specs.Seats.{IsOf, HoldsNothing};
    ghost use Rattle.window_text.specs.ResultTables.{IsTicketOf};

    ghost Value = { ℕ };

    ghost view = { λ o. o.begin.place };

    ghost invariant = { λ o. IsOf (arc_value o.tasks).board o.begin.seat × HoldsNothing o.begin.seat × IsTicketOf (arc_value o.tasks).result_table o.begin.ticket };
}

impl Job {
    /// The order to take part in a window's tasks.
    pub(crate) fn new(tasks: Arc<Tasks, Global>, begin: Begin) -> Job
        requires board { IsOf (arc_value tasks).board begin.seat }
        requires idle { HoldsNothing begin.seat }
        requires ticket { IsTicketOf (arc_value tasks).result_table begin.ticket }
    {
        Job { tasks, begin }
    }

    /// Carries it out. It keeps nothing of the tasks.
    pub(crate) fn carry_out(self, gate: &Gate) {
        let Job { tasks, begin } = self;
        let _seat = serve(&tasks, gate, begin);
    }
}
