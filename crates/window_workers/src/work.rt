//! A worker at the board of a window's pieces.
ghost use Rattle.std.specs.Prelude.{◌<◌, length};
ghost use Rattle.work_board.specs.Marks.{Has, StaysIn};
ghost use Rattle.work_board.specs.Seats.{IsOf, HoldsAsLaid, HoldsNothing};
ghost use Rattle.window_workers.specs.Sweeps.{HasMet, IsSwept};

use crate::gate::Gate;
use work_board::{Board, Seat};

/// Tells the gate of a piece that the seat has claimed: it is as it was laid.
fn enter(gate: &Gate, _seat: &Seat, piece: usize)
    requires { HoldsAsLaid _seat.now piece }
{
    gate.enter(piece as u64);
}

/// Tells the gate of a piece that the seat has finished.
fn leave(gate: &Gate, _seat: &Seat, piece: usize)
    requires { Has _seat.now.view.finished piece }
{
    gate.leave(piece as u64);
}

/// Tries a piece, and runs it where the seat claimed it: then it is counted.
fn meet(board: &Board, seat: &mut Seat, gate: &Gate, piece: usize, ran: &mut usize)
    requires board { IsOf board.now seat.old }
    requires idle { HoldsNothing seat.old }
    requires piece { piece < length board.now.pieces }
    ensures board { IsOf board.now seat.new }
    ensures idle { HoldsNothing seat.new }
    ensures met { HasMet seat.new piece }
    ensures stays { StaysIn seat.old.view seat.new.view }
{
    if board.try_claim(seat, piece) {
        enter(gate, seat, piece);
        seat.held(board, piece).run();
        board.finish(seat, piece);
        leave(gate, seat, piece);
        *ran = ran.saturating_add(1);
    }
}

/// Tries every piece, from one on and then those before it, so that a worker that begins where it did in the window
/// before meets groups that its core's cache has. It runs those that it claimed, and counts them.
pub(crate) fn work(board: &Board, seat: Seat, first: usize, gate: &Gate, ran: &mut usize) -> Seat
    requires board { IsOf board.now seat }
    requires idle { HoldsNothing seat }
    ensures board { IsOf board.now result }
    ensures swept { IsSwept result }
{
    let mut seat = seat;
    let first = first.min(board.pieces());
    for piece in first..board.pieces() {
        meet(board, &mut seat, gate, piece, ran);
    }
    for before in 0..first {
        meet(board, &mut seat, gate, before, ran);
    }
    seat
}
