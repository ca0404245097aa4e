//! The piece in a seat's hands. Its clauses name rows that the files of `Board` and `Seat` cannot
//! import.
ghost use Rattle.std.specs.Prelude.{◌≡◌, [], ◌∷◌};
ghost use Rattle.std.specs.Borrow.{sem, Lends};
ghost use Rattle.work_board.specs.contracts.seat.Seat.{the_row as seat_row};
ghost use Rattle.work_board.specs.contracts.piece.Piece.{the_row as piece_row};
ghost use Rattle.work_board.specs.Seats.{IsOf, Holds, holding_now};

use crate::board::Board;
use crate::piece::Piece;
use crate::seat::Seat;

impl Board {
    /// The piece i, which the seat holds. When the borrow ends, the seat has what was written
    /// through it. The check follows what is lent from a first parameter alone: who has to know
    /// the seat afterwards calls [`Seat::held`].
    pub fn held<'a>(&'a self, seat: &'a mut Seat, i: usize) -> &'a mut Piece
        requires board { IsOf self.now seat.old }
        requires holds { Holds seat.old i }
        ensures* writes_back { sem 𝓛 (Lends seat_row piece_row seat.entry result (holding_now seat.old i)) }
        ensures value { seat.old.hands ≡ (i, result.now) ∷ [] }
    {
        seat.held(self, i)
    }
}

impl Seat {
    /// The piece i, which the seat holds. When the borrow ends, the seat has what was written
    /// through it.
    pub fn held<'a>(&'a mut self, board: &'a Board, i: usize) -> &'a mut Piece
        requires board { IsOf board.now self.old }
        requires holds { Holds self.old i }
        ensures* writes_back { sem 𝓛 (Lends seat_row piece_row self.entry result (holding_now self.old i)) }
        ensures value { self.old.hands ≡ (i, result.now) ∷ [] }
    {
        self.seat.slot_mut(&board.table.shared, i)
    }
}
