//! Who may claim pieces.
use crate::piece::Piece;
use crate::view::View;
use std::marker::Model;

/// The right to claim pieces of one board, with what is known of them. It takes no memory.
#[derive(Drop)]
pub struct Seat {
    /// The board's own token for it.
    pub(crate) seat: atomic_table::Seat<Piece, View>,
}

impl Model for Seat {
    ghost use Rattle.work_board.specs.Boards.{SeatState};

    ghost Value = { SeatState };

    ghost use Rattle.work_board.specs.BoardCodes.{seat_code};

    ghost coded = { seat_code };

    ghost view = { λ s. record { table = s.seat.table_id; view = s.seat.me.0; hands = s.seat.me.1 } };
}
