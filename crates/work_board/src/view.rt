//! What a seat knows.
ghost use Rattle.std.specs.Prelude.{ℕ, List};
ghost use Rattle.std.specs.Borrow.{ftrue};
ghost use Rattle.std.specs.Coded.{coded_list};
ghost use Rattle.work_board.specs.Pieces.{PieceState};
ghost use Rattle.work_board.specs.Codes.{piece_code};

use std::marker::Model;

/// What a seat knows of its board. No value of it is made.
pub struct View {
    /// The pieces as they were laid.
    pub ghost laid: { List PieceState } by { coded_list piece_code },
    /// The numbers of the pieces that it holds.
    pub ghost holds: { List ℕ },
    /// Of those that it saw claimed.
    pub ghost claimed: { List ℕ },
    /// Of those that it finished.
    pub ghost finished: { List ℕ },
}

impl Model for View {
    ghost also_owns = { λ _. ftrue };
}
