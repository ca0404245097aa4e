//! What is left of a piece.
use crate::piece::Piece;

/// What is left of a piece once the board is cleared.
#[derive(Drop)]
pub enum Slot {
    /// A seat finished it.
    Finished(Piece),
    /// Nobody claimed it.
    Waiting(Piece),
    /// A seat claimed it and did not finish it.
    Out,
}
