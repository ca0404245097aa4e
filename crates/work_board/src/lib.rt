//! Pieces of work that threads claim, run and finish, each once. Nobody waits for another.
#![tactic(auto)]

mod board;
mod held;
pub mod laws;
mod order;
mod piece;
mod seat;
mod slot;
mod view;

pub use board::Board;
pub use piece::Piece;
pub use seat::Seat;
pub use slot::Slot;
