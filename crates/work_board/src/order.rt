//! The rule of the board, and its three kinds of step.
ghost use Rattle.work_board.specs.Rule.{IsBoard};
ghost use Rattle.work_board.specs.Marks.{fresh};
ghost use Rattle.work_board.specs.Steps.{claimed, finished};

use crate::piece::Piece;
use crate::view::View;
use atomic_table::{Play, Split, TableRule};
use std::snapshot::Snapshot;

/// What holds of a board between any two steps.
#[derive(Clone, Copy)]
pub struct Order;

impl TableRule<Piece, View, Snapshot<Vec<Piece>>> for Order {
    ghost holds = { λ laid. IsBoard laid.value.items };

    ghost first = { λ laid. fresh laid.value.items };
}

/// A seat is split in two. The second knows the pieces as laid.
pub struct Cut;

impl Split<View> for Cut {
    ghost left = { λ v. v };

    ghost right = { λ v. fresh v.laid };
}

/// A seat sets the bit of a claim.
pub struct Claim;

impl Play<Piece, View> for Claim {
    ghost then = { claimed };
}

/// A seat sets the bit of a finish.
pub struct Finish;

impl Play<Piece, View> for Finish {
    ghost then = { finished };
}
