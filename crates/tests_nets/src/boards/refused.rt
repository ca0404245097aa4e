//! A board whose memory is refused.
ghost use Rattle.std.specs.Prelude.{◌<◌, length};

use super::laid::{groups, pieces};
use super::{letter, runs};
use std::alloc::{AllocError, Global};
use std::process::Abort;
use work_board::{Board, Piece, Slot};

// Two pieces.
fn two_pieces(rt: &impl Abort, alloc: Global) -> Vec<Piece>
    ensures least { 1 < length result.items }
    ensures most { length result.items < 64 }
{
    let pieces = pieces(rt, alloc, groups(rt, alloc, 1));
    assert!(rt; pieces.len() == 2);
    pieces
}

// Lays a board of two pieces, runs the first, and clears it.
fn cleared(rt: &impl Abort, alloc: Global) -> Result<Vec<Slot>, AllocError> {
    let pieces = two_pieces(rt, alloc);
    let (board, mut seat) = Board::lay(alloc, pieces)?;
    let won = runs(&board, &mut seat, 0);
    assert!(rt; won);
    board.clear(seat)
}

// Where memory is refused to `lay` or to `clear`, a new board of new pieces works: the test passes
// whichever one request is refused, as dev/refuse_tests.sh tries.
fn cleared_at_last(rt: &impl Abort, alloc: Global) -> Vec<Slot> {
    match cleared(rt, alloc) {
        Ok(slots) => slots,
        Err(_) => cleared(rt, alloc).ok().expect(rt, "one request is refused"),
    }
}

#[test]
fn a_refused_board_gives_its_pieces_up(rt: HostRuntime) {
    let slots = cleared_at_last(&rt, rt.alloc());
    assert_eq!(rt; slots.len(), 2);
    assert_eq!(rt; letter(&slots, 0), Some('F'));
    assert_eq!(rt; letter(&slots, 1), Some('W'));
    drop(slots);
}
