ghost use Rattle.std.specs.Prelude.{◌<◌, ◌≤◌, length};
ghost use Rattle.work_board.specs.Seats.{IsOf, HoldsNothing};

use crate::windows::nets::{grouped, pair};
use sim_time::Time;
use std::alloc::Global;
use std::process::Abort;
use window_core::Group;
use work_board::{Board, Piece, Seat};

/// Groups of a net of two nodes, which are in the first and in the last group.
pub(super) fn groups(rt: &impl Abort, alloc: Global, last: u8) -> Vec<Group> {
    let net = pair(rt, alloc);
    let mut window = grouped(rt, alloc, net, &[0, last]);
    let groups = window.take_groups();
    drop(window);
    groups
}

/// The group of all nodes, and where its window ends.
pub(super) fn whole(rt: &impl Abort, alloc: Global) -> (Group, Time)
    ensures { result.1 ≤ result.0.until }
{
    let net = pair(rt, alloc);
    let mut window = grouped(rt, alloc, net, &[0, 0]);
    window.limit(500_000_000);
    let end = window.end();
    let mut groups = window.take_groups();
    drop(window);
    let group = groups.pop().expect(rt, "a group");
    drop(groups);
    (group, end)
}

/// A piece for each of the groups, with an end before every event.
pub(super) fn pieces(rt: &impl Abort, alloc: Global, groups: Vec<Group>) -> Vec<Piece> {
    let mut pieces = match Vec::with_capacity(alloc, groups.len()) {
        Ok(pieces) => pieces,
        Err(_) => Vec::with_capacity(alloc, groups.len()).expect(rt, "one request is refused"),
    };
    for group in groups {
        pieces.push(Piece::new(group, 0)).expect(rt, "room");
    }
    pieces
}

/// A board of such a piece for each of the groups, and its first seat.
pub(super) fn laid_out(rt: &impl Abort, alloc: Global, groups: Vec<Group>) -> (Board, Seat)
    ensures board { IsOf result.0 result.1 }
    ensures idle { HoldsNothing result.1 }
    ensures two { 1 < length result.0.pieces }
{
    let pieces = pieces(rt, alloc, groups);
    assert!(rt; 1 < pieces.len() && pieces.len() <= 64);
    Board::lay(alloc, pieces).ok().expect(rt, "a board")
}

/// A board of a piece for each group of a net of two nodes, and its first seat.
pub(super) fn laid(rt: &impl Abort, alloc: Global, last: u8) -> (Board, Seat)
    ensures board { IsOf result.0 result.1 }
    ensures idle { HoldsNothing result.1 }
    ensures two { 1 < length result.0.pieces }
{
    laid_out(rt, alloc, groups(rt, alloc, last))
}
