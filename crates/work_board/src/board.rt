//! The board.
ghost use Rattle.std.specs.Prelude.{◌≡◌, ◌<◌, length};
ghost use Rattle.work_board.specs.Slots.{slot_by};

use crate::order::{Claim, Cut, Finish, Order};
use crate::piece::Piece;
use crate::seat::Seat;
use crate::slot::Slot;
use crate::view::View;
use atomic_table::Table;
use std::alloc::{AllocError, Global};
use std::marker::Model;
use std::snapshot::Snapshot;

/// Pieces that any number of threads share. Each is claimed by at most one seat.
#[derive(Drop)]
pub struct Board {
    /// A word and a slot for each piece.
    pub(crate) table: Table<Piece, View, Snapshot<Vec<Piece>>, Order, Global>,
    /// How many pieces there are.
    count: usize,
    /// Where memory comes from.
    alloc: Global,
}

impl Model for Board {
    ghost use Rattle.std.specs.Prelude.{◌≡◌, ◌<◌, ◌≤◌, length};
    ghost use Rattle.work_board.specs.Boards.{BoardState};

    ghost Value = { BoardState };

    ghost use Rattle.work_board.specs.BoardCodes.{board_code};

    ghost coded = { board_code };

    ghost view = { λ b. record { table = b.table.shared.table_id; pieces = b.table.shared.key.value.items } };

    ghost invariant = { λ b. (b.count ≡ length b.table.shared.key.value.items) × (b.table.shared.table_id.words ≡ b.count) × (b.table.shared.table_id.slots ≡ b.count) × (0 < b.count) × (b.count ≤ 64) };
}

impl Board {
    ghost use Rattle.std.specs.Prelude.{ℕ, ◌≤◌, [], ◌∷◌, IfOk, slice_get, Some};
    ghost use Rattle.std.specs.Bool.{OnTrue, OnFalse};
    ghost use Rattle.work_board.specs.Pieces.{PieceState};
    ghost use Rattle.work_board.specs.Marks.{StaysIn, fresh, holding, seeing, finishing};
    ghost use Rattle.work_board.specs.Seats.{IsOf, HoldsNothing, HoldsAsLaid, HoldsSettled, Tells, SlotState};
    ghost use Rattle.work_board.specs.Slots.{Ends};

    /// Lays the pieces out, and gives the first seat. A refusal gives them up.
    pub fn lay(alloc: Global, pieces: Vec<Piece>) -> Result<(Board, Seat), AllocError>
        requires least { 0 < length pieces.items }
        requires most { length pieces.items ≤ 64 }
        ensures pieces { IfOk result (λ r. r.0.pieces ≡ pieces.items) }
        ensures board { IfOk result (λ r. IsOf r.0 r.1) }
        ensures idle { IfOk result (λ r. HoldsNothing r.1) }
        ensures first { IfOk result (λ r. r.1.view ≡ fresh pieces.items) }
    {
        let count = pieces.len();
        let words = vec![in alloc; 0u64; count]?;
        let laid = Snapshot::of(&pieces);
        match Table::new(alloc, words.as_slice(), pieces, &laid) {
            Ok((table, seat)) => Ok((
                Board {
                    table,
                    count,
                    alloc,
                },
                Seat { seat },
            )),
            Err(_) => Err(AllocError),
        }
    }

    /// How many pieces there are.
    pub fn pieces(&self) -> usize
        ensures count { result ≡ length self.now.pieces }
        ensures least { 0 < result }
        ensures most { result ≤ 64 }
    {
        self.count
    }

    /// A second seat. The first keeps its marks, and the second has none. It takes no memory.
    pub fn split(&self, seat: Seat) -> (Seat, Seat)
        requires board { IsOf self.now seat }
        requires idle { HoldsNothing seat }
        ensures first_of { IsOf self.now result.0 }
        ensures second_of { IsOf self.now result.1 }
        ensures first_idle { HoldsNothing result.0 }
        ensures second_idle { HoldsNothing result.1 }
        ensures first { result.0.view ≡ seat.view }
        ensures second { result.1.view ≡ fresh seat.view.laid }
    {
        let Seat { mut seat } = seat;
        let other = self.table.shared.split_seat::<Cut>(&mut seat);
        (Seat { seat }, Seat { seat: other })
    }

    /// Claims the piece i. At true the seat holds it, as it was laid. At false the seat has seen it
    /// claimed, and that stays so. It takes no memory.
    pub fn try_claim(&self, seat: &mut Seat, i: usize) -> bool
        requires board { IsOf self.now seat.old }
        requires idle { HoldsNothing seat.old }
        requires piece { i < length self.now.pieces }
        ensures board { IsOf self.now seat.new }
        ensures won { OnTrue result (HoldsAsLaid seat.new i) }
        ensures holds { OnTrue result (seat.new.view ≡ holding seat.old.view i) }
        ensures lost { OnFalse result (HoldsNothing seat.new) }
        ensures saw { OnFalse result (seat.new.view ≡ seeing seat.old.view i) }
        ensures stays { StaysIn seat.old.view seat.new.view }
    {
        self.table.shared.fetch_or::<Claim>(&mut seat.seat, i, 1) == 0
    }

    /// Gives the piece i back, done or refused. It takes no memory.
    pub fn finish(&self, seat: &mut Seat, i: usize)
        requires board { IsOf self.now seat.old }
        requires piece { i < length self.now.pieces }
        requires holds { HoldsSettled seat.old i }
        ensures board { IsOf self.now seat.new }
        ensures idle { HoldsNothing seat.new }
        ensures finished { seat.new.view ≡ finishing seat.old.view i }
        ensures stays { StaysIn seat.old.view seat.new.view }
    {
        self.table.shared.fetch_or::<Finish>(&mut seat.seat, i, 2);
    }

    /// Ends the board, and says of each piece what became of it, in order. A refusal gives the
    /// pieces up.
    pub fn clear(self, seat: Seat) -> Result<Vec<Slot>, AllocError>
        requires { IsOf self seat }
        ensures len { IfOk result (λ v. length v.items ≡ length self.pieces) }
        ensures last { IfOk result (λ v. Ends seat.view v.items) }
        ensures each { IfOk result (λ v. (i : ℕ) (x : SlotState) → slice_get v.items i ≡ Some x → Tells seat.view i x) }
    {
        let Board {
            table,
            count,
            alloc,
        } = self;
        let mut slots = Vec::with_capacity(alloc, count)?;
        let Seat { seat } = seat;
        let mut closed = table.close_with(seat);
        for i in 0..count {
            let word = closed.word(i);
            slots.push_reserved(slot_of(word, closed.take(i)));
        }
        closed.free();
        Ok(slots)
    }
}

// What is left, by the piece's word and what lies at its place.
fn slot_of(word: u64, piece: Piece) -> Slot
    ensures { result ≡ slot_by word piece }
{
    match word {
        0 => Slot::Waiting(piece),
        3 => Slot::Finished(piece),
        _ => Slot::Out,
    }
}
