//! A group's work in one window.
ghost use Rattle.std.specs.Prelude.{◌≡◌, ◌≤◌, ◌↔◌, IsTrue, None};
ghost use Rattle.window_core.specs.Group.{AfterFirings};
ghost use Rattle.work_board.specs.Pieces.{IsDone, IsSettled, IsReported};

use sim_time::Time;
use std::marker::Model;
use std::snapshot::Snapshot;
use window_core::{Group, GroupFault, run_group};

/// How many words are between a piece and the next one on a board: two cache lines, which are fetched together.
const APART: usize = 16;

/// A group that is to run its events below a moment.
#[derive(Drop)]
pub struct Piece {
    /// The group as it is now.
    group: Group,
    /// Where it ends, in nanoseconds: where its window does, or sooner.
    end: Time,
    /// The group as it was at first.
    began: Snapshot<Group>,
    /// Why it stopped before the end, if it did.
    fault: Option<GroupFault>,
    /// Words that nobody uses. Pieces of a board stand side by side, and each is written event by event: without these
    /// the end of one and the begin of the next one would share a cache line that two cores write.
    apart: [u64; APART],
}

impl Model for Piece {
    ghost use Rattle.std.specs.Prelude.{◌≤◌};
    ghost use Rattle.window_core.specs.Group.{AfterFirings};
    ghost use Rattle.work_board.specs.Pieces.{PieceState, IsReported};

    ghost Value = { PieceState };

    ghost use Rattle.work_board.specs.Codes.{piece_code};

    ghost coded = { piece_code };

    ghost view = { λ p. record { end = p.end; began = p.began.value; group = p.group; fault = p.fault } };

    ghost invariant = { λ p. (p.end ≤ p.began.value.until) × AfterFirings p.end p.began.value p.group × IsReported (record { end = p.end; began = p.began.value; group = p.group; fault = p.fault }) };
}

impl Piece {
    /// A piece that has not run. Its end is in nanoseconds.
    pub fn new(group: Group, end: Time) -> Piece
        requires within { end ≤ group.until }
        ensures { result ≡ record { end = end; began = group; group = group; fault = None } }
    {
        let began = Snapshot::of(&group);
        Piece {
            group,
            end,
            began,
            fault: None,
            apart: [0; APART],
        }
    }

    /// Runs the group up to the end. It is then done, or refused with its fault.
    pub fn run(&mut self)
        ensures end { self.new.end ≡ self.old.end }
        ensures began { self.new.began ≡ self.old.began }
        ensures after { AfterFirings self.old.end self.old.group self.new.group }
        ensures settled { IsSettled self.new }
        ensures reported { IsReported self.new }
    {
        self.fault = run_group(&mut self.group, self.end).err();
    }

    /// Whether no event below the end is left.
    pub fn is_done(&self) -> bool
        ensures { IsTrue result ↔ IsDone self.now }
    {
        match self.group.next() {
            None => true,
            Some(next) => self.end <= next,
        }
    }

    /// Why it stopped before the end, if it did.
    pub fn fault(&self) -> Option<GroupFault>
        ensures fault { result ≡ self.now.fault }
        ensures reported { IsReported self.now }
        ensures after { AfterFirings self.now.end self.now.began self.now.group }
    {
        self.fault
    }

    /// The group, which is what the piece began as after some firings of its own below its end.
    pub fn into_group(self) -> Group
        ensures group { result ≡ self.group }
        ensures after { AfterFirings self.end self.began result }
    {
        let Piece {
            group,
            end: _,
            began: _,
            fault: _,
            apart: _,
        } = self;
        group
    }
}
