//! A queue of limited length that drops only what comes when it is full.
ghost use Rattle.std.specs.Prelude.{◌≡◌, ◌^◌, ◌≤◌, [], length, slice_get, IfOk};
ghost use Rattle.std.specs.Iterator.{YieldsFirst};
ghost use Rattle.std.specs.Iterator.Runs.{YieldsInOrder};
ghost use Rattle.sim_time.specs.Moment.{IsMoment};
ghost use Rattle.packet_chain.specs.Stamped.{Stamped, bytes_of};
ghost use Rattle.aqm.specs.DropTail.{DropTailState, IsDropTail, after_offer, answer_to, without_first};

use crate::drop_reason::OfferDrop;
use crate::offered::Offered;
use packet_chain::{Iter, PacketCell, PacketChain};
use sim_time::Time;
use std::alloc::{AllocError, Global};
use std::marker::Model;

/// A queue, first in, first out, that drops only what comes when it is full.
#[derive(Drop)]
pub struct DropTail {
    /// The packets that wait, stamped with the moments at which they entered.
    cells: PacketChain,
    /// How many packets may wait.
    capacity: u16,
}

impl Model for DropTail {
    ghost use Rattle.aqm.specs.DropTail.{DropTailState, IsDropTail};

    ghost Value = { DropTailState };

    ghost view = { λ q. record { waiting = q.cells; capacity = q.capacity } };

    ghost invariant = { λ q. IsDropTail (record { waiting = q.cells; capacity = q.capacity }) };
}

impl DropTail {
    /// An empty queue, in which so many packets may wait, 1 to 65,535. Its copies take their
    /// memory from `alloc`.
    pub fn new(alloc: Global, capacity: u16) -> DropTail
        requires { 1 ≤ capacity }
        ensures { result ≡ record { waiting = []; capacity = capacity } }
    {
        DropTail {
            cells: PacketChain::new(alloc),
            capacity,
        }
    }

    /// How many packets wait.
    pub fn len(&self) -> usize
        ensures value { result ≡ length self.now.waiting }
        ensures sound { IsDropTail self.now }
    {
        self.cells.len()
    }

    /// How many bytes the packets that wait have together.
    pub(crate) fn bytes(&self) -> u64
        ensures { result ≡ bytes_of self.now.waiting }
    {
        self.cells.bytes()
    }

    /// The packets that wait, from the head, each with the moment at which it entered.
    pub fn packets(&self) -> Iter<'_>
        ensures rest { result ≡ self.now.waiting }
        ensures runs { YieldsInOrder (YieldsFirst {A = Stamped} (λ rest. rest)) (λ rest. rest) }
    {
        self.cells.iter()
    }

    /// Takes a packet in, with the moment as its stamp (RFC 8289 section 5.4), unless the queue
    /// is full.
    pub fn offer(&mut self, mut cell: PacketCell, now: Time) -> Offered
        requires { IsMoment now }
        ensures answer { result ≡ answer_to self.old cell }
        ensures state { self.new ≡ after_offer self.old cell now }
        ensures sound { IsDropTail self.new }
    {
        if self.cells.len() == usize::from(self.capacity) {
            return Offered::Dropped(cell, OfferDrop::Full);
        }
        cell.set_stamp(now);
        self.cells.push_back(cell);
        Offered::Entered
    }

    /// Takes the packet at the head out.
    pub fn take(&mut self) -> Option<PacketCell>
        ensures given { result ≡ slice_get self.old.waiting 0 }
        ensures state { self.new ≡ without_first 1 self.old }
        ensures sound { IsDropTail self.new }
    {
        self.cells.pop_front()
    }

    /// A queue of the same packets, in cells of its own.
    pub fn copy(&self) -> Result<DropTail, AllocError>
        ensures { IfOk result (λ copy. copy ≡ self.now) }
    {
        let cells = self.cells.copy()?;
        Ok(DropTail {
            cells,
            capacity: self.capacity,
        })
    }
}
