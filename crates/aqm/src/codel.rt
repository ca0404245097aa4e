//! A queue that drops at its head while packets wait too long, ever closer in time (RFC 8289).
ghost use Rattle.std.specs.Prelude.{◌≡◌, ◌≤◌, [], IfOk};
ghost use Rattle.std.specs.Iterator.{YieldsFirst};
ghost use Rattle.std.specs.Iterator.Runs.{YieldsInOrder};
ghost use Rattle.sim_time.specs.Moment.{IsMoment};
ghost use Rattle.packet_chain.specs.Stamped.{Stamped};
ghost use Rattle.aqm.specs.DropTail.{DropTailState, after_offer, answer_to};
ghost use Rattle.aqm.specs.Codel.{IsCodel, initial_codel};

mod foresee;
mod judge;
mod readouts;
mod take;

use crate::drop_tail::DropTail;
use crate::offered::Offered;
use packet_chain::{Iter, PacketCell};
use sim_time::Time;
use std::alloc::{AllocError, Global};
use std::marker::Model;

/// A CoDel queue (RFC 8289 section 5.2). The packets wait in a drop-tail queue.
#[derive(Drop)]
pub struct Codel {
    /// The packets that wait.
    fifo: DropTail,
    /// How long a packet may wait, in nanoseconds.
    target: Time,
    /// For how long packets may wait longer before one is dropped, in nanoseconds.
    interval: Time,
    /// With so many bytes left, or fewer, nothing is dropped.
    maxpacket: u16,
    /// From when on a packet above target may be dropped, in nanoseconds, if the last one was
    /// above target.
    first_above: Option<Time>,
    /// When the next packet is due to be dropped, in nanoseconds.
    drop_next: Time,
    /// The count of drops: it begins at `lastcount`, and each further drop of this drop state or
    /// the last added one, up to 4,294,967,295.
    count: u32,
    /// The count with which this drop state or the last began.
    lastcount: u32,
    /// Whether the queue is in drop state.
    dropping: bool,
}

impl Model for Codel {
    ghost use Rattle.aqm.specs.Codel.{CodelState, IsCodel};

    ghost Value = { CodelState };

    ghost use Rattle.aqm.specs.CodelOf.{codel_of};

    ghost view = { codel_of };

    ghost invariant = { λ q. IsCodel (codel_of q) };
}

impl Codel {
    /// An empty queue, in which so many packets may wait, 1 to 65,535. Target and interval are 1
    /// to 10^10 nanoseconds, maxpacket 1 to 65,535 bytes. Its copies take their memory from
    /// `alloc`.
    pub fn new(alloc: Global, capacity: u16, target: Time, interval: Time, maxpacket: u16) -> Codel
        requires capacity { 1 ≤ capacity }
        requires target_least { 1 ≤ target }
        requires target_most { target ≤ 10000000000 }
        requires interval_least { 1 ≤ interval }
        requires interval_most { interval ≤ 10000000000 }
        requires maxpacket { 1 ≤ maxpacket }
        ensures { result ≡ initial_codel (record { waiting = []; capacity = capacity }) target interval maxpacket }
    {
        Codel {
            fifo: DropTail::new(alloc, capacity),
            target,
            interval,
            maxpacket,
            first_above: None,
            drop_next: 0,
            count: 0,
            lastcount: 0,
            dropping: false,
        }
    }

    /// The packets that wait, from the head, each with the moment at which it entered.
    pub fn packets(&self) -> Iter<'_>
        ensures rest { result ≡ self.now.fifo.waiting }
        ensures runs { YieldsInOrder (YieldsFirst {A = Stamped} (λ rest. rest)) (λ rest. rest) }
        ensures sound { IsCodel self.now }
    {
        self.fifo.packets()
    }

    // The packets and the capacity.
    pub(crate) fn fifo(&self) -> &DropTail
        ensures { result.now ≡ self.now.fifo }
    {
        &self.fifo
    }

    /// From when on a packet above target may be dropped, in nanoseconds, if the last one was
    /// above target.
    pub fn first_above(&self) -> Option<Time>
        ensures { result ≡ self.now.first_above }
    {
        self.first_above
    }

    /// When the next packet is due to be dropped, in nanoseconds.
    pub fn drop_next(&self) -> Time
        ensures { result ≡ self.now.drop_next }
    {
        self.drop_next
    }

    /// The count of drops, from which the control law takes the next gap: it begins at
    /// [`Codel::lastcount`], and each further drop of this drop state or the last added one, up
    /// to 4,294,967,295.
    pub fn count(&self) -> u32
        ensures { result ≡ self.now.count }
    {
        self.count
    }

    /// The count with which this drop state or the last began.
    pub fn lastcount(&self) -> u32
        ensures { result ≡ self.now.lastcount }
    {
        self.lastcount
    }

    /// Whether the queue is in drop state.
    pub fn dropping(&self) -> bool
        ensures { result ≡ self.now.dropping }
    {
        self.dropping
    }

    /// Takes a packet in, unless the queue is full.
    pub fn offer(&mut self, cell: PacketCell, now: Time) -> Offered
        requires { IsMoment now }
        ensures answer { result ≡ answer_to self.old.fifo cell }
        ensures state { self.new ≡ record self.old { fifo = after_offer self.old.fifo cell now } }
    {
        self.fifo.offer(cell, now)
    }

    /// A queue in the same state, with the packets in cells of its own.
    pub fn copy(&self) -> Result<Codel, AllocError>
        ensures { IfOk result (λ copy. copy ≡ self.now) }
    {
        let fifo = self.fifo.copy()?;
        Ok(Codel {
            fifo,
            target: self.target,
            interval: self.interval,
            maxpacket: self.maxpacket,
            first_above: self.first_above,
            drop_next: self.drop_next,
            count: self.count,
            lastcount: self.lastcount,
            dropping: self.dropping,
        })
    }
}
