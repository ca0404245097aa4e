//! A queue of either kind.
ghost use Rattle.std.specs.Prelude.{◌≡◌, ◌≤◌, ◌^◌, ◌++◌, ℕ, false, true, [], length, Some, IfOk};
ghost use Rattle.std.specs.Iterator.{YieldsFirst};
ghost use Rattle.std.specs.Iterator.Runs.{YieldsInOrder};
ghost use Rattle.sim_time.specs.Moment.{IsMoment};
ghost use Rattle.sim_time.specs.QueueLimits.{IsQueueInLimits};
ghost use Rattle.packet_chain.specs.declared.packet.Packet.{Packet};
ghost use Rattle.packet_chain.specs.Stamped.{Stamped};
ghost use Rattle.aqm.specs.DropTail.{IsDropTail};
ghost use Rattle.aqm.specs.Queue.{fifo_of, waiting_in, initial_queue, refuses, answer_of, offered_to, lets_pass, may_drop, take_reason, taken_from};

use crate::codel::Codel;
use crate::drop_reason::TakeDrop;
use crate::drop_tail::DropTail;
use crate::offered::Offered;
use packet_chain::{Iter, PacketCell, PacketChain};
use sim_time::{QueueKind, Time};
use std::alloc::{AllocError, Global};

/// A link's queue.
#[derive(Drop)]
pub enum Queue {
    /// One that drops only what comes when it is full.
    DropTail(DropTail),
    /// One that drops at its head while packets wait too long.
    Codel(Codel),
}

impl Queue {
    /// An empty queue of a kind, in which so many packets may wait, 1 to 65,535. Its copies take
    /// their memory from `alloc`.
    pub fn new(alloc: Global, kind: QueueKind, capacity: u16) -> Queue
        requires capacity { 1 ≤ capacity }
        requires numbers { IsQueueInLimits kind }
        ensures { result ≡ initial_queue kind capacity }
    {
        match kind {
            QueueKind::DropTail => Queue::DropTail(DropTail::new(alloc, capacity)),
            QueueKind::Codel(codel) => Queue::Codel(Codel::new(
                alloc,
                capacity,
                codel.target,
                codel.interval,
                codel.maxpacket,
            )),
        }
    }

    /// How many packets wait.
    pub fn len(&self) -> usize
        ensures value { result ≡ length (waiting_in self.now) }
        ensures sound { IsDropTail (fifo_of self.now) }
    {
        self.fifo().len()
    }

    /// The packets that wait, from the head, each with the moment at which it entered.
    pub fn packets(&self) -> Iter<'_>
        ensures rest { result ≡ waiting_in self.now }
        ensures runs { YieldsInOrder (YieldsFirst {A = Stamped} (λ rest. rest)) (λ rest. rest) }
    {
        self.fifo().packets()
    }

    /// Takes a packet in, unless the queue drops it, as where it is full.
    pub fn offer(&mut self, cell: PacketCell, now: Time) -> Offered
        requires { IsMoment now }
        ensures answer { result ≡ answer_of self.old cell }
        ensures state { self.new ≡ offered_to self.old cell now }
    {
        match self {
            Queue::DropTail(queue) => queue.offer(cell, now),
            Queue::Codel(queue) => queue.offer(cell, now),
        }
    }

    /// Whether a packet that is offered now and taken at once passes, and leaves the queue as it is.
    #[inline(always)]
    pub fn lets_pass(&self) -> bool
        ensures value { result ≡ lets_pass self.now }
        ensures enters { result ≡ true → refuses self.now ≡ false }
        ensures same { result ≡ true → (packet : Packet) (now : ℕ) → taken_from (offered_to self.now (packet, now) now) now ≡ record { dropped = []; given = Some (packet, now); queue = self.now } }
    {
        match self {
            Queue::DropTail(queue) => queue.len() == 0,
            Queue::Codel(_) => false,
        }
    }

    /// Whether a take may drop packets.
    #[inline(always)]
    pub fn may_drop(&self) -> bool
        ensures { result ≡ may_drop self.now }
    {
        match self {
            Queue::DropTail(_) => false,
            Queue::Codel(_) => true,
        }
    }

    /// Why a take drops packets. Drop-tail's drops none, so that of it nothing is told by this.
    #[inline(always)]
    pub fn take_reason(&self) -> TakeDrop
        ensures { result ≡ take_reason self.now }
    {
        match self {
            Queue::DropTail(_) | Queue::Codel(_) => TakeDrop::Codel,
        }
    }

    /// Takes the packet at the head out of a queue whose takes drop nothing.
    #[inline(always)]
    pub fn take_head(&mut self) -> Option<PacketCell>
        requires { may_drop self.old ≡ false }
        ensures given { (now : ℕ) → result ≡ (taken_from self.old now).given }
        ensures undropped { (now : ℕ) → (taken_from self.old now).dropped ≡ [] }
        ensures state { (now : ℕ) → self.new ≡ (taken_from self.old now).queue }
    {
        match self {
            Queue::DropTail(queue) => queue.take(),
            Queue::Codel(_) => None,
        }
    }

    /// Takes the next packet out; those that are dropped on the way are put at the end of
    /// `dropped`.
    pub fn take(&mut self, now: Time, dropped: &mut PacketChain) -> Option<PacketCell>
        requires moment { IsMoment now }
        requires room { length dropped.old ≤ 2 ^ 49 }
        ensures given { result ≡ (taken_from self.old now).given }
        ensures dropped { dropped.new ≡ dropped.old ++ (taken_from self.old now).dropped }
        ensures state { self.new ≡ (taken_from self.old now).queue }
    {
        match self {
            Queue::DropTail(queue) => queue.take(),
            Queue::Codel(queue) => queue.take(now, dropped),
        }
    }

    /// How many packets a take at `now` drops. The cost doesn't grow with what stays.
    #[inline(always)]
    pub fn drops_at(&self, now: Time) -> usize
        requires { IsMoment now }
        ensures value { result ≡ length (taken_from self.now now).dropped }
        ensures most { result ≤ length (waiting_in self.now) }
        ensures limit { result ≤ 65535 }
    {
        match self {
            Queue::DropTail(_) => 0,
            Queue::Codel(queue) => queue.drops_at(now),
        }
    }

    /// A queue in the same state, with the packets in cells of its own.
    pub fn copy(&self) -> Result<Queue, AllocError>
        ensures { IfOk result (λ copy. copy ≡ self.now) }
    {
        match self {
            Queue::DropTail(queue) => Ok(Queue::DropTail(queue.copy()?)),
            Queue::Codel(queue) => Ok(Queue::Codel(queue.copy()?)),
        }
    }

    // The packets and the capacity.
    fn fifo(&self) -> &DropTail
        ensures { result.now ≡ fifo_of self.now }
    {
        match self {
            Queue::DropTail(queue) => queue,
            Queue::Codel(queue) => queue.fifo(),
        }
    }
}
