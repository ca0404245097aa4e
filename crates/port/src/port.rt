//! A link's sending side.
ghost use Rattle.std.specs.Prelude.{◌≡◌, ℕ, ◌+◌, ◌^◌, ◌<◌, ◌≤◌, ◌++◌, Some, None, [], false, All, IsTrue, is_none, if◌then◌else◌, length, IfOk};
ghost use Rattle.std.specs.List.Sorted.{IsStrictlyIncreasing};
ghost use Rattle.sim_time.specs.Moment.{IsMoment};
ghost use Rattle.sim_time.specs.declared.limits.TheConstants.{MOST_EVENTS};
ghost use Rattle.packet_chain.specs.declared.packet.Packet.{Packet};
ghost use Rattle.aqm.specs.Queue.{offered_to, refuses, taken_from, waiting_in};
ghost use Rattle.port.specs.Port.{IsPort, initial_port, offered_one, admitted, taken_if_idle, taken, departed};
ghost use Rattle.port.specs.Laws.{NothingWaitsWhereIdle};
ghost use Rattle.port.specs.Room.{drops_at, drops_at_offer};

mod taking;

use self::taking::drop_cell;
use crate::acts::Acts;
use crate::losses::Losses;
use aqm::{DropReason, Offered, Queue};
use packet_chain::{PacketCell, PacketChain};
use sim_time::{Rate, Time};
use std::alloc::{AllocError, Global};
use std::marker::Model;

/// The sending side of a link.
#[derive(Drop)]
pub struct Port {
    /// The link's number, below 1,024.
    link: u16,
    /// How fast it sends.
    rate: Rate,
    /// Propagation delay, 1 to 10^10 nanoseconds.
    delay: Time,
    /// How many packets were offered, and which are lost.
    losses: Losses,
    /// How many packets began to be sent.
    sent: u64,
    /// Until when the link is busy, in nanoseconds; none where it is idle.
    next_free: Option<Time>,
    /// The packets that wait.
    queue: Queue,
    /// What copies take their memory from.
    alloc: Global,
}

impl Model for Port {
    ghost use Rattle.port.specs.Port.{PortState, IsPort};

    ghost Value = { PortState };

    ghost use Rattle.port.specs.PortOf.{port_of};

    ghost view = { port_of };

    ghost invariant = { λ p. IsPort (port_of p) };
}

impl Port {
    /// The link of a number below 1,024, with a delay of 1 to 10^10 nanoseconds, before anything
    /// was offered to it. The packets of the numbers in `lose`, counted from 1, are lost. Its
    /// copies take their memory from `alloc`.
    pub fn new(
        alloc: Global,
        link: u16,
        rate: Rate,
        delay: Time,
        queue: Queue,
        lose: Vec<u32>,
    ) -> Port
        requires number { link < 1024 }
        requires delay_least { 1 ≤ delay }
        requires delay_most { delay ≤ 10000000000 }
        requires lose_rises { IsStrictlyIncreasing lose.items }
        requires lose_counts { All (λ number. 1 ≤ number) lose.items }
        ensures { result ≡ initial_port link rate delay lose.items queue }
    {
        Port {
            link,
            rate,
            delay,
            losses: Losses::new(lose),
            sent: 0,
            next_free: None,
            queue,
            alloc,
        }
    }

    /// The link's number.
    pub fn link(&self) -> u16
        ensures value { result ≡ self.now.link }
        ensures sound { IsPort self.now }
    {
        self.link
    }

    /// Until when the link is busy, in nanoseconds; none where it is idle.
    pub fn next_free(&self) -> Option<Time>
        ensures { result ≡ self.now.next_free }
    {
        self.next_free
    }

    /// How many packets were offered.
    pub fn offered(&self) -> u128
        ensures { result ≡ self.now.offered }
    {
        self.losses.offered()
    }

    /// How many packets began to be sent.
    pub fn sent(&self) -> u64
        ensures { result ≡ self.now.sent }
    {
        self.sent
    }

    /// The packets that wait.
    pub fn queue(&self) -> &Queue
        ensures { result.now ≡ self.now.queue }
    {
        &self.queue
    }

    /// For how many acts there is to be room, whatever is called and whenever.
    pub fn room(&self) -> usize
        ensures value { result ≡ length (waiting_in self.now.queue) + 1 }
        ensures sends { (now : ℕ) (packet : Packet) → drops_at_offer now self.now packet + 1 ≤ result }
        ensures frees { (now : ℕ) → drops_at now self.now + 1 ≤ result }
    {
        self.queue.len() + 1
    }

    /// For how many acts there is to be room at `now`: one, and one for each packet that the queue
    /// drops where the link takes. The cost doesn't grow with what stays in the queue.
    #[inline(always)]
    pub fn room_at(&self, now: Time) -> usize
        requires { IsMoment now }
        ensures value { result ≡ drops_at now self.now + 1 }
        ensures sends { NothingWaitsWhereIdle self.now → (packet : Packet) → drops_at_offer now self.now packet + 1 ≤ result }
        ensures least { 1 ≤ result }
    {
        self.queue.drops_at(now) + 1
    }

    /// Offers a packet to the link: it is lost, or the queue drops it as it comes, or it enters the
    /// queue. An idle link takes from its queue at once. A packet that begins to be sent goes to
    /// the end of `out`, with the time of its arrival as its stamp.
    pub fn send(&mut self, cell: PacketCell, now: Time, acts: &mut Acts, out: &mut PacketChain)
        requires moment { IsMoment now }
        requires room { drops_at_offer now self.old cell.0 + 1 ≤ acts.old.room }
        requires sent { self.old.next_free ≡ None → self.old.sent < MOST_EVENTS }
        requires offered { self.old.offered < 2 ^ 100 }
        requires chain { self.old.next_free ≡ None → length out.old < MOST_EVENTS }
        ensures state { self.new ≡ (offered_one now self.old cell.0).port }
        ensures departed { out.new ≡ out.old ++ departed (offered_one now self.old cell.0).departure }
        ensures acts { acts.new.acts ≡ acts.old.acts ++ (offered_one now self.old cell.0).acts }
        ensures places { acts.new.room + length acts.new.acts ≡ acts.old.room + length acts.old.acts }

        // What follows from these for a caller that offers several packets in a row.
        ensures few { acts.old.room ≤ acts.new.room + (drops_at_offer now self.old cell.0 + 1) }
        ensures counted { self.new.offered ≡ self.old.offered + 1 }
        ensures idle_still { self.new.next_free ≡ None → (self.old.next_free ≡ None) × (self.new.sent ≡ self.old.sent) × (out.new ≡ out.old) }
        ensures caught_up { NothingWaitsWhereIdle self.old → NothingWaitsWhereIdle self.new }
    {
        self.offer(cell, now, acts, out);
    }

    // The same: the packet is lost, or it comes to the queue.
    #[inline(always)]
    fn offer(&mut self, cell: PacketCell, now: Time, acts: &mut Acts, out: &mut PacketChain)
        requires moment { IsMoment now }
        requires room { drops_at_offer now self.old cell.0 + 1 ≤ acts.old.room }
        requires sent { self.old.next_free ≡ None → self.old.sent < MOST_EVENTS }
        requires offered { self.old.offered < 2 ^ 100 }
        requires chain { self.old.next_free ≡ None → length out.old < MOST_EVENTS }
        ensures state { self.new ≡ (offered_one now self.old cell.0).port }
        ensures departed { out.new ≡ out.old ++ departed (offered_one now self.old cell.0).departure }
        ensures acts { acts.new.acts ≡ acts.old.acts ++ (offered_one now self.old cell.0).acts }
        ensures places { acts.new.room + length acts.new.acts ≡ acts.old.room + length acts.old.acts }
    {
        if self.losses.count() {
            drop_cell(cell, self.link, DropReason::Lost, acts);
        } else {
            self.admit(cell, now, acts, out);
        }
    }

    // A packet that is not lost passes through the queue, or is offered to it.
    #[inline(always)]
    fn admit(&mut self, cell: PacketCell, now: Time, acts: &mut Acts, out: &mut PacketChain)
        requires moment { IsMoment now }
        requires room { drops_at_offer now self.old cell.0 + 1 ≤ acts.old.room }
        requires sent { self.old.next_free ≡ None → self.old.sent < MOST_EVENTS }
        requires chain { self.old.next_free ≡ None → length out.old < MOST_EVENTS }
        ensures state { self.new ≡ (admitted now self.old cell.0).port }
        ensures departed { out.new ≡ out.old ++ departed (admitted now self.old cell.0).departure }
        ensures acts { acts.new.acts ≡ acts.old.acts ++ (admitted now self.old cell.0).acts }
        ensures places { acts.new.room + length acts.new.acts ≡ acts.old.room + length acts.old.acts }
    {
        if self.is_open() {
            self.begin(Some(cell), now, acts, out);
        } else {
            self.enqueue(cell, now, acts, out);
        }
    }

    // The queue refuses the packet, or the packet enters and an idle link takes.
    #[inline(always)]
    fn enqueue(&mut self, cell: PacketCell, now: Time, acts: &mut Acts, out: &mut PacketChain)
        requires moment { IsMoment now }
        requires room { drops_at_offer now self.old cell.0 + 1 ≤ acts.old.room }
        requires sent { self.old.next_free ≡ None → self.old.sent < MOST_EVENTS }
        requires chain { self.old.next_free ≡ None → length out.old < MOST_EVENTS }
        ensures state { self.new ≡ (admitted now self.old cell.0).port }
        ensures departed { out.new ≡ out.old ++ departed (admitted now self.old cell.0).departure }
        ensures acts { acts.new.acts ≡ acts.old.acts ++ (admitted now self.old cell.0).acts }
        ensures places { acts.new.room + length acts.new.acts ≡ acts.old.room + length acts.old.acts }
    {
        match self.queue.offer(cell, now) {
            Offered::Dropped(cell, reason) => {
                drop_cell(cell, self.link, DropReason::Offer(reason), acts);
            }
            Offered::Entered => self.take_if_idle(now, acts, out),
        }
    }

    // An idle link takes at once.
    #[inline(always)]
    fn take_if_idle(&mut self, now: Time, acts: &mut Acts, out: &mut PacketChain)
        requires moment { IsMoment now }
        requires room { (if is_none self.old.next_free then drops_at now self.old else 0) + 1 ≤ acts.old.room }
        requires sent { self.old.next_free ≡ None → self.old.sent < MOST_EVENTS }
        requires chain { self.old.next_free ≡ None → length out.old < MOST_EVENTS }
        ensures state { self.new ≡ (taken_if_idle now self.old).port }
        ensures departed { out.new ≡ out.old ++ departed (taken_if_idle now self.old).departure }
        ensures acts { acts.new.acts ≡ acts.old.acts ++ (taken_if_idle now self.old).acts }
        ensures places { acts.new.room + length acts.new.acts ≡ acts.old.room + length acts.old.acts }
    {
        if self.next_free.is_none() {
            self.take(now, acts, out);
        }
    }

    /// The link has sent a packet whole, and takes the next from its queue. A packet that begins
    /// to be sent goes to the end of `out`, with the time of its arrival as its stamp.
    pub fn free(&mut self, now: Time, acts: &mut Acts, out: &mut PacketChain)
        requires moment { IsMoment now }
        requires due { self.old.next_free ≡ Some now }
        requires room { drops_at now self.old + 1 ≤ acts.old.room }
        requires sent { self.old.sent < MOST_EVENTS }
        requires chain { length out.old < MOST_EVENTS }
        ensures state { self.new ≡ (taken now self.old).port }
        ensures departed { out.new ≡ out.old ++ departed (taken now self.old).departure }
        ensures acts { acts.new.acts ≡ acts.old.acts ++ (taken now self.old).acts }
        ensures places { acts.new.room + length acts.new.acts ≡ acts.old.room + length acts.old.acts }
        ensures few { acts.old.room ≤ acts.new.room + (drops_at now self.old + 1) }
        ensures caught_up { NothingWaitsWhereIdle self.new }
    {
        self.take(now, acts, out);
    }

    // Whether a packet that is offered would enter the queue and be given at once: the link is idle, and its queue
    // lets the packet pass.
    #[inline(always)]
    fn is_open(&self) -> bool
        ensures idle { IsTrue result → self.now.next_free ≡ None }
        ensures enters { IsTrue result → refuses self.now.queue ≡ false }
        ensures passes { IsTrue result → (packet : Packet) (now : ℕ) → taken_from (offered_to self.now.queue (packet, now) now) now ≡ record { dropped = []; given = Some (packet, now); queue = self.now.queue } }
    {
        self.next_free.is_none() && self.queue.lets_pass()
    }

    /// A port in the same state, with the packets that wait in cells of its own.
    pub fn copy(&self) -> Result<Port, AllocError>
        ensures { IfOk result (λ copy. copy ≡ self.now) }
    {
        let losses = self.losses.copy(self.alloc)?;
        let queue = self.queue.copy()?;
        Ok(Port {
            link: self.link,
            rate: self.rate,
            delay: self.delay,
            losses,
            sent: self.sent,
            next_free: self.next_free,
            queue,
            alloc: self.alloc,
        })
    }
}
