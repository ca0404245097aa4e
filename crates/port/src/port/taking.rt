//! What a link takes from its queue, and begins to send.
ghost use Rattle.std.specs.Prelude.{◌≡◌, None, ◌+◌, ◌<◌, ◌≤◌, [], ◌∷◌, ◌++◌, map, length};
ghost use Rattle.sim_time.specs.Moment.{IsMoment};
ghost use Rattle.sim_time.specs.Serial.{serial};
ghost use Rattle.sim_time.specs.declared.limits.TheConstants.{MOST_EVENTS};
ghost use Rattle.port.specs.Port.{begun, dropped_for, taken, departed};
ghost use Rattle.port.specs.Room.{drops_at};

use super::Port;
use crate::acts::{Act, Acts};
use aqm::{DropReason, TakeDrop};
use packet_chain::{Packet, PacketCell, PacketChain};
use sim_time::{Rate, Time, serial_ns};

impl Port {
    /// Takes from the queue, and begins to send what it gives.
    pub(super) fn take(&mut self, now: Time, acts: &mut Acts, out: &mut PacketChain)
        requires moment { IsMoment now }
        requires room { drops_at now self.old + 1 ≤ acts.old.room }
        requires sent { self.old.sent < MOST_EVENTS }
        requires chain { length out.old < MOST_EVENTS }
        ensures state { self.new ≡ (taken now self.old).port }
        ensures departed { out.new ≡ out.old ++ departed (taken now self.old).departure }
        ensures acts { acts.new.acts ≡ acts.old.acts ++ (taken now self.old).acts }
        ensures places { acts.new.room + length acts.new.acts ≡ acts.old.room + length acts.old.acts }
        ensures idle { self.new.next_free ≡ None → (self.new.sent ≡ self.old.sent) × (out.new ≡ out.old) }
    {
        if self.queue.may_drop() {
            self.take_dropping(now, acts, out);
        } else {
            // Nothing is dropped, so no chain is needed for that.
            let head = self.queue.take_head();
            self.begin(head, now, acts, out);
        }
    }

    // The same where something may be dropped: what is dropped is told before what is sent.
    #[inline(never)]
    fn take_dropping(&mut self, now: Time, acts: &mut Acts, out: &mut PacketChain)
        requires moment { IsMoment now }
        requires room { drops_at now self.old + 1 ≤ acts.old.room }
        requires sent { self.old.sent < MOST_EVENTS }
        requires chain { length out.old < MOST_EVENTS }
        ensures state { self.new ≡ (taken now self.old).port }
        ensures departed { out.new ≡ out.old ++ departed (taken now self.old).departure }
        ensures acts { acts.new.acts ≡ acts.old.acts ++ (taken now self.old).acts }
        ensures places { acts.new.room + length acts.new.acts ≡ acts.old.room + length acts.old.acts }
        ensures idle { self.new.next_free ≡ None → (self.new.sent ≡ self.old.sent) × (out.new ≡ out.old) }
    {
        let mut dropped = PacketChain::new(self.alloc);
        let reason = self.queue.take_reason();
        let given = self.queue.take(now, &mut dropped);
        tell_drops(dropped, self.link, reason, acts);
        self.begin(given, now, acts, out);
    }

    // Begins to send what the queue has given; with nothing the link is idle.
    #[inline(always)]
    pub(super) fn begin(
        &mut self,
        given: Option<PacketCell>,
        now: Time,
        acts: &mut Acts,
        out: &mut PacketChain,
    )
        requires moment { IsMoment now }
        requires room { 1 ≤ acts.old.room }
        requires sent { self.old.sent < MOST_EVENTS }
        requires chain { length out.old < MOST_EVENTS }
        ensures state { self.new ≡ (begun now self.old given).port }
        ensures departed { out.new ≡ out.old ++ departed (begun now self.old given).departure }
        ensures acts { acts.new.acts ≡ acts.old.acts ++ (begun now self.old given).acts }
        ensures places { acts.new.room + length acts.new.acts ≡ acts.old.room + length acts.old.acts }
        ensures idle { self.new.next_free ≡ None → (self.new.sent ≡ self.old.sent) × (out.new ≡ out.old) }
    {
        let Some(mut cell) = given else {
            self.next_free = None;
            return;
        };
        let free = now + packet_time(&cell.packet(), self.rate);
        self.sent += 1;
        self.next_free = Some(free);
        acts.push(Act::Tx(self.link, cell.packet()));
        cell.set_stamp(free + self.delay);
        out.push_back(cell);
    }
}

// How long a link of this rate takes to send a packet, in nanoseconds.
fn packet_time(packet: &Packet, rate: Rate) -> Time
    ensures value { result ≡ serial packet.now.bytes rate }
    ensures fits { result ≤ 72320000000 }
{
    serial_ns(u64::from(packet.bytes.get()), rate)
}

// Frees the cells of packets that a queue dropped at a take, and tells of each.
fn tell_drops(mut dropped: PacketChain, link: u16, reason: TakeDrop, acts: &mut Acts)
    requires { length dropped ≤ acts.old.room }
    ensures acts { acts.new.acts ≡ acts.old.acts ++ map (dropped_for link reason) dropped }
    ensures places { acts.new.room + length acts.new.acts ≡ acts.old.room + length acts.old.acts }
{
    while let Some(cell) = dropped.pop_front() {
        drop_cell(cell, link, DropReason::Take(reason), acts);
    }
}

/// Frees the cell of a packet that is dropped, and tells why. Out of line, as few are.
#[inline(never)]
pub(super) fn drop_cell(cell: PacketCell, link: u16, reason: DropReason, acts: &mut Acts)
    requires { 1 ≤ acts.old.room }
    ensures acts { acts.new.acts ≡ acts.old.acts ++ Act.Dropped link reason cell.0 ∷ [] }
    ensures places { acts.new.room + length acts.new.acts ≡ acts.old.room + length acts.old.acts }
{
    acts.push(Act::Dropped(link, reason, cell.into_packet()));
}
