//! What a take drops and gives (RFC 8289 section 5.5).
ghost use Rattle.std.specs.Prelude.{◌≡◌, ◌≤◌, ◌<◌, ◌^◌, ◌++◌, ◌∷◌, [], length, true, false, slice_get, IsSome, IfSome};
ghost use Rattle.sim_time.specs.Moment.{IsMoment};
ghost use Rattle.aqm.specs.Codel.{IsCodel};
ghost use Rattle.aqm.specs.Judgement.{judgement};
ghost use Rattle.aqm.specs.OneDrop.{after_drop};
ghost use Rattle.aqm.specs.Taken.{codel_taken, first_count, drop_state_begun};

use crate::codel::Codel;
use crate::codel::judge::Head;
use packet_chain::{PacketCell, PacketChain};
use sim_time::{Time, gap};

impl Codel {
    /// Takes the next packet out; those that are dropped on the way are put at the end of
    /// `dropped`.
    pub fn take(&mut self, now: Time, dropped: &mut PacketChain) -> Option<PacketCell>
        requires moment { IsMoment now }
        requires room { length dropped.old ≤ 2 ^ 49 }
        ensures given { result ≡ (codel_taken self.old now).given }
        ensures dropped { dropped.new ≡ dropped.old ++ (codel_taken self.old now).dropped }
        ensures state { self.new ≡ (codel_taken self.old now).queue }
    {
        if self.dropping {
            self.take_dropping(now, dropped)
        } else {
            self.take_before_drops(now, dropped)
        }
    }

    // In drop state: drops packets as long as they may be dropped and their drops are due.
    fn take_dropping(&mut self, now: Time, dropped: &mut PacketChain) -> Option<PacketCell>
        requires moment { IsMoment now }
        requires room { length dropped.old ≤ 2 ^ 49 }
        requires dropping { self.old.dropping ≡ true }
        requires sound { IsCodel self.old }
        ensures given { result ≡ (codel_taken self.old now).given }
        ensures dropped { dropped.new ≡ dropped.old ++ (codel_taken self.old now).dropped }
        ensures state { self.new ≡ (codel_taken self.old now).queue }
    {
        let mut head = self.take_head(now);
        while head.ok && self.drop_next <= now {
            head = self.drop_head(head, now, dropped);
        }
        self.dropping = head.ok;
        let Head { cell, ok: _ } = head;
        cell
    }

    // Drops a packet that was taken out, and takes the next; where that one may be dropped too,
    // its drop is due a gap later.
    fn drop_head(&mut self, head: Head, now: Time, dropped: &mut PacketChain) -> Head
        requires moment { IsMoment now }
        requires room { length dropped.old < 2 ^ 50 }
        requires some { IsSome head.cell }
        requires due { self.old.drop_next ≤ now }
        ensures cell { result.cell ≡ slice_get self.old.fifo.waiting 0 }
        ensures ok { result.ok ≡ (judgement self.old now 0).ok }
        ensures dropped { IfSome head.cell (λ cell. dropped.new ≡ dropped.old ++ cell ∷ []) }
        ensures state { self.new ≡ after_drop self.old now }
    {
        let Head { cell, ok: _ } = head;
        dropped.push_back(cell.unwrap());
        self.count = self.count.saturating_add(1);
        let next = self.take_head(now);
        if next.ok {
            self.drop_next += gap(self.interval, self.count);
        }
        next
    }

    // Outside of drop state: where the packet at the head may be dropped, it is, and drop state
    // begins.
    fn take_before_drops(&mut self, now: Time, dropped: &mut PacketChain) -> Option<PacketCell>
        requires moment { IsMoment now }
        requires room { length dropped.old ≤ 2 ^ 49 }
        requires dropping { self.old.dropping ≡ false }
        ensures given { result ≡ (codel_taken self.old now).given }
        ensures dropped { dropped.new ≡ dropped.old ++ (codel_taken self.old now).dropped }
        ensures state { self.new ≡ (codel_taken self.old now).queue }
    {
        let Head { cell, ok } = self.take_head(now);
        if !ok {
            return cell;
        }
        dropped.push_back(cell.unwrap());
        let Head { cell, ok: _ } = self.take_head(now);
        self.begin_drops(now);
        cell
    }

    // Begins drop state after the first drop.
    fn begin_drops(&mut self, now: Time)
        requires { IsMoment now }
        ensures { self.new ≡ drop_state_begun self.old now }
    {
        let count = self.first_count(now);
        self.drop_next = now + gap(self.interval, count);
        self.count = count;
        self.lastcount = count;
        self.dropping = true;
    }

    // The count with which drop state begins: where the last one is recent, it goes on from
    // where that one had come.
    fn first_count(&self, now: Time) -> u32
        ensures value { result ≡ first_count self.now now }
        ensures least { 1 ≤ result }
    {
        let delta = self.count.saturating_sub(self.lastcount);
        if delta > 1 && now.saturating_sub(self.drop_next) < 16 * self.interval {
            delta
        } else {
            1
        }
    }
}
