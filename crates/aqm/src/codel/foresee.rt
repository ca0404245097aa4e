//! How many packets a take drops, seen without taking: a look at those alone, and at the one
//! behind them.
ghost use Rattle.std.specs.Prelude.{◌≡◌, ◌≤◌, length, IsSomeAnd};
ghost use Rattle.sim_time.specs.Moment.{IsMoment};
ghost use Rattle.aqm.specs.Codel.{IsCodel};
ghost use Rattle.aqm.specs.Judgement.{judgement};
ghost use Rattle.aqm.specs.Drops.{drops};
ghost use Rattle.aqm.specs.Taken.{codel_taken};

use crate::codel::Codel;
use sim_time::{Time, gap};

impl Codel {
    /// How many packets a take at `now` drops. The cost doesn't grow with what stays.
    pub fn drops_at(&self, now: Time) -> usize
        requires { IsMoment now }
        ensures value { result ≡ length (codel_taken self.now now).dropped }
        ensures limit { result ≤ 65535 }
    {
        match self.first_above {
            Some(first_above) if first_above <= now => self.drops_above(now),
            _ => 0,
        }
    }

    // How many packets a take drops once they have been above target for an interval.
    fn drops_above(&self, now: Time) -> usize
        requires moment { IsMoment now }
        requires above { IsSomeAnd self.now.first_above (λ t. t ≤ now) }
        ensures { result ≡ length (codel_taken self.now now).dropped }
    {
        if self.dropping {
            self.drops_due(now)
        } else {
            usize::from(self.head_may_be_dropped(now))
        }
    }

    // How many packets may be dropped, from the head, with their drops due.
    fn drops_due(&self, now: Time) -> usize
        requires moment { IsMoment now }
        requires above { IsSomeAnd self.now.first_above (λ t. t ≤ now) }
        requires sound { IsCodel self.now }
        ensures { result ≡ drops self.now now }
    {
        let mut dropped = 0;
        let mut left = self.fifo.bytes();
        let mut due = self.drop_next;
        let mut count = self.count;
        for (packet, entered) in self.fifo.packets() {
            left -= u64::from(packet.bytes.get());
            if now < due || !self.is_above_target(entered, left, now) {
                return dropped;
            }
            dropped += 1;
            count = count.saturating_add(1);
            due += gap(self.interval, count);
        }
        dropped
    }

    // Whether the packet at the head may be dropped.
    fn head_may_be_dropped(&self, now: Time) -> bool
        requires moment { IsMoment now }
        requires above { IsSomeAnd self.now.first_above (λ t. t ≤ now) }
        ensures { result ≡ (judgement self.now now 0).ok }
    {
        match self.fifo.packets().next() {
            Some((packet, entered)) => {
                let left = self.fifo.bytes() - u64::from(packet.bytes.get());
                self.is_above_target(entered, left, now)
            }
            None => false,
        }
    }
}
