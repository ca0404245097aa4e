//! When a packet has waited too long (RFC 8289 section 5.6).
ghost use Rattle.std.specs.Prelude.{◌≡◌, ◌-◌, ◌||◌, not, nat_lt, nat_le, slice_get};
ghost use Rattle.sim_time.specs.Moment.{IsMoment};
ghost use Rattle.packet_chain.specs.Stamped.{bytes_of};
ghost use Rattle.aqm.specs.Judgement.{judged, judgement, above_target};
ghost use Rattle.aqm.specs.Taken.{after_one};

use crate::codel::Codel;
use packet_chain::PacketCell;
use sim_time::Time;

/// The packet at the head of the queue, taken out and judged (`dodequeue`).
#[derive(Drop)]
pub(super) struct Head {
    /// The packet, if there was one.
    pub(super) cell: Option<PacketCell>,
    /// Whether it may be dropped.
    pub(super) ok: bool,
}

impl Codel {
    // Takes the packet at the head out and judges it.
    pub(super) fn take_head(&mut self, now: Time) -> Head
        requires { IsMoment now }
        ensures cell { result.cell ≡ slice_get self.old.fifo.waiting 0 }
        ensures ok { result.ok ≡ (judgement self.old now 0).ok }
        ensures state { self.new ≡ after_one self.old now }
    {
        let cell = self.fifo.take();
        let ok = self.judge(&cell, now);
        Head { cell, ok }
    }

    // Whether a packet that was taken out may be dropped.
    fn judge(&mut self, head: &Option<PacketCell>, now: Time) -> bool
        requires { IsMoment now }
        ensures ok { result ≡ (judged self.old now head.now (bytes_of self.old.fifo.waiting) self.old.first_above).ok }
        ensures state { self.new ≡ record self.old { first_above = (judged self.old now head.now (bytes_of self.old.fifo.waiting) self.old.first_above).first_above } }
    {
        match head {
            Some(cell) if self.is_above_target(cell.stamp(), self.fifo.bytes(), now) => {
                self.was_above_long(now)
            }
            _ => {
                self.first_above = None;
                false
            }
        }
    }

    // Whether a packet that entered then has waited for the target at least, with so many bytes,
    // over maxpacket, left behind it.
    pub(super) fn is_above_target(&self, entered: Time, left: u64, now: Time) -> bool
        ensures { result ≡ not (nat_lt (now - entered) self.now.target || nat_le left self.now.maxpacket) }
    {
        now.saturating_sub(entered) >= self.target && left > u64::from(self.maxpacket)
    }

    // Whether packets have been above target for an interval.
    fn was_above_long(&mut self, now: Time) -> bool
        requires { IsMoment now }
        ensures ok { result ≡ (above_target self.old.interval now self.old.first_above).ok }
        ensures state { self.new ≡ record self.old { first_above = (above_target self.old.interval now self.old.first_above).first_above } }
    {
        match self.first_above {
            Some(first_above) => first_above <= now,
            None => {
                self.first_above = Some(now + self.interval);
                false
            }
        }
    }
}
