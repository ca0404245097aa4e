//! How long a packet waits before a take gives it.
ghost use Rattle.std.specs.Prelude.{◌≡◌, ◌-◌, ◌≤◌, slice_get, IfSome};
ghost use Rattle.std.specs.Option.{option_map};
ghost use Rattle.sim_time.specs.Moment.{IsMoment};
ghost use Rattle.packet_chain.specs.Stamped.{Stamped};
ghost use Rattle.aqm.specs.Queue.{taken_from};
ghost use Rattle.aqm.specs.Taken.{codel_taken};

use crate::codel::Codel;
use crate::drop_tail::DropTail;
use crate::queue::Queue;
use sim_time::Time;

// For how long the packet has waited that drop-tail gives, if it gives one: it is the first, and none is dropped.
#[inline(always)]
fn wait_at_head(queue: &DropTail, now: Time) -> Option<Time>
    ensures value { result ≡ option_map (λ (cell : Stamped). now - cell.1) (slice_get queue.now.waiting 0) }
    ensures most { IfSome result (λ wait. wait ≤ now) }
{
    match queue.packets().next() {
        Some((_, entered)) => Some(now.saturating_sub(entered)),
        None => None,
    }
}

// The same of CoDel, which gives the packet behind those that it drops.
#[inline(always)]
fn wait_behind_drops(queue: &Codel, now: Time) -> Option<Time>
    requires { IsMoment now }
    ensures value { result ≡ option_map (λ (cell : Stamped). now - cell.1) (codel_taken queue.now now).given }
    ensures most { IfSome result (λ wait. wait ≤ now) }
{
    let drops = queue.drops_at(now);
    match queue.packets().nth(drops) {
        Some((_, entered)) => Some(now.saturating_sub(entered)),
        None => None,
    }
}

impl Queue {
    /// For how long the packet has waited, in nanoseconds, that a take at `now` would give, if it
    /// would give one. The cost doesn't grow with what stays.
    #[inline(always)]
    pub fn wait_at(&self, now: Time) -> Option<Time>
        requires { IsMoment now }
        ensures value { result ≡ option_map (λ (cell : Stamped). now - cell.1) (taken_from self.now now).given }
        ensures most { IfSome result (λ wait. wait ≤ now) }
    {
        match self {
            Queue::DropTail(queue) => wait_at_head(queue, now),
            Queue::Codel(queue) => wait_behind_drops(queue, now),
        }
    }
}
