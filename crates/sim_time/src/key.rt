//! What events are ordered by.
ghost use Rattle.std.specs.Prelude.{◌≡◌};
ghost use Rattle.sim_time.specs.Keys.{key_cmp};

use crate::Time;
use std::cmp::Ordering;

/// When and where an event is due, and what made it. Events run in the order of these four
/// numbers, the first that differs deciding.
#[derive(Clone, Copy, Debug, PartialEq, Eq, PartialOrd, Ord)]
pub struct Key {
    /// When the event is due, in nanoseconds.
    pub time: Time,
    /// The node at which it is due.
    pub node: u16,
    /// 0 for a timer of the node itself; for a packet that arrives, one more than its link's number.
    pub source: u16,
    /// Which timer of the node it is; for a packet, how many packets its link had sent with it.
    pub number: u64,
}

/// The order of two keys: by time, then node, then source, then number.
pub fn key_order(a: &Key, b: &Key) -> Ordering
    ensures { result ≡ key_cmp a.now b.now }
{
    a.cmp(b)
}
