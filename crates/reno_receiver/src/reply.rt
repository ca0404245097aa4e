//! What a receiver answers a segment with.

use sim_time::Time;

/// What a receiver answers a segment with.
#[derive(Clone, Copy)]
pub enum Reply {
    /// An acknowledgement, now: the number of the first byte that has not come.
    AckNow(u64),
    /// No acknowledgement yet: one is due at this moment, in nanoseconds.
    Wait(Time),
}
