//! The event that is due.
use sim_time::Time;

/// At which node an event is due, and when.
#[derive(Clone, Copy)]
pub struct Due {
    /// The node's place.
    pub place: usize,
    /// The event's moment, in nanoseconds.
    pub time: Time,
}
