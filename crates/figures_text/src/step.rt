//! What the rows of a step say. All times are in nanoseconds.

use crate::summary::FlowSummary;

/// A sender's window at the end of a step.
#[derive(Clone, Copy)]
pub struct SenderWindow {
    /// The congestion window, in bytes.
    pub cwnd: u64,
    /// The bytes in flight.
    pub in_flight: u64,
}

/// The figures of a flow in a step.
#[derive(Clone, Copy)]
pub struct FlowStep {
    /// What was counted from the step's begin on.
    pub counts: FlowSummary,
    /// Its sender's window; none where it has not started.
    pub window: Option<SenderWindow>,
}

/// A step: from a moment on, and before another.
#[derive(Clone, Copy)]
pub struct Span {
    /// When it begins.
    pub begin: u64,
    /// When it has ended.
    pub until: u64,
}
