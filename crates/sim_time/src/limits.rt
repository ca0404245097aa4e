//! How long a run may be, and how many events it may have. What cites these holds for every scenario.

use crate::Time;

/// The latest end of a scenario, in nanoseconds: 1,000,000 seconds.
pub const LATEST_END: Time = 1_000_000_000_000_000;

/// The most events of a run.
pub const MOST_EVENTS: u64 = 1_000_000_000_000_000;
