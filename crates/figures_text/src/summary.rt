//! What the table says of a run. All times are in nanoseconds.
use aqm::REASONS;

/// The figures of a flow.
#[derive(Clone, Copy)]
pub struct FlowSummary {
    /// When it starts.
    pub start: u64,
    /// The bytes that its receiver has in order.
    pub delivered: u64,
    /// When all its bytes were acknowledged; none where the run ended before.
    pub completed: Option<u64>,
    /// The segments that were sent, new or again.
    pub sent: u128,
    /// Those that were sent again by fast retransmit and in recovery (RFC 5681 section 3.2).
    pub again_in_recovery: u128,
    /// Those that were sent again otherwise.
    pub again_otherwise: u128,
    /// How often the retransmission timer ended (RFC 6298 section 5).
    pub timeouts: u64,
    /// How many round trips were timed (RFC 6298 section 3).
    pub round_trips: u64,
    /// The least of them; none where none was timed, as the next four.
    pub least: Option<u64>,
    /// Their median.
    pub median: Option<u64>,
    /// Their 95th percentile.
    pub high: Option<u64>,
    /// Their 99th percentile.
    pub highest: Option<u64>,
    /// The greatest of them.
    pub greatest: Option<u64>,
}

/// The figures of a link.
#[derive(Clone, Copy)]
pub struct LinkSummary {
    /// The packets that were offered to it.
    pub offered: u128,
    /// Those that were dropped, by the place of the reason among all.
    pub dropped: [u128; REASONS],
    /// Those that it began to send.
    pub sent: u128,
    /// The bytes of those.
    pub bytes: u128,
    /// How long it was sending.
    pub busy: u128,
    /// The most packets that waited at once.
    pub longest: u64,
    /// The packets that waited, each times for how long.
    pub waited: u128,
    /// The median of the delays in its queue; none where no packet left it, as the next three.
    pub median: Option<u64>,
    /// Their 95th percentile.
    pub high: Option<u64>,
    /// Their 99th percentile.
    pub highest: Option<u64>,
    /// The greatest of them.
    pub greatest: Option<u64>,
}

/// The figures of a run as a whole.
#[derive(Clone, Copy)]
pub struct RunSummary {
    /// How many events it had.
    pub events: u64,
    /// When the last of them was; none where there was none.
    pub end: Option<u64>,
}
