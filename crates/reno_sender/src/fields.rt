//! What a sender keeps.

use sim_time::{Time, Variant};

/// The segment whose round trip is being timed (RFC 6298 section 3).
#[derive(Clone, Copy)]
pub struct Timing {
    /// The acknowledgement number that ends the timing: the byte after the timed segment.
    pub number: u64,
    /// When the segment was sent, in nanoseconds.
    pub sent_at: Time,
}

/// All that a sender keeps of its flow. Byte numbers count from 0. What is small stands together at the end, so that
/// no bytes between are copied with it.
#[derive(Clone, Copy)]
pub struct SenderFields {
    /// Bytes of data in a segment: 1 to 9,000.
    pub mss: u64,
    /// How many segments the flow has: 1 to 10^9.
    pub segments: u64,
    /// The receiver's window, in bytes: mss to 2^30. It stays.
    pub rwnd: u64,
    /// The first byte that is not acknowledged yet.
    pub una: u64,
    /// The next byte to send.
    pub nxt: u64,
    /// The greatest `nxt` so far.
    pub high: u64,
    /// The congestion window, in bytes.
    pub cwnd: u64,
    /// The slow start threshold, in bytes.
    pub ssthresh: u64,
    /// Duplicate acknowledgements since the last new one.
    pub dups: u64,
    /// Bytes sent by limited transmit since the last new acknowledgement (RFC 5681 section 3.2 step
    /// 1, RFC 3042).
    pub lt: u64,
    /// What `high` was when the last loss was found: the byte number that ends recovery; none before the
    /// first loss, and with Reno (RFC 6582 section 3.2).
    pub recover: Option<u64>,
    /// The segment that is timed, if one is.
    pub timing: Option<Timing>,
    /// The smoothed round-trip time in nanoseconds; none before the first sample.
    pub srtt: Option<u64>,
    /// The round-trip time's variation, in nanoseconds.
    pub rttvar: u64,
    /// The retransmission timeout, in nanoseconds.
    pub rto: u64,
    /// When the retransmission timer ends; none where it is off.
    pub deadline: Option<Time>,
    /// Whether the sender is in fast recovery (RFC 5681 section 3.2).
    pub recovery: bool,
    /// Whether a partial acknowledgement has come in this recovery or, outside one, in the last; never with
    /// Reno (RFC 6582 section 3.2 step 3).
    pub partial: bool,
    /// Whether the timer resent the segment at `una`.
    pub resent: bool,
    /// Which sender it is. It stays.
    pub variant: Variant,
}
