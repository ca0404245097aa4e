//! What a flow's sender is told.

use crate::variant::Variant;

/// What a sender is told before it sends anything.
#[derive(Clone, Copy)]
pub struct SenderSettings {
    /// Bytes of data in a segment: 1 to 9,000.
    pub mss: u64,
    /// How many segments are sent: 1 to 10^9.
    pub segments: u64,
    /// The receiver's window, in bytes: mss to 2^30.
    pub rwnd: u64,
    /// Which sender the flow has.
    pub variant: Variant,
}
