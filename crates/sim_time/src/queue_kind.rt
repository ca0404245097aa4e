//! Which of the queues a link has.

/// CoDel's parameters (RFC 8289 section 4).
#[derive(Clone, Copy)]
pub struct CodelParameters {
    /// The acceptable standing delay, in nanoseconds: 1 to 10^10.
    pub target: u64,
    /// The width of the moving window, in nanoseconds: 1 to 10^10.
    pub interval: u64,
    /// With no more bytes than this left, nothing is dropped: 1 to 65,535 bytes.
    pub maxpacket: u16,
}

/// How a link's queue drops packets.
#[derive(Clone, Copy)]
pub enum QueueKind {
    /// Only what comes while it is full.
    DropTail,
    /// Also by CoDel, as packets leave it.
    Codel(CodelParameters),
}
