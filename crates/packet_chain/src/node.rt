//! What lies in the block of a cell that is in a chain.
use crate::packet::Packet;

/// A packet in a chain, and the way to the one behind it.
#[derive(Clone, Copy)]
pub struct ChainNode {
    /// The node behind this one. Of a chain's last node it means nothing.
    pub(crate) next: *mut ChainNode,
    /// The packet.
    pub(crate) packet: Packet,
    /// Its stamp, a time in nanoseconds.
    pub(crate) stamp: u64,
}

/// Where a node lies. It owns nothing.
#[derive(Clone, Copy)]
pub struct NodePointer {
    /// The node's address.
    pub(crate) at: *mut ChainNode,
}
