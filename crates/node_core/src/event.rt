//! What can be due at a node.

use packet_chain::Packet;

/// What is due at a node.
#[derive(Clone, Copy, PartialEq, Eq)]
pub enum Event {
    /// The flow of this number starts, at its sender.
    Start(u16),
    /// The retransmission timer of the flow's sender ends (RFC 6298 section 5).
    Rto(u16),
    /// The flow's receiver has delayed its acknowledgement as long as it may (RFC 5681 section
    /// 4.2).
    DelAck(u16),
    /// The link of this number has sent a packet whole.
    Free(u16),
    /// A packet arrives.
    Arrive(Packet),
}
