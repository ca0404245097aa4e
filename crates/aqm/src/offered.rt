//! What a queue answers to a packet.
use crate::drop_reason::OfferDrop;
use packet_chain::PacketCell;

/// What a queue answers to a packet that is offered.
#[derive(Drop)]
pub enum Offered {
    /// The packet is the last of the queue now, stamped with the moment.
    Entered,
    /// The queue drops it: here is the packet, as it came, and why.
    Dropped(PacketCell, OfferDrop),
}
