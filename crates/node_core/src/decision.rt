//! What is decided of an event, before its node's links and its event queue change.

use crate::timer::Timer;
use packet_chain::{Packet, PacketChain};
use sim_time::Time;

/// What is decided of an event, with all memory taken. The node's role has taken the event already.
#[derive(Drop)]
pub enum Decision {
    /// Nothing is to be done but that the event leaves.
    Leave,
    /// The packet that arrives is offered, in its cell, to the link of this index.
    PassOn(u16),
    /// The link of this index has sent a packet whole, and takes the next from its queue.
    TakeNext(u16),
    /// The packets of a flow's end are offered to its link, and its timer moves.
    Send(Sending),
}

/// What a flow's end sends, and when its timer ends.
#[derive(Drop)]
pub struct Sending {
    /// The packets that have cells of their own, in their order.
    pub cells: PacketChain,
    /// The packet behind them, which takes the cell of the packet that arrives.
    pub last: Option<Packet>,
    /// The timer.
    pub timer: Timer,
    /// When it ends from now on, in nanoseconds; none: it is off.
    pub time: Option<Time>,
}
