//! A link's sending side: which packets are lost, which wait in its queue, and which are sent.
//!
//! A port knows no nodes and no pending events: it answers which packet departs and when the link
//! is free again, and its caller makes events of that. A packet's cell is only moved: into the
//! queue, and from there into the chain that the caller gives. Nothing here takes memory but a
//! copy and the room for acts.
#![tactic(auto)]

pub mod acts;
pub mod guarantees;
mod losses;
pub mod port;

pub use acts::{Act, Acts};
pub use aqm::{DropReason, OfferDrop, TakeDrop};
pub use guarantees::{
    a_busy_link_begins_nothing, arrivals_rise, drop_tail_drops_nothing_that_entered,
    every_codel_drop_has_a_cause, every_packet_has_one_fate, every_packet_is_counted,
    idle_links_keep_nothing,
};
pub use port::Port;
