//! The two queues of a link: drop-tail, and CoDel with its control law (RFC 8289).
//!
//! A queue is seen as the list of the packets that wait, each with the moment at which it
//! entered. Packets move in their cells: nothing here takes memory but a copy.
#![tactic(auto)]

pub mod codel;
pub mod drop_reason;
pub mod drop_tail;
pub mod guarantees;
pub mod offered;
pub mod queue;
pub mod readout;
pub mod waits;

pub use codel::Codel;
pub use drop_reason::{DropReason, OfferDrop, REASONS, TakeDrop};
pub use drop_tail::DropTail;
pub use guarantees::{
    drop_tail_keeps_what_entered, drops_come_closer, drops_stop_at_the_first_stop,
    every_drop_has_a_cause, gives_what_waits, queues_stay, takes_the_front,
};
pub use offered::Offered;
pub use queue::Queue;
pub use readout::Readout;
