//! The receiver of a flow: which segments have come, which acknowledgement is due, and when
//! (RFC 5681 section 4.2).
//!
//! A segment is known by the number of its first byte, which is a multiple of the segment's size.
#![tactic(auto)]

pub mod guarantees;
mod held;
pub mod receiver;
pub mod reply;

pub use guarantees::{data_keeps, initial_waits_for_byte_0, next_is_least_missing, timer_keeps};
pub use receiver::Receiver;
pub use reply::Reply;
