//! A group of a net's nodes, which runs its events apart from others and keeps its messages to them
//! until they are handed over.
#![tactic(auto)]

mod area;
mod exits;
pub mod group;
mod group_state;
mod held;
mod nodes_by_number;
mod sharing;

pub use group::{Group, GroupFault, run_group};
pub use group_state::{GroupState, GroupStateParts};
pub use sharing::{rooms_of, share_out};
