//! Windows: the net split into groups of nodes that run apart up to a common end.
#![tactic(auto)]

pub mod ahead;
mod collecting;
mod giving;
pub mod laws;
pub mod window;

pub use ahead::{lookahead, window_end};
pub use line_merge::{Batch, Cursor, Sheaf};
pub use net_partition::Partition;
pub use node_group::{Group, GroupFault, run_group};
pub use window::{Action, TurnFault, Window};
