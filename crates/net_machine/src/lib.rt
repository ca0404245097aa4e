//! The network: its nodes, ranked by the times of their next keys, and one event at a time.
#![tactic(auto)]

mod due;
mod initial;
pub mod net;
pub mod nodes;
pub mod places;
pub mod region;

pub use due::Due;
pub use net::parts::{NetParts, Spare};
pub use net::{Net, StepFault};
pub use nodes::Nodes;
pub use places::{EndPlace, LinkEnds};
pub use region::{Region, run_event};
