//! The debugger: the state after any number of events of a scenario's run, forwards and backwards.
#![tactic(auto)]

mod aim;
mod backwards;
pub mod checkpoints;
mod course;
pub mod drops;
mod fault;
pub mod moves;
mod passed;
pub mod reached;
pub mod stalls;
mod to_stop;
mod under_way;
pub mod walk;
mod window_settings;

pub use drops::{DropsOf, PastDrop};
pub use fault::MoveFault;
pub use moves::Debugger;
pub use passed::{LastEvent, LineOrder, Stretch};
pub use stalls::StallAt;
