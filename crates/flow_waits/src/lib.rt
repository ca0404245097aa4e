//! What a flow waits for in a state of a net, as text, and whether it is stalled.
#![tactic(auto)]

mod awaited;
mod becomes;
mod flow_status;
pub mod guarantees;
mod names;
mod queues;
mod sentence;
mod stalled;
mod timer;
mod waits;

pub use becomes::{becomes_stalled, some_becomes_stalled};
pub use names::{PartNames, ScenarioNames};
pub use stalled::is_stalled;
pub use waits::waits_text;
