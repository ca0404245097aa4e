//! The Reno and the NewReno sender.
#![tactic(auto)]

pub mod congestion_control;
pub mod fields;
mod fill;
pub mod guarantees;
pub mod loss_recovery;
pub mod plan;
pub mod sender;
mod sending;
mod soundness;
pub mod timer;

pub use fields::{SenderFields, Timing};
pub use plan::{AckRun, Plan};
pub use sender::Sender;
pub use sim_time::{Iw, SenderSettings, Variant};
pub use timer::after_sample;
