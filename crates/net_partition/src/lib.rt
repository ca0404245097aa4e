//! Which group each node of a net is in: by numbers that are given, or found for a number of workers.
#![tactic(auto)]

mod found;
mod partition;

pub use partition::Partition;
