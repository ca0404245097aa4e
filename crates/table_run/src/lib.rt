//! The written tables run one event at a time: the initial state of a scenario, the step, the run,
//! and what holds of every run of every scenario.
#![tactic(auto)]

pub mod laws;
