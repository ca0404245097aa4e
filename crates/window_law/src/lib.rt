//! The law of windows, over the definitions of the run alone: nodes in groups that run apart up to a
//! common end come to the states and the lines of the run, whatever the schedule.
#![tactic(auto)]

pub mod laws;
