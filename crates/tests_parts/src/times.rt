//! The control law, rates and initial windows.

mod control_law;
mod rate;
mod slow_start;
