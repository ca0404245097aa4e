//! Breakpoints: which events of a run match one, and what is read of the states before and after them.
#![tactic(auto)]

pub mod breaks;
pub mod seen;
pub mod values;

pub use breaks::{Break, BreakFault, Breaks, Condition, EventKind, Hit, StallOf, is_among};
pub use seen::{Seen, SeenLink, SeenValue};
pub use values::{
    Asked, Bound, Owner, Phase, Reading, Sign, Test, VALUES, Value, ValueCondition, ValueOf, Values,
};
