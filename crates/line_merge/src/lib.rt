//! The lines of several lists in the order of their keys: by threads, each a part of them, or all at
//! once.
#![tactic(auto)]

pub mod batch;
pub mod merge;
pub mod sheaf;

pub use batch::Batch;
pub use merge::spot::Spot;
pub use sheaf::{Cursor, Lines, Sheaf};
