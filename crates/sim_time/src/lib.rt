//! Time, the order of events, and the three formulas that need nothing else: how long a packet
//! takes to be put on a wire, a sender's initial window, and how far apart CoDel's drops are.
//!
//! Every quantity is a whole number: nanoseconds, bytes, bits a second.
#![tactic(auto)]

pub mod control_law;
pub mod key;
pub mod limits;
pub mod queue_kind;
pub mod rate;
pub mod settings;
pub mod slow_start;
pub mod variant;

pub use control_law::{gap, gaps_shrink};
pub use key::{Key, key_order};
pub use limits::{LATEST_END, MOST_EVENTS};
pub use queue_kind::{CodelParameters, QueueKind};
pub use rate::{Rate, serial_ns};
pub use settings::SenderSettings;
pub use slow_start::initial_window;
pub use variant::{Iw, RENO, Variant};

/// A moment or a span: nanoseconds.
pub type Time = u64;
