//! A scenario's run by windows: what is run next, by how many workers, and where its lines go.
#![tactic(auto)]

mod advance;
mod call;
mod engine;
mod fault;
mod granularity;
mod lines;
mod pipeline;
mod run_state;
mod singly;
mod slice;

pub use engine::Engine;
pub use fault::{EngineFault, Stop};
pub use granularity::{Load, Turnout, is_late, lateness, load_of, next_stretch};
pub use slice::{FIRST_SLICE, next_slice};
pub use window_text::{MOST_PARTS, OverWrite, Sink, SinkFail, most_shares, put_all, share_of};
pub use window_workers::{Alone, Gate, Hands, Several, WORTH};
