//! Workers that run one window's groups together, and make text of its lines.
#![tactic(auto)]

mod apart;
mod fault;
mod gate;
mod gather;
mod in_turn;
mod job;
mod pieces;
mod several;
mod sweep;
mod text_state;
mod threads;
mod window_job;
mod work;
mod workers;

pub use fault::WorkersFault;
pub use gate::{Gate, WORTH};
pub use in_turn::run_in_turn;
pub use job::Job;
pub use several::{Alone, Hands, Several};
pub use text_state::TextState;
pub use window_job::WindowJob;
pub use workers::{WindowWorkers, lacks_threads};
