//! A session of the debugger: commands come in, and each command's answer goes out.
#![tactic(auto)]

pub mod dialogue;
mod display_text;
mod displaying;
mod missing;
mod moves;
pub mod prompt;
mod readout;
mod reply;
pub mod said;
pub mod session;
mod shown;
mod stall_list;
mod typed_move;
mod typed_reply;

pub use dialogue::Dialogue;
pub use prompt::answer_typed;
pub use reply::answer;
pub use said::Said;
pub use session::{DialogueFault, run_commands, run_session};
