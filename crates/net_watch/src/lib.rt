//! One loop over the events of a net, for whoever watches them.
#![tactic(auto)]

mod before;
mod both;
mod by_ref;
mod one_loop;
mod run_end;
mod two;
mod up_to;
mod watch;

pub use before::Before;
pub use both::Both;
pub use one_loop::run_watched;
pub use run_end::RunEnd;
pub use two::run_by_two;
pub use up_to::UpTo;
pub use watch::Watch;
