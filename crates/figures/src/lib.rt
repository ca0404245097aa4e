//! What is counted of a run: of each sender and each link, event by event, so that no trace is needed.
#![tactic(auto)]

pub mod classes;
mod exits;
pub mod figures;
pub mod guarantees;
mod link;
mod links;
mod reported;
mod sender;
pub mod tally;
mod turn;
mod waits;
mod watching;

pub use figures::Figures;
pub use link::LinkFigures;
pub use links::NodeLinks;
pub use sender::SenderFigures;
pub use tally::Tally;
