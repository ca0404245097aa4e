//! One node of the network: a sender, a receiver or a router, with its outgoing links, what is
//! pending at it, and what each of its events does.
#![tactic(auto)]

mod cells;
mod decision;
pub mod event;
mod event_queue;
mod events;
mod fire;
mod free_list;
pub mod initial;
pub mod line;
pub mod link;
mod node;
pub mod outbox;
mod passing;
mod pending;
mod receiver_node;
pub mod role;
mod router_node;
pub mod routes;
mod sender_node;
pub mod shown;
pub mod timer;
pub mod wire;

pub use event::Event;
pub use line::{After, Line};
pub use node::Node;
pub use outbox::Outbox;
pub use port::{Act, Acts, DropReason, OfferDrop, TakeDrop};
pub use shown::SenderShown;
pub use timer::Timer;
pub use wire::Wire;
