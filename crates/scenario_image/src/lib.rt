//! Scenarios: what is simulated, checked once.
#![tactic(auto)]

pub mod ends;
pub mod fault;
pub mod guarantees;
pub mod kinds;
pub mod layout;
pub mod limits;
pub mod loading;
pub mod parts;
pub mod paths;
pub mod plain;
pub mod reading;
pub mod records;
pub mod routes;
pub mod saving;
pub mod scenario;
mod variants;
pub mod version;

pub use fault::LoadFault;
pub use loading::load;
pub use parts::{FlowPart, LinkPart, NodeKind, RoutePart, ScenarioParts};
pub use paths::Path;
pub use plain::{plain_flow, plain_link};
pub use records::Records;
pub use routes::route_link;
pub use saving::save;
pub use scenario::Scenario;
pub use sim_time::{CodelParameters, QueueKind, RENO};
pub use version::Version;
