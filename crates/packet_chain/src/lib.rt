//! Packets, the cells that carry them, and chains of cells.
#![tactic(auto)]

pub mod cell;
pub mod chain;
pub mod iter;
pub(crate) mod loose;
pub(crate) mod node;
pub(crate) mod nodes;
pub mod packet;

pub use cell::PacketCell;
pub use chain::PacketChain;
pub use iter::Iter;
pub use packet::{Kind, Packet, PacketBytes};
