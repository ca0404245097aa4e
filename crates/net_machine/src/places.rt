//! Where the links leave and end.

use sim_time::Time;

/// The end of a link.
#[derive(Clone, Copy, PartialEq, Eq)]
pub struct EndPlace {
    /// The node at which it ends.
    pub node: u16,
    /// Which of that node's incoming links it is, counted from 0 in rising number.
    pub index: u16,
}

/// A link between two nodes.
#[derive(Clone, Copy, PartialEq, Eq)]
pub struct LinkEnds {
    /// The node that sends over it.
    pub from: u16,
    /// Where it ends.
    pub to: EndPlace,
    /// Its propagation delay in nanoseconds.
    pub delay: Time,
}
