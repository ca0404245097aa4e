//! Over which of a node's links its packets leave, as far as that was seen.

use node_core::Event;
use packet_chain::Kind;
use std::alloc::{AllocError, Global};

/// For how many packets it is kept: those of each kind of 128 flows.
const EXITS: usize = 256;

/// To which link of a node the last packet was offered of each kind and flow. No clause speaks of it, as
/// nothing but speed rests on it.
#[derive(Drop)]
pub struct LastLinks {
    /// The link's index among the node's, below 1,024.
    places: Vec<u16>,
}

// Where that of an event's packet stands, if it has one.
#[inline(always)]
fn exit_place(event: &Event) -> usize {
    match event {
        Event::Arrive(packet) => {
            let flow = usize::from(packet.flow % 128);
            match packet.kind {
                Kind::Data => flow,
                Kind::Ack => flow + 128,
            }
        }
        Event::Start(_) | Event::Rto(_) | Event::DelAck(_) | Event::Free(_) => 0,
    }
}

impl LastLinks {
    /// Nothing was seen yet at a node with so many links. Where there is one, nothing is kept.
    pub(crate) fn new(alloc: Global, links: usize) -> Result<LastLinks, AllocError> {
        let places = if links > 1 {
            vec![in alloc; 0; EXITS]?
        } else {
            Vec::new(alloc)
        };
        Ok(LastLinks { places })
    }

    /// The index of the link to which the last packet was offered like that of an event.
    #[inline(always)]
    pub(crate) fn seen(&self, event: &Event) -> usize {
        let place = exit_place(event);
        if place < self.places.len() {
            usize::from(self.places[place])
        } else {
            0
        }
    }

    /// An event has offered packets to the link of an index.
    pub(crate) fn note(&mut self, event: &Event, at: usize) {
        let place = exit_place(event);
        if place < self.places.len() {
            self.places[place] = u16::try_from(at).unwrap_or(0);
        }
    }
}
