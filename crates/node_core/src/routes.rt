//! Where a router sends the packets of each flow.
ghost use Rattle.std.specs.Prelude.{◌≡◌, IfOk};
ghost use Rattle.node_core.specs.RouteTable.{exit_for};

use packet_chain::{Kind, Packet};
use std::alloc::AllocError;
use std::marker::Model;

/// Which of a router's outgoing links a flow's packets take, counted from 0 in rising number; none
/// where the router has no route.
#[derive(Clone, Copy)]
pub struct FlowExits {
    /// Segments, which go to the flow's receiver.
    pub for_data: Option<u16>,
    /// Acknowledgements, which go to the flow's sender.
    pub for_acks: Option<u16>,
}

/// A router's exits, flow by flow.
#[derive(Drop)]
pub struct RouteTable {
    exits: Vec<FlowExits>,
}

impl Model for RouteTable {
    ghost use Rattle.std.specs.Prelude.{List};
    ghost use Rattle.node_core.specs.declared.routes.FlowExits.{FlowExits};

    ghost Value = { List FlowExits };

    ghost view = { λ table. table.exits.items };
}

impl RouteTable {
    /// The table of these exits: the k-th are those of flow k.
    pub fn new(exits: Vec<FlowExits>) -> RouteTable
        ensures { result ≡ exits.items }
    {
        RouteTable { exits }
    }

    /// The same table, with memory of its own.
    pub fn copy(&self) -> Result<RouteTable, AllocError>
        ensures { IfOk result (λ copy. copy ≡ self.now) }
    {
        let exits = self.exits.clone()?;
        Ok(RouteTable { exits })
    }

    /// The outgoing link that a packet takes.
    pub fn exit(&self, packet: &Packet) -> Option<u16>
        ensures { result ≡ exit_for self.now packet.now }
    {
        let exits = self.exits.get(usize::from(packet.flow))?;
        match packet.kind {
            Kind::Data => exits.for_data,
            Kind::Ack => exits.for_acks,
        }
    }
}
