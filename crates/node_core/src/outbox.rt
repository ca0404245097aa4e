//! What leaves a node over its links.
ghost use Rattle.std.specs.Prelude.{◌≡◌, ◌<◌, [], IfOk, length, replicate, slice_index_or};
ghost use Rattle.std.specs.Borrow.{sem};

use crate::free_list::FreeList;
use packet_chain::PacketChain;
use std::alloc::{AllocError, Global};
use std::marker::Model;

/// For each outgoing link of a node, by its index, the packets that left over it and were not yet
/// brought to the link's end, stamped with their arrivals. It goes with every event, and so keeps the cells too
/// that packets have left.
#[derive(Drop)]
pub struct Outbox {
    chains: Vec<PacketChain>,
    /// What the next packets take before they ask for memory.
    pub(crate) free_list: FreeList,
}

impl Model for Outbox {
    ghost use Rattle.std.specs.Prelude.{List};
    ghost use Rattle.packet_chain.specs.Stamped.{Stamped};

    ghost Value = { List (List Stamped) };

    ghost view = { λ out. out.chains.items };
}

impl Outbox {
    ghost use Rattle.node_core.specs.Lending.{LendsChain};

    /// For so many links, with nothing in it.
    pub fn new(alloc: Global, ports: usize) -> Result<Outbox, AllocError>
        ensures { IfOk result (λ out. out ≡ replicate ports []) }
    {
        let mut chains = Vec::new(alloc);
        for _link in 0..ports {
            chains.push(PacketChain::new(alloc))?;
        }
        let free_list = FreeList::new(alloc)?;
        Ok(Outbox { chains, free_list })
    }

    /// For how many links.
    pub fn len(&self) -> usize
        ensures { result ≡ length self.now }
    {
        self.chains.len()
    }

    /// What left over the link of an index.
    pub fn chain(&mut self, port: usize) -> &mut PacketChain
        requires { port < length self.old }
        ensures* writes_back { sem 𝓛 (LendsChain self.entry port result) }
        ensures value { result.now ≡ slice_index_or self.old port [] }
    {
        &mut self.chains[port]
    }
}
