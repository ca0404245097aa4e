//! A group's nodes, with what leaves them for other groups' nodes.

use crate::exits::Exits;
use crate::nodes_by_number::NodesByNumber;
use net_machine::{LinkEnds, Region};
use node_core::{Line, Outbox};
use packet_chain::PacketChain;
use std::alloc::AllocError;

/// The nodes of a group, and what it holds back for others: a region of its net.
#[derive(Drop)]
pub struct Area {
    /// The nodes.
    pub nodes_by_number: NodesByNumber,
    /// What left over each link for other groups since the last turn.
    pub exits: Exits,
}

impl Region for Area {
    ghost use Rattle.node_group.specs.Passing.{nodes_of, number_of, with_node, CanPass, HasPassed};

    ghost nodes = { λ a. nodes_of a };

    ghost number_at = { λ a at. number_of a at };

    ghost put = { λ a number node. with_node a number node };

    ghost can_take = { λ links a link packets. CanPass links a link packets };

    ghost takes = { λ links a link packets new. HasPassed links a link packets new };

    #[inline(always)]
    fn run_at(
        &mut self,
        at: usize,
        out: &mut Outbox,
        line: &mut Line,
    ) -> Result<Option<u16>, AllocError> {
        self.nodes_by_number.fire_into(at, out, line)
    }

    #[inline(always)]
    fn link_of(&self, at: usize, index: usize) -> u16 {
        self.nodes_by_number.link_number(at, index)
    }

    #[inline(always)]
    fn pass_on(&mut self, links: &[LinkEnds], link: usize, packets: &mut PacketChain) {
        let end = links[link].to;
        match self.nodes_by_number.place(usize::from(end.node)) {
            Some(at) => self
                .nodes_by_number
                .deliver(at, usize::from(end.index), packets),
            None => self.exits.hold(link, packets),
        }
    }
}
