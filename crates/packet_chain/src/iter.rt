//! A walk along a chain.
ghost use Rattle.std.specs.Prelude.{◌≡◌, ◌+◌, ◌^◌, ◌<◌, ◌≤◌, length};
ghost use Rattle.std.specs.Iterator.{YieldsFirst, item_count};
ghost use Rattle.packet_chain.specs.Links.{stamped_of};

use crate::node::NodePointer;
use crate::nodes::ChainNodes;
use crate::packet::Packet;
use std::marker::Model;

/// The packets of a chain with their stamps, from the front, seen as the list of those that are left.
#[derive(Drop)]
pub struct Iter<'a> {
    nodes: &'a ChainNodes,
    next: NodePointer,
    from: usize,
    left: usize,
}

impl<'a> Model for Iter<'a> {
    ghost use Rattle.std.specs.Prelude.{◌≡◌, ◌+◌, ◌^◌, ◌<◌, ◌≤◌, List, drop, length};
    ghost use Rattle.packet_chain.specs.Stamped.{Stamped};
    ghost use Rattle.packet_chain.specs.Links.{stamped_of, place_of};

    ghost Value = { List Stamped };

    ghost view = { λ it. drop it.from (stamped_of it.nodes.now.links) };

    ghost invariant = { λ it. (it.from + it.left ≡ length it.nodes.now.links) × (it.from + it.left ≤ 2 ^ 50) × (0 < it.left → it.next.at ≡ place_of it.nodes.now.links it.from) };
}

impl<'a> Iter<'a> {
    pub(crate) fn all(nodes: &'a ChainNodes, len: usize) -> Iter<'a>
        requires { (len ≡ length nodes.now.links) × (len ≤ 2 ^ 50) }
        ensures { result ≡ stamped_of nodes.now.links }
    {
        Iter {
            nodes,
            next: nodes.head(),
            from: 0,
            left: len,
        }
    }
}

impl<'a> Iterator for Iter<'a> {
    type Item = (Packet, u64);

    ghost next_gives = { YieldsFirst (λ rest. rest) };

    ghost remaining = { item_count (λ rest. rest) };

    fn next(&mut self) -> Option<(Packet, u64)> {
        if self.left == 0 {
            return None;
        }
        let node = *self.nodes.node(self.next, self.from);
        self.next = NodePointer { at: node.next };
        self.from += 1;
        self.left -= 1;
        Some((node.packet, node.stamp))
    }
}
