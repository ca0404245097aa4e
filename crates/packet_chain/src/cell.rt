//! A packet in a block of its own.
ghost use Rattle.std.specs.Prelude.{◌≡◌, IfOk, IfErr};

use crate::loose::Loose;
use crate::node::ChainNode;
use crate::packet::Packet;
use core::mem::replace_with;
use std::alloc::{AllocFailed, Global};
use std::marker::Model;
use std::ptr;
use std_alloc::room::Vacant;

/// A packet with a stamp, in the block that it keeps in every chain.
pub struct PacketCell {
    pub(crate) node: Loose,
}

impl Model for PacketCell {
    ghost use Rattle.packet_chain.specs.Stamped.{Stamped};

    ghost Value = { Stamped };

    ghost view = { λ c. (c.node.node.packet, c.node.node.stamp) };
}

impl Drop for PacketCell {
    fn drop(self) {
        let PacketCell { node } = self;
        let _alloc = node.empty().free();
    }
}

impl PacketCell {
    /// A cell for the packet, with the stamp 0. The packet comes back where memory is refused.
    pub fn new(alloc: Global, packet: Packet) -> Result<PacketCell, AllocFailed<Packet>>
        ensures ok { IfOk result (λ cell. cell ≡ (packet, 0)) }
        ensures err { IfErr result (λ refused. refused.value ≡ packet) }
    {
        match Vacant::take(alloc) {
            Ok(room) => {
                let next = ptr::null_mut();
                let stamp = 0;
                let node = ChainNode {
                    next,
                    packet,
                    stamp,
                };
                Ok(PacketCell {
                    node: Loose::fill(room, node),
                })
            }
            Err(_) => Err(AllocFailed { value: packet }),
        }
    }

    /// The packet.
    pub fn packet(&self) -> Packet
        ensures { result ≡ self.now.0 }
    {
        self.node.node().packet
    }

    /// The stamp, a time in nanoseconds.
    pub fn stamp(&self) -> u64
        ensures { result ≡ self.now.1 }
    {
        self.node.node().stamp
    }

    /// Changes the stamp.
    pub fn set_stamp(&mut self, stamp: u64)
        ensures { self.new ≡ (self.old.0, stamp) }
    {
        replace_with(&mut self.node, stamp, stamped);
    }

    /// Puts another packet into the cell, which keeps its stamp. It takes no memory.
    pub fn set_packet(&mut self, packet: Packet)
        ensures { self.new ≡ (packet, self.old.1) }
    {
        replace_with(&mut self.node, packet, repacked);
    }

    /// Frees the cell and gives its packet.
    pub fn into_packet(self) -> Packet
        ensures { result ≡ self.0 }
    {
        let PacketCell { node } = self;
        let packet = node.node().packet;
        let _alloc = node.empty().free();
        packet
    }

    // The node, for a chain.
    pub(crate) fn into_node(self) -> Loose
        ensures { (result.node.packet, result.node.stamp) ≡ self }
    {
        let PacketCell { node } = self;
        node
    }
}

fn stamped(node: Loose, stamp: u64) -> (Loose, ())
    ensures { result.0.node ≡ record node.node { stamp = stamp } }
{
    (node.stamped(stamp), ())
}

// The block with another packet in it.
fn repacked(cell: Loose, packet: Packet) -> (Loose, ())
    ensures packet { result.0.node.packet ≡ packet }
    ensures stamp { result.0.node.stamp ≡ cell.node.stamp }
{
    let stamp = cell.node().stamp;
    let next = ptr::null_mut();
    let node = ChainNode {
        next,
        packet,
        stamp,
    };
    (Loose::fill(cell.empty(), node), ())
}
