//! A queue of cells that takes no memory of its own.
ghost use Rattle.std.specs.Prelude.{◌≡◌, ◌+◌, ◌^◌, ◌<◌, ◌≤◌, [], ◌∷◌, ◌++◌, length, slice_get, IfOk, MatchOption};
ghost use Rattle.std.specs.Iterator.{YieldsFirst};
ghost use Rattle.std.specs.Iterator.Runs.{YieldsInOrder};
ghost use Rattle.packet_chain.specs.Stamped.{Stamped, bytes_of};
ghost use Rattle.packet_chain.specs.Links.{stamped_of};
ghost use Rattle.packet_chain.specs.Counted.{IsCounted};
ghost use Rattle.packet_chain.specs.PacketBytes.{IsPacketBytes};

use crate::cell::PacketCell;
use crate::iter::Iter;
use crate::nodes::ChainNodes;
use crate::packet::Packet;
use std::alloc::{AllocError, Global};
use std::marker::Model;
use std::mem::replace;

/// Cells in a row, which come out in the order in which they went in. At most 2^50.
pub struct PacketChain {
    nodes: ChainNodes,
    len: usize,
    bytes: u64,
    alloc: Global,
}

impl Model for PacketChain {
    ghost use Rattle.std.specs.Prelude.{List};
    ghost use Rattle.packet_chain.specs.Stamped.{Stamped};
    ghost use Rattle.packet_chain.specs.Links.{stamped_of};
    ghost use Rattle.packet_chain.specs.Counted.{IsCounted};

    ghost Value = { List Stamped };

    ghost view = { λ c. stamped_of c.nodes.links };

    ghost invariant = { λ c. IsCounted c.len c.bytes (stamped_of c.nodes.links) };
}

impl Drop for PacketChain {
    fn drop(mut self) {
        self.clear();
        let PacketChain {
            nodes,
            len: _,
            bytes: _,
            alloc: _,
        } = self;
        drop(nodes);
    }
}

// The packet's bytes.
fn bytes_in(packet: Packet) -> u64
    ensures value { result ≡ packet.bytes }
    ensures limits { IsPacketBytes packet.bytes }
{
    let bytes = packet.bytes;
    u64::from(bytes.get())
}

impl PacketChain {
    /// A chain with nothing in it. Its copies take their memory from `alloc`.
    pub fn new(alloc: Global) -> PacketChain
        ensures { result ≡ [] }
    {
        PacketChain {
            nodes: ChainNodes::new(),
            len: 0,
            bytes: 0,
            alloc,
        }
    }

    /// How many packets.
    pub fn len(&self) -> usize
        ensures value { result ≡ length self.now }
        ensures limit { result ≤ 2 ^ 50 }
    {
        self.len
    }

    /// How many bytes the packets have together.
    pub fn bytes(&self) -> u64
        ensures { result ≡ bytes_of self.now }
    {
        self.bytes
    }

    /// Puts the cell at the end.
    pub fn push_back(&mut self, cell: PacketCell)
        requires { length self.old + 1 ≤ 2 ^ 50 }
        ensures { self.new ≡ self.old ++ cell ∷ [] }
    {
        let bytes = bytes_in(cell.packet());
        let one = ChainNodes::one(cell.into_node());
        self.attach(one, 1, bytes);
    }

    /// Takes the first cell out.
    pub fn pop_front(&mut self) -> Option<PacketCell>
        ensures { MatchOption result ((self.old ≡ []) × (self.new ≡ [])) (λ cell. self.old ≡ cell ∷ self.new) }
    {
        if self.len == 0 {
            return None;
        }
        let nodes = replace(&mut self.nodes, ChainNodes::new());
        let (cell, behind) = nodes.pop(self.len, self.alloc);
        self.nodes = behind;
        self.len -= 1;
        self.bytes -= bytes_in(cell.packet());
        Some(cell)
    }

    /// Puts the other's cells at the end, and leaves the other with none.
    pub fn append(&mut self, other: &mut PacketChain)
        requires { length self.old + length other.old ≤ 2 ^ 50 }
        ensures cells { self.new ≡ self.old ++ other.old }
        ensures other { other.new ≡ [] }
    {
        if other.len == 0 {
            return;
        }
        let behind = replace(&mut other.nodes, ChainNodes::new());
        self.attach(behind, other.len, other.bytes);
        other.len = 0;
        other.bytes = 0;
    }

    /// The first packet and its stamp.
    pub fn front(&self) -> Option<(Packet, u64)>
        ensures { result ≡ slice_get self.now 0 }
    {
        self.iter().next()
    }

    /// The packets with their stamps, from the front.
    pub fn iter(&self) -> Iter<'_>
        ensures rest { result ≡ self.now }
        ensures limit { length self.now ≤ 2 ^ 50 }
        ensures runs { YieldsInOrder (YieldsFirst {A = Stamped} (λ rest. rest)) (λ rest. rest) }
    {
        Iter::all(&self.nodes, self.len)
    }

    /// A chain of the same packets and stamps, in cells of its own.
    pub fn copy(&self) -> Result<PacketChain, AllocError>
        ensures { IfOk result (λ chain. chain ≡ self.now) }
    {
        let mut made = PacketChain::new(self.alloc);
        for (packet, stamp) in self.iter() {
            let mut cell = PacketCell::new(self.alloc, packet)?;
            cell.set_stamp(stamp);
            made.push_back(cell);
        }
        Ok(made)
    }

    // Links the nodes in behind the last.
    fn attach(&mut self, behind: ChainNodes, len: usize, bytes: u64)
        requires some { 0 < len }
        requires counted { IsCounted len bytes (stamped_of behind.links) }
        requires room { length self.old + len ≤ 2 ^ 50 }
        ensures { self.new ≡ self.old ++ stamped_of behind.links }
    {
        let empty = self.len == 0;
        if empty {
            self.nodes = behind;
        } else {
            let front = replace(&mut self.nodes, ChainNodes::new());
            self.nodes = front.join(behind);
        }
        self.len += len;
        self.bytes += bytes;
    }

    // Frees each cell, from the front.
    fn clear(&mut self)
        ensures { self.new ≡ [] }
    {
        while let Some(cell) = self.pop_front() {
            drop(cell);
        }
    }
}
