//! Cells that packets have left, kept for the next packets.
ghost use Rattle.std.specs.Prelude.{◌≡◌, IfOk};

use packet_chain::{Kind, Packet, PacketBytes, PacketCell};
use std::alloc::{AllocError, Global};

// How many cells are kept. Over many flows the cells that are left and those that are taken come in bursts, and
// so many make nearly all of these even.
const MOST: usize = 64;

/// Cells that packets have left. Which these are, and how many, no clause says: they only spare a
/// packet the request for memory.
#[derive(Drop)]
pub(crate) struct FreeList {
    cells: Vec<PacketCell>,
}

// A cell from the heap, in which any packet is. It is given none, so that a packet for which a cell is kept, as for
// nearly all, need lie nowhere in memory but in that cell.
#[cold]
#[inline(never)]
fn fresh(alloc: Global) -> Result<PacketCell, AllocError> {
    let any = Packet {
        flow: 0,
        kind: Kind::Data,
        number: 0,
        bytes: PacketBytes::new(1).unwrap(),
    };
    Ok(PacketCell::new(alloc, any)?)
}

impl FreeList {
    /// None yet, with memory for all that are ever kept.
    pub(crate) fn new(alloc: Global) -> Result<FreeList, AllocError> {
        Ok(FreeList {
            cells: Vec::with_capacity(alloc, MOST)?,
        })
    }

    /// A cell for the packet, from the heap where none is kept. Its stamp is any.
    #[inline(always)]
    pub(crate) fn take(&mut self, alloc: Global, packet: Packet) -> Result<PacketCell, AllocError>
        ensures { IfOk result (λ cell. cell.0 ≡ packet) }
    {
        let mut cell = match self.cells.pop() {
            Some(kept) => kept,
            None => fresh(alloc)?,
        };
        cell.set_packet(packet);
        Ok(cell)
    }

    /// Keeps a cell that a packet has left, if there is one. Where there is no room it is freed.
    #[inline(never)]
    pub(crate) fn keep(&mut self, left: Option<PacketCell>) {
        if let Some(cell) = left {
            if self.cells.len() < self.cells.capacity() {
                self.cells.push_reserved(cell);
            }
        }
    }
}
