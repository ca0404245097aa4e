//! What one event does to packets.
ghost use Rattle.std.specs.Prelude.{◌≡◌, ◌+◌, ◌<◌, ◌≤◌, [], ◌∷◌, ◌++◌, length, IsOk, OnOk, OnErr};

use aqm::DropReason;
use packet_chain::{Kind, Packet, PacketBytes};
use smallvec::SmallVec;
use std::alloc::{AllocError, Global};
use std::marker::Model;

/// One thing that an event did.
#[derive(Clone, Copy, PartialEq, Eq)]
pub enum Act {
    /// The link of this number began to send the packet.
    Tx(u16, Packet),
    /// The packet was dropped where it was offered to the link of this number, or waited for it.
    Dropped(u16, DropReason, Packet),
}

/// An act for the places of a small vector that are not used.
impl Default for Act {
    fn default() -> Act {
        Act::Tx(
            0,
            Packet {
                flow: 0,
                kind: Kind::Data,
                number: 0,
                bytes: PacketBytes::new(1).unwrap(),
            },
        )
    }
}

/// What one event did, in the order done. Two acts need no memory of their own.
#[derive(Drop)]
pub struct Acts {
    items: SmallVec<Act, 2>,
}

impl Model for Acts {
    ghost use Rattle.std.specs.Prelude.{◌-◌, ◌≤◌};
    ghost use Rattle.smallvec.specs.SmallVec.{small_vec_len};
    ghost use Rattle.port.specs.ActList.{ActList};

    ghost Value = { ActList };

    ghost view = { λ a. record { acts = a.items.items; room = a.items.capacity - small_vec_len a.items } };

    ghost invariant = { λ a. small_vec_len a.items ≤ a.items.capacity };
}

impl Acts {
    /// None yet.
    pub fn new(alloc: Global) -> Acts
        ensures { result ≡ record { acts = []; room = 2 } }
    {
        Acts {
            items: SmallVec::new(alloc),
        }
    }

    /// The acts, in the order done.
    pub fn as_slice(&self) -> &[Act]
        ensures { result.now ≡ self.now.acts }
    {
        self.items.as_slice()
    }

    /// Room for so many more acts. Where there is room already, none is asked for.
    #[inline(always)]
    pub fn reserve(&mut self, more: usize) -> Result<(), AllocError>
        ensures same { self.new.acts ≡ self.old.acts }
        ensures ok { OnOk result (more ≤ self.new.room) }
        ensures succeeds { more ≤ self.old.room → IsOk result }
        ensures err { OnErr result (self.new ≡ self.old) }
    {
        // There is nearly always room.
        if self.items.capacity() - self.items.len() >= more {
            return Ok(());
        }
        self.make_room(more)
    }

    // Asks for memory for so many more acts.
    #[cold]
    #[inline(never)]
    fn make_room(&mut self, more: usize) -> Result<(), AllocError>
        ensures same { self.new.acts ≡ self.old.acts }
        ensures ok { OnOk result (more ≤ self.new.room) }
        ensures succeeds { more ≤ self.old.room → IsOk result }
        ensures err { OnErr result (self.new ≡ self.old) }
    {
        self.items.reserve(more)
    }

    /// One more act, for which there is room.
    pub fn push(&mut self, act: Act)
        requires { 0 < self.old.room }
        ensures acts { self.new.acts ≡ self.old.acts ++ act ∷ [] }
        ensures room { self.new.room + 1 ≡ self.old.room }
    {
        self.items.push_reserved(act);
    }

    /// Forgets the acts. Memory of their own goes back, since few events need any, and the next one's acts are to
    /// lie beside the rest of its line.
    #[inline(always)]
    pub fn reset(&mut self)
        ensures { self.new ≡ record { acts = []; room = 2 } }
    {
        // Two acts are forgotten by their count alone: a loop over them would end where it can't be guessed.
        self.items = SmallVec::new(*self.items.allocator());
    }
}
