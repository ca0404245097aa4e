//! What a packet is.
ghost use Rattle.std.specs.Prelude.{◌≡◌, ◌≤◌, SomeIff};
ghost use Rattle.packet_chain.specs.PacketBytes.{IsPacketBytes};

use std::marker::Model;

/// What a packet carries.
#[derive(Clone, Copy, Debug, PartialEq, Eq)]
pub enum Kind {
    /// One segment of a flow's data, named by the number of its first byte.
    Data,
    /// An acknowledgement, whose number is the next byte that the receiver waits for.
    Ack,
}

/// The size of a packet on the wire: 1 to 9,040 bytes.
#[derive(Clone, Copy, Debug, PartialEq, Eq)]
pub struct PacketBytes {
    bytes: u16,
}

impl Model for PacketBytes {
    ghost use Rattle.std.specs.Prelude.{ℕ};
    ghost use Rattle.packet_chain.specs.PacketBytes.{IsPacketBytes};

    ghost Value = { ℕ };

    ghost view = { λ b. b.bytes };

    ghost invariant = { λ b. IsPacketBytes b.bytes };

    ghost inverse = { λ n. record { bytes = n } };
}

impl PacketBytes {
    /// The size of so many bytes; none for 0 or for more than 9,040.
    pub fn new(bytes: u16) -> Option<PacketBytes>
        ensures { SomeIff result (IsPacketBytes bytes) bytes }
    {
        if 1 <= bytes && bytes <= 9040 {
            Some(PacketBytes { bytes })
        } else {
            None
        }
    }

    /// Bytes.
    pub fn get(self) -> u16
        ensures value { result ≡ self }
        ensures limits { IsPacketBytes self }
    {
        self.bytes
    }
}

/// A packet: a segment of a flow, or an acknowledgement of one.
#[derive(Clone, Copy, Debug, PartialEq, Eq)]
pub struct Packet {
    /// The byte number or the acknowledgement number.
    pub number: u64,
    /// The flow's number.
    pub flow: u16,
    /// Its size on the wire.
    pub bytes: PacketBytes,
    /// Data or acknowledgement.
    pub kind: Kind,
}
