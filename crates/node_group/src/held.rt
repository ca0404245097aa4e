//! The packets that a group holds back for others.
ghost use Rattle.std.specs.Prelude.{◌≡◌, ◌+◌, ◌<◌, ◌≤◌, ◌^◌, ◌++◌, [], length, All};
ghost use Rattle.std.specs.List.Sorted.{IsStrictlyIncreasing};
ghost use Rattle.sim_time.specs.declared.key.Key.{Key};
ghost use Rattle.tournament.specs.Keyed.{apply, entering, EachKey};
ghost use Rattle.node_core.specs.WireState.{arrivals, pending_on, came_over, stamps_of};
ghost use Rattle.node_group.specs.Held.{is_idle};

use packet_chain::PacketChain;
use std::alloc::Global;
use std::marker::Model;

/// The packets that left a group over a link and that its end has not got yet, each stamped with
/// the nanoseconds at which it arrives.
#[derive(Drop)]
pub(crate) struct HeldPackets {
    /// The node at the link's end.
    node: u16,
    /// The link's number.
    link: u16,
    /// How many packets the end had got before.
    before: u64,
    packets: PacketChain,
}

impl Model for HeldPackets {
    ghost use Rattle.node_core.specs.WireState.{WireState, IsWire};

    ghost Value = { WireState };

    ghost view = { λ h. record { node = h.node; link = h.link; taken = h.before; under_way = h.packets } };

    ghost invariant = { λ h. IsWire (record { node = h.node; link = h.link; taken = h.before; under_way = h.packets }) };
}

impl HeldPackets {
    /// No outgoing message of a link over which so many packets came.
    pub(crate) fn new(alloc: Global, node: u16, link: u16, before: u64) -> HeldPackets
        requires link { link < 65535 }
        requires few { before ≤ 2 ^ 50 }
        ensures { result ≡ record { node = node; link = link; taken = before; under_way = [] } }
    {
        HeldPackets {
            node,
            link,
            before,
            packets: PacketChain::new(alloc),
        }
    }

    /// Whether there is no outgoing message.
    pub(crate) fn is_idle(&self) -> bool
        ensures { result ≡ is_idle self.now }
    {
        self.packets.len() == 0
    }

    /// Holds packets back, behind the others, and leaves the chain with none. It takes no memory.
    pub(crate) fn hold(&mut self, sent: &mut PacketChain)
        requires rising { IsStrictlyIncreasing (stamps_of sent.old) }
        requires later { All (λ stamp. EachKey (λ k. k.time < stamp) (pending_on self.old)) (stamps_of sent.old) }
        requires few { came_over self.old + length sent.old ≤ 2 ^ 50 }
        ensures state { self.new ≡ record self.old { under_way = self.old.under_way ++ sent.old } }
        ensures pending { pending_on self.new ≡ apply (entering (arrivals self.old.node self.old.link (came_over self.old) sent.old)) (pending_on self.old) }
        ensures sent { sent.new ≡ [] }
    {
        self.packets.append(sent);
    }

    /// Gives the packets to an empty chain: the link's end gets them now.
    pub(crate) fn release(&mut self, packets: &mut PacketChain)
        requires { packets.old ≡ [] }
        ensures packets { packets.new ≡ self.old.under_way }
        ensures rising { IsStrictlyIncreasing (stamps_of packets.new) }
        ensures few { came_over self.old ≤ 2 ^ 50 }
        ensures state { self.new ≡ record self.old { taken = came_over self.old; under_way = [] } }
    {
        self.before += self.packets.len() as u64;
        packets.append(&mut self.packets);
    }
}
