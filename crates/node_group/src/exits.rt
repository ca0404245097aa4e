//! What a group holds back for others, a chain for each link of the net.
ghost use Rattle.std.specs.Prelude.{◌≡◌, ◌+◌, ◌<◌, ◌≤◌, ◌^◌, ◌++◌, ◌∷◌, [], length, slice_set, All, OnOk, OnErr, IfSome, None, true};
ghost use Rattle.std.specs.List.Sorted.{IsStrictlyIncreasing};
ghost use Rattle.sim_time.specs.declared.key.Key.{Key};
ghost use Rattle.tournament.specs.Keyed.{apply, entering, EachKey};
ghost use Rattle.node_core.specs.WireState.{WireState, arrivals, pending_on, came_over, stamps_of};
ghost use Rattle.node_group.specs.Held.{wire_at, held_on, WiresAreEmpty, IsReleased};

use crate::held::HeldPackets;
use packet_chain::PacketChain;
use std::alloc::{AllocError, Global};
use std::marker::Model;

/// For each link of the net, by its number, a group's outgoing messages of it.
#[derive(Drop)]
pub struct Exits {
    held: Vec<HeldPackets>,
    /// The links that have outgoing messages, with room for each other one.
    busy: Vec<usize>,
}

impl Model for Exits {
    ghost use Rattle.std.specs.Prelude.{List};
    ghost use Rattle.node_core.specs.WireState.{WireState};
    ghost use Rattle.std.specs.Prelude.{vec_capacity};
    ghost use Rattle.node_group.specs.Held.{AreListed};

    ghost Value = { List WireState };

    ghost view = { λ e. e.held.items };

    ghost invariant = { λ e. AreListed e.held.items e.busy.items (vec_capacity e.busy) };
}

impl Exits {
    /// For no link yet.
    pub(crate) fn new(alloc: Global) -> Exits
        ensures { result ≡ [] }
    {
        Exits {
            held: Vec::new(alloc),
            busy: Vec::new(alloc),
        }
    }

    /// The next link, which has no outgoing message.
    pub(crate) fn push(&mut self, held: HeldPackets) -> Result<(), AllocError>
        requires link { held.link ≡ length self.old }
        requires idle { held.under_way ≡ [] }
        ensures ok { OnOk result (self.new ≡ self.old ++ held ∷ []) }
        ensures err { OnErr result (self.new ≡ self.old) }
    {
        self.busy.reserve(self.held.len() + 1)?;
        self.held.push(held)?;
        Ok(())
    }

    /// Packets that left over a link are outgoing messages, behind the others, and the chain has
    /// none. It takes no memory.
    pub(crate) fn hold(&mut self, link: usize, sent: &mut PacketChain)
        requires within { link < length self.old }
        requires rising { IsStrictlyIncreasing (stamps_of sent.old) }
        requires later { All (λ stamp. EachKey (λ k. k.time < stamp) (pending_on (wire_at self.old link))) (stamps_of sent.old) }
        requires few { came_over (wire_at self.old link) + length sent.old ≤ 2 ^ 50 }
        ensures state { self.new ≡ slice_set self.old link (record (wire_at self.old link) { under_way = (wire_at self.old link).under_way ++ sent.old }) }
        ensures held { held_on self.new ≡ apply (entering (arrivals (wire_at self.old link).node link (came_over (wire_at self.old link)) sent.old)) (held_on self.old) }
        ensures sent { sent.new ≡ [] }
    {
        if self.held[link].is_idle() && sent.len() > 0 {
            self.busy.push_reserved(link);
        }
        self.held[link].hold(sent);
    }

    /// Whether it is known that no link has an outgoing message.
    #[inline(always)]
    pub(crate) fn holds_nothing(&self) -> bool
        ensures { result ≡ true → WiresAreEmpty self.now }
    {
        self.busy.is_empty()
    }

    /// Gives the outgoing messages of a link to an empty chain. The answer is the link, or none where
    /// there is no message.
    pub(crate) fn release_next(&mut self, packets: &mut PacketChain) -> Option<usize>
        requires { packets.old ≡ [] }
        ensures some { IfSome result (λ link. IsReleased self.old self.new link packets.new) }
        ensures none { result ≡ None → WiresAreEmpty self.old × (self.new ≡ self.old) × (packets.new ≡ []) }
    {
        while let Some(link) = self.busy.pop() {
            if !self.held[link].is_idle() {
                self.held[link].release(packets);
                return Some(link);
            }
        }
        None
    }
}
