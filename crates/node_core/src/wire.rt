//! What is under way over a link to the node at its end.
ghost use Rattle.std.specs.Option.{option_map};
ghost use Rattle.packet_chain.specs.declared.packet.Packet.{Packet};
ghost use Rattle.node_core.specs.declared.event.Event.TheVariants.{Arrive};
ghost use Rattle.std.specs.Prelude.{◌≡◌, ◌+◌, ◌<◌, ◌≤◌, ◌^◌, ◌++◌, [], length, slice_get, All, Some, IfOk, IsSome};
ghost use Rattle.std.specs.FinMap as map;
ghost use Rattle.std.specs.List.Sorted.{IsStrictlyIncreasing};
ghost use Rattle.sim_time.specs.declared.key.Key.{Key};
ghost use Rattle.tournament.specs.Keyed.{least, next_key, apply, entering, EachKey};
ghost use Rattle.tournament.specs.Timed.{time_of};
ghost use Rattle.node_core.specs.WireState.{IsWire, arrivals, arrivals_on, pending_on, came_over, stamps_of, after_pop};

use crate::event::Event;
use packet_chain::{PacketCell, PacketChain};
use sim_time::{Key, Time};
use std::alloc::{AllocError, Global};
use std::marker::Model;

/// The packets that a link has sent and that have not arrived, each with the moment at which it
/// arrives. At most 2^50 ever come over it.
#[derive(Drop)]
pub struct Wire {
    /// The node at its end.
    node: u16,
    /// The link's number.
    link: u16,
    /// How many packets have arrived.
    taken: u64,
    /// The others, stamped with the nanoseconds at which they arrive.
    under_way: PacketChain,
}

impl Model for Wire {
    ghost use Rattle.node_core.specs.WireState.{WireState, IsWire};

    ghost Value = { WireState };

    ghost view = { λ w. record { node = w.node; link = w.link; taken = w.taken; under_way = w.under_way } };

    ghost invariant = { λ w. IsWire (record { node = w.node; link = w.link; taken = w.taken; under_way = w.under_way }) };
}

impl Wire {
    /// A wire over which nothing has come. Its copies take their memory from `alloc`.
    pub fn new(alloc: Global, node: u16, link: u16) -> Wire
        requires { link < 65535 }
        ensures { result ≡ record { node = node; link = link; taken = 0; under_way = [] } }
    {
        Wire {
            node,
            link,
            taken: 0,
            under_way: PacketChain::new(alloc),
        }
    }

    /// How many packets have arrived.
    pub fn taken(&self) -> u64
        ensures { result ≡ self.now.taken }
    {
        self.taken
    }

    /// The first arrival, whose number is one more than how many packets have arrived.
    pub fn head(&self) -> Option<(Key, Event)>
        ensures first { result ≡ slice_get (arrivals_on self.now) 0 }
        ensures least { result ≡ least (pending_on self.now) }
        ensures sound { IsWire self.now }
    {
        let (packet, time) = self.under_way.front()?;
        let key = Key {
            time,
            node: self.node,
            source: self.link + 1,
            number: self.taken + 1,
        };
        Some((key, Event::Arrive(packet)))
    }

    /// Tells the first arrival where its key and it are kept, so that they lie nowhere else before.
    #[inline(always)]
    pub(crate) fn tell_head(&self, key: &mut Key, event: &mut Event)
        requires { IsSome (least (pending_on self.now)) }
        ensures { least (pending_on self.now) ≡ Some (key.new, event.new) }
    {
        match self.under_way.front() {
            Some((packet, time)) => {
                let number = self.taken + 1;
                *key = Key {
                    time,
                    node: self.node,
                    source: self.link + 1,
                    number,
                };
                *event = Event::Arrive(packet);
            }
            None => {}
        }
    }

    /// When the first packet arrives, in nanoseconds.
    #[inline(always)]
    pub fn next_time(&self) -> Option<Time>
        ensures { result ≡ time_of (next_key (pending_on self.now)) }
    {
        match self.under_way.front() {
            Some((_, time)) => Some(time),
            None => None,
        }
    }

    /// Takes the first packet off, in its cell: it arrives.
    #[inline(always)]
    pub fn pop(&mut self) -> Option<PacketCell>
        ensures given { result ≡ slice_get self.old.under_way 0 }
        ensures packet { (key : Key) (packet : Packet) → least (pending_on self.old) ≡ Some (key, Arrive packet) → option_map (λ cell. cell.0) result ≡ Some packet }
        ensures state { self.new ≡ after_pop self.old }
        ensures pending { (key : Key) → next_key (pending_on self.old) ≡ Some key → pending_on self.new ≡ map.remove (pending_on self.old) key }
    {
        let cell = self.under_way.pop_front()?;
        self.taken += 1;
        Some(cell)
    }

    /// Puts packets behind the others, which all arrive before them, and leaves the chain with
    /// none. It takes no memory.
    pub fn append(&mut self, sent: &mut PacketChain)
        requires rising { IsStrictlyIncreasing (stamps_of sent.old) }
        requires later { All (λ stamp. EachKey (λ k. k.time < stamp) (pending_on self.old)) (stamps_of sent.old) }
        requires few { came_over self.old + length sent.old ≤ 2 ^ 50 }
        ensures state { self.new ≡ record self.old { under_way = self.old.under_way ++ sent.old } }
        ensures pending { pending_on self.new ≡ apply (entering (arrivals self.old.node self.old.link (came_over self.old) sent.old)) (pending_on self.old) }
        ensures next { IsSome (next_key (pending_on self.old)) → next_key (pending_on self.new) ≡ next_key (pending_on self.old) }
        ensures sent { sent.new ≡ [] }
    {
        self.under_way.append(sent);
    }

    /// A wire of the same packets, in cells of its own.
    pub fn copy(&self) -> Result<Wire, AllocError>
        ensures { IfOk result (λ copy. copy ≡ self.now) }
    {
        let under_way = self.under_way.copy()?;
        Ok(Wire {
            node: self.node,
            link: self.link,
            taken: self.taken,
            under_way,
        })
    }
}
