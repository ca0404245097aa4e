//! An outgoing link of a node.
ghost use Rattle.std.specs.Prelude.{◌≡◌, ◌+◌, ◌^◌, ◌<◌, ◌≤◌, ◌++◌, Some, length, map, is_some, IfOk};
ghost use Rattle.sim_time.specs.Moment.{IsMoment};
ghost use Rattle.sim_time.specs.declared.limits.TheConstants.{MOST_EVENTS};
ghost use Rattle.port.specs.Laws.{NothingWaitsWhereIdle};
ghost use Rattle.port.specs.Port.{IsPort, offered_one, offered_all, taken, departed};
ghost use Rattle.port.specs.Room.{drops_at};
ghost use Rattle.node_core.specs.Links.{packets_of, packets_with};
ghost use Rattle.node_core.specs.Passing.{HasStepped};
ghost use Rattle.node_core.specs.Ready.{CanOffer};

use packet_chain::{PacketCell, PacketChain};
use port::{Acts, Port};
use sim_time::Time;
use std::alloc::AllocError;
use std::marker::Model;

/// An outgoing link: while it is idle, nothing waits at it.
#[derive(Drop)]
pub struct Link {
    /// The node at which it ends.
    to: u16,
    /// Its sending side.
    port: Port,
}

impl Model for Link {
    ghost use Rattle.node_core.specs.Part.{LinkState};
    ghost use Rattle.port.specs.Laws.{NothingWaitsWhereIdle};

    ghost Value = { LinkState };

    ghost view = { λ l. record { to = l.to; port = l.port } };

    ghost invariant = { λ l. NothingWaitsWhereIdle l.port };
}

impl Link {
    /// A link to a node, over a sending side at which nothing waits while it is idle.
    pub fn new(to: u16, port: Port) -> Link
        requires { NothingWaitsWhereIdle port }
        ensures { result ≡ record { to = to; port = port } }
    {
        Link { to, port }
    }

    /// Its sending side.
    pub fn port(&self) -> &Port
        ensures value { result.now ≡ self.now.port }
        ensures idle { NothingWaitsWhereIdle self.now.port }
    {
        &self.port
    }

    /// Whether it is sending a packet.
    pub(crate) fn is_busy(&self) -> bool
        ensures { result ≡ is_some self.now.port.next_free }
    {
        self.port.next_free().is_some()
    }

    /// Offers one packet. If it begins to be sent it goes to the end of `out`, with the time of its
    /// arrival as its stamp.
    pub(crate) fn send(
        &mut self,
        cell: PacketCell,
        now: Time,
        acts: &mut Acts,
        out: &mut PacketChain,
    )
        requires can { CanOffer now self.old out.old }
        requires room { 1 ≤ acts.old.room }
        ensures { HasStepped (offered_one now self.old.port cell.0) self.old self.new out.old out.new acts.old.acts acts.new.acts }
    {
        self.port.send(cell, now, acts, out);
    }

    /// Offers packets one after another. One that begins to be sent goes to the end of `out`, with
    /// the time of its arrival as its stamp.
    pub fn offer(
        &mut self,
        mut cells: PacketChain,
        now: Time,
        acts: &mut Acts,
        out: &mut PacketChain,
    )
        requires moment { IsMoment now }
        requires room { length cells ≤ acts.old.room }
        requires sent { self.old.port.sent < MOST_EVENTS }
        requires offered { self.old.port.offered + length cells ≤ 2 ^ 99 }
        requires chain { length out.old < MOST_EVENTS }
        ensures state { self.new ≡ record self.old { port = (offered_all now self.old.port (packets_of cells)).port } }
        ensures departed { out.new ≡ out.old ++ departed (offered_all now self.old.port (packets_of cells)).departure }
        ensures acts { acts.new.acts ≡ acts.old.acts ++ (offered_all now self.old.port (packets_of cells)).acts }
    {
        while let Some(cell) = cells.pop_front() {
            self.port.send(cell, now, acts, out);
        }
    }

    /// Offers packets one after another, and behind them one more. Where that is the only one, as it nearly
    /// always is, it is put into no chain.
    pub(crate) fn offer_behind(
        &mut self,
        mut cells: PacketChain,
        last: Option<PacketCell>,
        now: Time,
        acts: &mut Acts,
        out: &mut PacketChain,
    )
        requires can { CanOffer now self.old out.old }
        requires room { length (packets_with cells last) ≤ acts.old.room }
        requires few { length cells ≤ 2 ^ 40 }
        ensures { HasStepped (offered_all now self.old.port (packets_with cells last)) self.old self.new out.old out.new acts.old.acts acts.new.acts }
    {
        let Some(cell) = last else {
            self.offer(cells, now, acts, out);
            return;
        };
        if cells.len() == 0 {
            self.send(cell, now, acts, out);
            return;
        }
        cells.push_back(cell);
        self.offer(cells, now, acts, out);
    }

    /// The link has sent a packet whole, and takes the next. One that begins to be sent goes to
    /// the end of `out`, with the time of its arrival as its stamp.
    pub fn free(&mut self, now: Time, acts: &mut Acts, out: &mut PacketChain)
        requires moment { IsMoment now }
        requires due { self.old.port.next_free ≡ Some now }
        requires room { drops_at now self.old.port + 1 ≤ acts.old.room }
        requires sent { self.old.port.sent < MOST_EVENTS }
        requires chain { length out.old < MOST_EVENTS }
        ensures state { self.new ≡ record self.old { port = (taken now self.old.port).port } }
        ensures departed { out.new ≡ out.old ++ departed (taken now self.old.port).departure }
        ensures acts { acts.new.acts ≡ acts.old.acts ++ (taken now self.old.port).acts }
    {
        self.port.free(now, acts, out);
    }

    /// A link in the same state, with the packets that wait in cells of its own.
    pub fn copy(&self) -> Result<Link, AllocError>
        ensures { IfOk result (λ copy. copy ≡ self.now) }
    {
        let port = self.port.copy()?;
        Ok(Link { to: self.to, port })
    }
}
