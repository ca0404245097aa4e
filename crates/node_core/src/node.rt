//! A node: what it does, its outgoing links, and what is pending at it.
ghost use Rattle.std.specs.Prelude.{◌≡◌, ◌≢◌, ◌+◌, ◌<◌, ◌≤◌, ◌^◌, [], ◌∷◌, ◌++◌, ℕ, All, IfOk, IfSome, OnOk, OnErr, MatchOption, Option, Some, None, length, map as each, slice_index_or, slice_set, true};
ghost use Rattle.std.specs.Option.{option_map};
ghost use Rattle.std.specs.List.{slice_get};
ghost use Rattle.std.specs.List.Sorted.{IsStrictlyIncreasing};
ghost use Rattle.std.specs.FinMap as map;
ghost use Rattle.sim_time.specs.declared.key.Key.{Key};
ghost use Rattle.sim_time.specs.declared.limits.TheConstants.{MOST_EVENTS};
ghost use Rattle.packet_chain.specs.Stamped.{Stamped};
ghost use Rattle.tournament.specs.Keyed.{least, next_key, EachKey};
ghost use Rattle.tournament.specs.Timed.{time_of};
ghost use Rattle.node_core.specs.declared.event.Event.{Event};
ghost use Rattle.node_core.specs.EventQueueState.{incoming_at};
ghost use Rattle.node_core.specs.WireState.{stamps_of};
ghost use Rattle.node_core.specs.Part.{link_at, sender_in, receiver_in};
ghost use Rattle.node_core.specs.Row.{Leaving, row};
ghost use Rattle.node_core.specs.Ready.{IsRunnable};
ghost use Rattle.node_core.specs.TraceLine.{shown};
ghost use Rattle.node_core.specs.Node.{delivered, initial_node, HasFired};
ghost use Rattle.node_core.specs.Initial.{node_kind};

use crate::event::Event;
use crate::event_queue::EventQueue;
use crate::fire::run;
use crate::initial::{initial_event_queue, initial_links, initial_role, leaving_numbers};
use crate::line::Line;
use crate::link::Link;
use crate::outbox::Outbox;
use crate::pending::in_order;
use crate::role::Role;
use packet_chain::PacketChain;
use reno_receiver::Receiver;
use reno_sender::Sender;
use scenario_image::scenario::Scenario;
use sim_time::{Key, Time};
use std::alloc::{AllocError, Global};
use std::marker::Model;

/// A node.
#[derive(Drop)]
pub struct Node {
    /// What it does.
    role: Role,
    /// Its outgoing links, in rising number.
    links: Vec<Link>,
    /// What is pending at it: its timers and what comes over its incoming links.
    event_queue: EventQueue,
    /// What its packets and its copies take their memory from.
    alloc: Global,
}

impl Model for Node {
    ghost use Rattle.node_core.specs.Node.{NodeState};

    ghost Value = { NodeState };

    ghost use Rattle.node_core.specs.NodeCode.{node_code};

    ghost coded = { node_code };

    ghost use Rattle.node_core.specs.NodeOf.{node_of, IsNodeInside};

    ghost view = { node_of };

    ghost invariant = { IsNodeInside };
}

// Links in the same state, with packets in cells of their own.
fn copies_of(alloc: Global, links: &[Link]) -> Result<Vec<Link>, AllocError>
    ensures { IfOk result (λ copies. copies.items ≡ links.now) }
{
    let mut copies = Vec::new(alloc);
    for link in links {
        copies.push(link.copy()?)?;
    }
    Ok(copies)
}

impl Node {
    /// The node of a number of a scenario, before anything is sent.
    pub fn new(alloc: Global, scenario: &Scenario, number: u16) -> Result<Node, AllocError>
        requires { number < length scenario.now.nodes }
        ensures { IfOk result (λ node. node ≡ initial_node scenario.now (number, node_kind scenario.now number)) }
    {
        let parts = scenario.parts();
        let leaving = leaving_numbers(alloc, parts.links.as_slice(), number)?;
        let role = initial_role(alloc, parts, &leaving, number)?;
        let links = initial_links(alloc, parts, number)?;
        let event_queue = initial_event_queue(alloc, parts, number, role.flow(), leaving)?;
        Ok(Node {
            role,
            links,
            event_queue,
            alloc,
        })
    }

    /// Its number.
    pub fn number(&self) -> u16
        ensures { result ≡ self.now.number }
    {
        self.event_queue.node()
    }

    /// The least key of the events that are pending at it.
    pub fn least(&self) -> Option<Key>
        ensures { result ≡ next_key self.now.pending }
    {
        self.event_queue.next_key()
    }

    /// The time of the least key.
    #[inline(always)]
    pub fn next_time(&self) -> Option<Time>
        ensures { result ≡ time_of (next_key self.now.pending) }
    {
        self.event_queue.next_time()
    }

    /// The number of an outgoing link.
    pub fn link_number(&self, index: usize) -> u16
        requires { index < length self.now.part.links }
        ensures { result ≡ (link_at self.now.part.links index).port.link }
    {
        self.links[index].port().link()
    }

    /// Its sender, with the flow's number; none at other nodes.
    pub fn sender(&self) -> Option<(u16, &Sender)>
        ensures { option_map (λ found. (found.0, found.1.now)) result ≡ sender_in self.now.part.role }
    {
        match &self.role {
            Role::Sends(flow, sender) => Some((*flow, sender)),
            Role::Receives(_, _) | Role::Routes(_) => None,
        }
    }

    /// Its receiver, with the flow's number; none at other nodes.
    pub fn receiver(&self) -> Option<(u16, &Receiver)>
        ensures { option_map (λ found. (found.0, found.1.now)) result ≡ receiver_in self.now.part.role }
    {
        match &self.role {
            Role::Receives(flow, receiver) => Some((*flow, receiver)),
            Role::Sends(_, _) | Role::Routes(_) => None,
        }
    }

    /// Its outgoing links, in rising number: each knows its number, and what waits at it.
    pub fn ports(&self) -> &[Link]
        ensures { result.now ≡ self.now.part.links }
    {
        &self.links
    }

    /// The events that are pending at it, in the order of keys.
    pub fn pending(&self) -> Result<Vec<(Key, Event)>, AllocError>
        ensures { IfOk result (λ all. all.items ≡ map.entries self.now.pending) }
    {
        in_order(self.alloc, &self.event_queue)
    }

    /// Packets come over the incoming link of an index, after all that came over it before; the chain is
    /// then empty. It takes no memory. The answer is whether others are under way before them: then the
    /// least key stays.
    #[inline(always)]
    pub fn deliver_behind(&mut self, index: usize, chain: &mut PacketChain) -> bool
        requires within { index < length self.old.incoming }
        requires rising { IsStrictlyIncreasing (stamps_of chain.old) }
        requires later { All (λ stamp. EachKey (λ k. k.source ≡ (incoming_at self.old.incoming index).link + 1 → k.time < stamp) self.old.pending) (stamps_of chain.old) }
        requires few { (incoming_at self.old.incoming index).came + length chain.old ≤ 2 ^ 50 }
        ensures node { self.new ≡ delivered self.old index chain.old }
        ensures emptied { chain.new ≡ [] }
        ensures stays { result ≡ true → next_key self.new.pending ≡ next_key self.old.pending }
    {
        self.event_queue.append_behind(index, chain)
    }

    /// Runs the event of the least key: `line` tells what it was and did, and a packet that
    /// begins to be sent goes to its link's chain in `out`. The answer is the index of that link.
    /// Where memory is refused, neither the node nor `out` changes.
    pub fn fire_into(
        &mut self,
        out: &mut Outbox,
        line: &mut Line,
    ) -> Result<Option<u16>, AllocError>
        requires pending { next_key self.old.pending ≢ None }
        requires due { (k : Key) (v : Event) → least self.old.pending ≡ Some (k, v) → IsRunnable self.old.part k v }
        requires chains { length self.old.part.links ≤ length out.old }
        requires room { All (λ chain. length chain < MOST_EVENTS) out.old }
        ensures fired { OnOk result (HasFired self.old self.new out.old out.new (shown line.new)) }
        ensures leaving { IfOk result (λ index. index ≡ option_map (λ (leaving : Leaving). leaving.index) (row self.old.part line.new.key line.new.event).leaving) }
        ensures same { OnErr result (self.new ≡ self.old) }
        ensures same_out { OnErr result (out.new ≡ out.old) }
    {
        line.acts.reset();
        // Told last, so that what it is need not be asked again to run it.
        self.event_queue.tell_least(&mut line.key, &mut line.event);
        let left = run(
            &mut self.role,
            &mut self.links,
            &mut self.event_queue,
            line,
            out,
        )?;
        self.role.show(&mut line.after);
        Ok(left)
    }

    /// Runs the event of the least key, as `fire_into` does, and answers the line.
    pub fn fire(&mut self, out: &mut Outbox) -> Result<Line, AllocError>
        requires pending { next_key self.old.pending ≢ None }
        requires due { (k : Key) (v : Event) → least self.old.pending ≡ Some (k, v) → IsRunnable self.old.part k v }
        requires chains { length self.old.part.links ≤ length out.old }
        requires room { All (λ chain. length chain < MOST_EVENTS) out.old }
        ensures fired { IfOk result (λ line. HasFired self.old self.new out.old out.new (shown line)) }
        ensures same { OnErr result (self.new ≡ self.old) }
        ensures same_out { OnErr result (out.new ≡ out.old) }
    {
        let mut line = Line::new(self.alloc);
        self.fire_into(out, &mut line)?;
        Ok(line)
    }

    /// A node in the same state, with packets in cells of its own.
    pub fn copy(&self) -> Result<Node, AllocError>
        ensures { IfOk result (λ copy. copy ≡ self.now) }
    {
        let role = self.role.copy()?;
        let links = copies_of(self.alloc, &self.links)?;
        let event_queue = self.event_queue.copy()?;
        Ok(Node {
            role,
            links,
            event_queue,
            alloc: self.alloc,
        })
    }
}
