//! Nodes in a row, with a timetable of their next keys.
ghost use Rattle.std.specs.Prelude.{◌≡◌, ◌≢◌, ◌+◌, ◌<◌, ◌≤◌, ◌^◌, [], ℕ, All, IfOk, IfSome, OnOk, OnErr, MatchOption, Option, Some, None, length, slice_set, replicate};
ghost use Rattle.std.specs.Option.{option_map};
ghost use Rattle.std.specs.List.Sorted.{IsStrictlyIncreasing};
ghost use Rattle.sim_time.specs.declared.key.Key.{Key};
ghost use Rattle.sim_time.specs.declared.limits.TheConstants.{MOST_EVENTS};
ghost use Rattle.tournament.specs.Leading.{rank_at};
ghost use Rattle.tournament.specs.Timed.{AreInPlace};
ghost use Rattle.tournament.specs.Keyed.{least, next_key, EachKey};
ghost use Rattle.node_core.specs.declared.event.Event.{Event};
ghost use Rattle.node_core.specs.EventQueueState.{incoming_at};
ghost use Rattle.node_core.specs.WireState.{stamps_of};
ghost use Rattle.node_core.specs.Part.{link_at};
ghost use Rattle.node_core.specs.Row.{Leaving, row};
ghost use Rattle.node_core.specs.Ready.{IsRunnable};
ghost use Rattle.node_core.specs.TraceLine.{shown};
ghost use Rattle.node_core.specs.Node.{delivered, HasFired};
ghost use Rattle.net_machine.specs.Nodes.{node_at, next_keys, next_times, LeadsAt, AreCopies};

use node_core::{Line, Node, Outbox};
use packet_chain::PacketChain;
use sim_time::Time;
use std::alloc::{AllocError, Global};
use std::marker::Model;
use tournament::Timetable;

/// Nodes of a net in a row: all of it, each at its number, or some of it.
#[derive(Drop)]
pub struct Nodes {
    nodes: Vec<Node>,
    /// The time of each node's next key.
    timetable: Timetable,
}

impl Model for Nodes {
    ghost use Rattle.std.specs.Prelude.{List};
    ghost use Rattle.node_core.specs.Node.{NodeState};

    ghost Value = { List NodeState };

    ghost use Rattle.net_machine.specs.Codes.{nodes_code};

    ghost coded = { nodes_code };

    ghost use Rattle.std.specs.Prelude.{◌≡◌};
    ghost use Rattle.net_machine.specs.Nodes.{next_times};

    ghost view = { λ n. n.nodes.items };

    ghost invariant = { λ n. n.timetable ≡ next_times n.nodes.items };
}

// Room for copies of so many nodes, of which there is none yet.
fn no_copies(alloc: Global, count: usize) -> Result<Vec<Option<Node>>, AllocError>
    ensures { IfOk result (λ copies. copies.items ≡ replicate count None) }
{
    let mut copies = Vec::with_capacity(alloc, count)?;
    for _place in 0..count {
        copies.push(None)?;
    }
    Ok(copies)
}

// Copies the node of a number to its place, where there is such a node.
fn copy_one(nodes: &[Node], number: u16, copies: &mut [Option<Node>]) -> Result<(), AllocError>
    requires size { length copies.old ≡ length nodes.now }
    requires before { AreCopies nodes.now copies.old }
    ensures size { length copies.new ≡ length nodes.now }
    ensures copies { AreCopies nodes.now copies.new }
{
    let place = usize::from(number);
    if place >= nodes.len() {
        return Ok(());
    }
    let copy = nodes[place].copy()?;
    let _before = copies[place].replace(copy);
    Ok(())
}

// The copy of a node that was made, or else one that is made now.
fn copy_of(node: &Node, made: Option<Node>) -> Result<Node, AllocError>
    requires { IfSome made (λ copy. copy ≡ node.now) }
    ensures { IfOk result (λ copy. copy ≡ node.now) }
{
    match made {
        Some(copy) => Ok(copy),
        None => node.copy(),
    }
}

// Copies of nodes, each at its place, of which those of these numbers are made first, in this order.
fn copies_in(alloc: Global, nodes: &[Node], order: &[u16]) -> Result<Vec<Node>, AllocError>
    ensures { IfOk result (λ copies. copies.items ≡ nodes.now) }
{
    let mut made = no_copies(alloc, nodes.len())?;
    for number in order {
        copy_one(nodes, *number, &mut made)?;
    }
    let mut copies = Vec::with_capacity(alloc, nodes.len())?;
    for place in 0..nodes.len() {
        copies.push(copy_of(&nodes[place], made[place].take())?)?;
    }
    Ok(copies)
}

// Has the time of each node's next key in a timetable.
fn set_times(nodes: &[Node], timetable: &mut Timetable)
    requires { length timetable.old ≡ length nodes.now }
    ensures { timetable.new ≡ next_times nodes.now }
{
    for at in 0..nodes.len() {
        let node = &nodes[at];
        timetable.set(at, node.next_time());
    }
}

impl Nodes {
    /// These nodes, with a timetable of as many places, whatever it holds. No memory is taken.
    pub fn of_parts(nodes: Vec<Node>, mut timetable: Timetable) -> Nodes
        requires { length timetable ≡ length nodes.items }
        ensures { result ≡ nodes.items }
    {
        set_times(&nodes, &mut timetable);
        Nodes { nodes, timetable }
    }

    /// The nodes, and their timetable.
    pub fn into_parts(self) -> (Vec<Node>, Timetable)
        ensures nodes { result.0.items ≡ self }
        ensures room { length result.1 ≡ length self }
    {
        (self.nodes, self.timetable)
    }

    /// The place of the node at which the least key is pending, and its time. Of keys of one time the
    /// one at the lowest place has to be the least.
    #[inline(always)]
    pub fn first(&self) -> Option<(usize, Time)>
        requires in_place { AreInPlace (next_keys self.now) }
        ensures { MatchOption result ((place : ℕ) → rank_at (next_keys self.now) place ≡ None) (λ entry. LeadsAt self.now entry.0 entry.1) }
    {
        match self.timetable.first() {
            Some((place, time)) => Some((place, time)),
            None => None,
        }
    }

    /// Runs the event of the least key of a node. What it says and promises is that of
    /// [`Node::fire_into`].
    #[inline(always)]
    pub fn fire_into(
        &mut self,
        place: usize,
        out: &mut Outbox,
        line: &mut Line,
    ) -> Result<Option<u16>, AllocError>
        requires within { place < length self.old }
        requires pending { next_key (node_at self.old place).pending ≢ None }
        requires due { (k : Key) (v : Event) → least (node_at self.old place).pending ≡ Some (k, v) → IsRunnable (node_at self.old place).part k v }
        requires chains { length (node_at self.old place).part.links ≤ length out.old }
        requires room { All (λ chain. length chain < MOST_EVENTS) out.old }
        ensures fired { OnOk result (HasFired (node_at self.old place) (node_at self.new place) out.old out.new (shown line.new)) }
        ensures others { OnOk result (self.new ≡ slice_set self.old place (node_at self.new place)) }
        ensures leaving { IfOk result (λ index. index ≡ option_map (λ (leaving : Leaving). leaving.index) (row (node_at self.old place).part line.new.key line.new.event).leaving) }
        ensures same { OnErr result (self.new ≡ self.old) }
        ensures same_out { OnErr result (out.new ≡ out.old) }
    {
        let node = &mut self.nodes[place];
        let leaving = node.fire_into(out, line)?;
        let next = node.next_time();
        self.timetable.set(place, next);
        Ok(leaving)
    }

    /// The number of an outgoing link of a node.
    pub fn link_number(&self, place: usize, index: usize) -> u16
        requires within { place < length self.now }
        requires index { index < length (node_at self.now place).part.links }
        ensures { result ≡ (link_at (node_at self.now place).part.links index).port.link }
    {
        let node = &self.nodes[place];
        node.link_number(index)
    }

    /// Packets come to a node over one of its incoming links, after all that came over it before;
    /// the chain is then empty. It takes no memory.
    #[inline(always)]
    pub fn deliver(&mut self, place: usize, index: usize, chain: &mut PacketChain)
        requires place { place < length self.old }
        requires within { index < length (node_at self.old place).incoming }
        requires rising { IsStrictlyIncreasing (stamps_of chain.old) }
        requires later { All (λ stamp. EachKey (λ k. k.source ≡ (incoming_at (node_at self.old place).incoming index).link + 1 → k.time < stamp) (node_at self.old place).pending) (stamps_of chain.old) }
        requires few { (incoming_at (node_at self.old place).incoming index).came + length chain.old ≤ 2 ^ 50 }
        ensures nodes { self.new ≡ slice_set self.old place (delivered (node_at self.old place) index chain.old) }
        ensures emptied { chain.new ≡ [] }
    {
        let node = &mut self.nodes[place];
        // Packets that come behind others change no time.
        if node.deliver_behind(index, chain) {
            return;
        }
        let next = node.next_time();
        self.timetable.set(place, next);
    }

    /// Nodes in the same states, with packets in cells of their own.
    pub fn copy(&self) -> Result<Nodes, AllocError>
        ensures { IfOk result (λ copy. copy ≡ self.now) }
    {
        self.copy_in(&[])
    }

    /// The same, and memory is taken node by node, for those of these numbers in this order and then
    /// for the others: what nodes have that come one after another here lies side by side.
    pub fn copy_in(&self, order: &[u16]) -> Result<Nodes, AllocError>
        ensures { IfOk result (λ copy. copy ≡ self.now) }
    {
        let nodes = copies_in(*self.nodes.allocator(), &self.nodes, order)?;
        let timetable = self.timetable.copy()?;
        Ok(Nodes { nodes, timetable })
    }

    /// The nodes.
    pub fn as_slice(&self) -> &[Node]
        ensures { result.now ≡ self.now }
    {
        &self.nodes
    }
}
