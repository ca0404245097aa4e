//! The nodes of a group, with a timetable of their next keys.
ghost use Rattle.std.specs.Prelude.{◌≡◌, ◌≢◌, ◌==◌, ◌+◌, ◌<◌, ◌≤◌, ◌^◌, ◌++◌, ◌∷◌, [], ℕ, All, IfOk, IfSome, OnOk, OnErr, MatchOption, Option, Some, None, is_some, length, slice_set, slice_index_or, replicate, count_by, vec_capacity};
ghost use Rattle.std.specs.Option.{option_map, option_copied};
ghost use Rattle.std.specs.List.Sorted.{IsStrictlyIncreasing};
ghost use Rattle.sim_time.specs.declared.key.Key.{Key};
ghost use Rattle.sim_time.specs.declared.limits.TheConstants.{MOST_EVENTS};
ghost use Rattle.tournament.specs.Keyed.{least, next_key, EachKey};
ghost use Rattle.tournament.specs.Timed.{time_of};
ghost use Rattle.node_core.specs.declared.event.Event.{Event};
ghost use Rattle.node_core.specs.EventQueueState.{incoming_at};
ghost use Rattle.node_core.specs.WireState.{stamps_of};
ghost use Rattle.node_core.specs.Part.{link_at};
ghost use Rattle.node_core.specs.Row.{Leaving, row};
ghost use Rattle.node_core.specs.Ready.{IsRunnable};
ghost use Rattle.node_core.specs.TraceLine.{shown};
ghost use Rattle.node_core.specs.Node.{NodeState, delivered, HasFired};
ghost use Rattle.net_machine.specs.Nodes.{node_at, net_pending, IsPlaced, IsFirst};
ghost use Rattle.node_group.specs.Seats.{seated, taken_nodes, number_at};
ghost use Rattle.node_group.specs.Numbered.{seats_of, AreFound, AreRising};

use net_machine::Nodes;
use net_partition::Partition;
use node_core::{Line, Node, Outbox};
use packet_chain::PacketChain;
use sim_time::Time;
use std::alloc::{AllocError, Global};
use std::marker::Model;
use tournament::Timetable;

/// Where a node is that is not among those of a group.
const NOWHERE: u32 = u32::MAX;

/// What the nodes of a group are made of, while they join one after another.
#[derive(Drop)]
pub struct NodesByNumberParts {
    /// The nodes that have joined, in that order.
    pub nodes: Vec<Node>,
    /// For each node of the net, by its number, which of these it is; none of them where it has not
    /// joined.
    pub index: Vec<u32>,
    /// A timetable of as many places as nodes are to join, whatever it holds.
    pub timetable: Timetable,
}

/// The nodes of a group.
#[derive(Drop)]
pub struct NodesByNumber {
    /// The nodes, in rising number, and none of other groups between them.
    nodes: Nodes,
    /// For each node of the net, by its number, which of these it is; none of them where it is
    /// another group's.
    index: Vec<u32>,
}

impl Model for NodesByNumber {
    ghost use Rattle.node_group.specs.Seats.{Seats, seats_code};
    ghost use Rattle.node_group.specs.Numbered.{seats_of, AreNodesByNumber};

    ghost Value = { Seats };

    ghost coded = { seats_code };

    ghost view = { λ m. seats_of m.nodes m.index.items };

    ghost invariant = { λ m. AreNodesByNumber m.nodes m.index.items };
}

// How many nodes are in a group.
fn size_of(partition: &Partition, number: usize) -> usize
    ensures count { result ≡ count_by (λ entry. entry == number) partition.now }
    ensures most { result ≤ length partition.now }
{
    let mut size = 0;
    for node in 0..partition.nodes() {
        if partition.group(node) == number {
            size += 1;
        }
    }
    size
}

impl NodesByNumberParts {
    /// Room for the nodes of a group, of which none has joined yet.
    pub(crate) fn new(
        alloc: Global,
        partition: &Partition,
        number: usize,
    ) -> Result<NodesByNumberParts, AllocError>
        requires { length partition.now ≤ 2 ^ 12 }
        ensures nodes { IfOk result (λ parts. parts.nodes.items ≡ []) }
        ensures index { IfOk result (λ parts. parts.index.items ≡ replicate (length partition.now) 4294967295) }
        ensures size { IfOk result (λ parts. length parts.timetable ≡ count_by (λ entry. entry == number) partition.now) }
        ensures few { IfOk result (λ parts. length parts.timetable ≤ 2 ^ 12) }
        ensures capacity { IfOk result (λ parts. length parts.timetable ≤ vec_capacity parts.nodes) }
    {
        let size = size_of(partition, number);
        Ok(NodesByNumberParts {
            nodes: Vec::with_capacity(alloc, size)?,
            index: vec![in alloc; NOWHERE; partition.nodes()]?,
            timetable: Timetable::new(alloc, size)?,
        })
    }

    /// A node joins, of this number. No memory is taken.
    pub(crate) fn join(&mut self, number: usize, node: Node)
        requires within { number < length self.old.index.items }
        requires room { length self.old.nodes.items < vec_capacity self.old.nodes }
        requires few { length self.old.nodes.items < 2 ^ 12 }
        ensures nodes { self.new.nodes.items ≡ self.old.nodes.items ++ node ∷ [] }
        ensures index { self.new.index.items ≡ slice_set self.old.index.items number (length self.old.nodes.items) }
        ensures capacity { vec_capacity self.new.nodes ≡ vec_capacity self.old.nodes }
        ensures timetable { self.new.timetable ≡ self.old.timetable }
    {
        self.index[number] = self.nodes.len() as u32;
        self.nodes.push_reserved(node);
    }
}

impl NodesByNumber {
    /// The nodes of a group, all of which have joined. No memory is taken.
    pub(crate) fn of_parts(parts: NodesByNumberParts) -> NodesByNumber
        requires placed { IsPlaced (seated (seats_of parts.nodes.items parts.index.items)) }
        requires found { AreFound parts.nodes.items parts.index.items }
        requires rising { AreRising parts.nodes.items }
        requires room { length parts.timetable ≡ length parts.nodes.items }
        ensures { result ≡ seats_of parts.nodes.items parts.index.items }
    {
        NodesByNumber {
            nodes: Nodes::of_parts(parts.nodes, parts.timetable),
            index: parts.index,
        }
    }

    /// The node of a number, where it is in the group.
    pub(crate) fn node(&self, number: usize) -> Option<&Node>
        requires { number < length self.now }
        ensures { option_copied result ≡ slice_index_or self.now number None }
    {
        self.nodes.as_slice().get(self.index[number] as usize)
    }

    /// The place of the node of a number, where it is in the group.
    #[inline(always)]
    pub(crate) fn place(&self, number: usize) -> Option<usize>
        requires { number < length self.now }
        ensures has { is_some result ≡ is_some (slice_index_or self.now number None) }
        ensures place { IfSome result (λ at. number_at self.now at ≡ number) }
    {
        let at = self.index[number] as usize;
        if at < self.nodes.as_slice().len() {
            Some(at)
        } else {
            None
        }
    }

    /// The place of the node at which the least key is pending, and its time.
    #[inline(always)]
    pub(crate) fn first(&self) -> Option<(usize, Time)>
        ensures first { MatchOption result (least (net_pending (seated self.now)) ≡ None) (λ entry. IsFirst (seated self.now) (number_at self.now entry.0)) }
        ensures time { option_map (λ entry. entry.1) result ≡ time_of (next_key (net_pending (seated self.now))) }
    {
        self.nodes.first()
    }

    /// Runs the event of the least key of the node at a place. What it says and promises is that of
    /// [`Node::fire_into`].
    #[inline(always)]
    pub(crate) fn fire_into(
        &mut self,
        at: usize,
        out: &mut Outbox,
        line: &mut Line,
    ) -> Result<Option<u16>, AllocError>
        requires within { number_at self.old at < length self.old }
        requires pending { next_key (node_at (seated self.old) (number_at self.old at)).pending ≢ None }
        requires due { let node = node_at (seated self.old) (number_at self.old at) in (k : Key) (v : Event) → least node.pending ≡ Some (k, v) → IsRunnable node.part k v }
        requires chains { length (node_at (seated self.old) (number_at self.old at)).part.links ≤ length out.old }
        requires room { All (λ chain. length chain < MOST_EVENTS) out.old }
        ensures fired { let number = number_at self.old at in OnOk result (HasFired (node_at (seated self.old) number) (node_at (seated self.new) number) out.old out.new (shown line.new)) }
        ensures put { let number = number_at self.old at in OnOk result (self.new ≡ slice_set self.old number (Some (node_at (seated self.new) number))) }
        ensures count { OnOk result (length (seated self.new) ≡ length (seated self.old)) }
        ensures taken { OnOk result (taken_nodes self.new ≡ taken_nodes self.old) }
        ensures leaving { IfOk result (λ index. index ≡ option_map (λ (leaving : Leaving). leaving.index) (row (node_at (seated self.old) (number_at self.old at)).part line.new.key line.new.event).leaving) }
        ensures same { OnErr result (self.new ≡ self.old) }
        ensures same_out { OnErr result (out.new ≡ out.old) }
    {
        self.nodes.fire_into(at, out, line)
    }

    /// The number of an outgoing link of the node at a place.
    pub(crate) fn link_number(&self, at: usize, index: usize) -> u16
        requires within { number_at self.now at < length self.now }
        requires index { index < length (node_at (seated self.now) (number_at self.now at)).part.links }
        ensures { result ≡ (link_at (node_at (seated self.now) (number_at self.now at)).part.links index).port.link }
    {
        self.nodes.link_number(at, index)
    }

    /// Packets come to the node at a place over one of its incoming links, after all that came over
    /// it before; the chain is then empty. It takes no memory.
    #[inline(always)]
    pub(crate) fn deliver(&mut self, at: usize, index: usize, chain: &mut PacketChain)
        requires place { number_at self.old at < length self.old }
        requires within { index < length (node_at (seated self.old) (number_at self.old at)).incoming }
        requires rising { IsStrictlyIncreasing (stamps_of chain.old) }
        requires later { let node = node_at (seated self.old) (number_at self.old at) in All (λ stamp. EachKey (λ k. k.source ≡ (incoming_at node.incoming index).link + 1 → k.time < stamp) node.pending) (stamps_of chain.old) }
        requires few { (incoming_at (node_at (seated self.old) (number_at self.old at)).incoming index).came + length chain.old ≤ 2 ^ 50 }
        ensures nodes { let number = number_at self.old at in seated self.new ≡ slice_set (seated self.old) number (delivered (node_at (seated self.old) number) index chain.old) }
        ensures placed { IsPlaced (seated self.new) }
        ensures taken { taken_nodes self.new ≡ taken_nodes self.old }
        ensures emptied { chain.new ≡ [] }
    {
        self.nodes.deliver(at, index, chain);
    }
}
