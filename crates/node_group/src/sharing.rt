//! A net is split into the states of its groups.
ghost use Rattle.std.specs.Prelude.{◌≡◌, ◌<◌, ◌≤◌, ◌^◌, [], IfOk, length, vec_capacity};
ghost use Rattle.node_core.specs.Part.{link_at};
ghost use Rattle.net_machine.specs.declared.places.LinkEnds.{LinkEnds};
ghost use Rattle.net_machine.specs.Nodes.{IsPlaced};
ghost use Rattle.net_machine.specs.NetOf.{AreNetParts};
ghost use Rattle.net_partition.specs.Partition.{groups_of};
ghost use Rattle.node_group.specs.GroupStates.{AreJoined, AreIdle, IsRoom, AreRooms, AreSeatedBelow, AreGroupStatesOf, HaveSent};

use crate::exits::Exits;
use crate::group_state::{GroupState, GroupStateParts};
use crate::held::HeldPackets;
use crate::nodes_by_number::NodesByNumberParts;
use net_machine::LinkEnds;
use net_partition::Partition;
use node_core::{Node, Outbox};
use scenario_image::limits::MOST_ROUTER_LINKS;
use sim_time::Time;
use std::alloc::{AllocError, Global};

// How many packets an outgoing link of a node has sent; none where there is no such link.
fn sent_by(node: &Node, index: usize) -> u64
    ensures { result ≡ (link_at node.now.part.links index).port.sent }
{
    let ports = node.ports();
    if index < ports.len() {
        ports[index].port().sent()
    } else {
        0
    }
}

// For each link of a net how many packets came over it: all that it sent.
fn sent_over(alloc: Global, nodes: &[Node], links: &[LinkEnds]) -> Result<Vec<u64>, AllocError>
    requires { AreJoined links.now nodes.now }
    ensures { IfOk result (λ sent. HaveSent links.now nodes.now sent.items) }
{
    // How many of the links so far leave each node.
    let mut leaving = vec![in alloc; 0usize; nodes.len()]?;
    let mut sent = Vec::with_capacity(alloc, links.len())?;
    for ends in links {
        let from = usize::from(ends.from);
        let index = leaving[from];
        leaving[from] = index + 1;
        sent.push(sent_by(&nodes[from], index))?;
    }
    Ok(sent)
}

// For each link of a net a wire over which all that it sent has come.
fn idle_exits(
    alloc: Global,
    _nodes: &[Node],
    links: &[LinkEnds],
    sent: &[u64],
) -> Result<Exits, AllocError>
    requires joined { AreJoined links.now _nodes.now }
    requires sent { HaveSent links.now _nodes.now sent.now }
    ensures { IfOk result (λ exits. AreIdle links.now _nodes.now exits) }
{
    let mut exits = Exits::new(alloc);
    for (link, ends) in links.iter().enumerate() {
        exits.push(HeldPackets::new(alloc, ends.to.node, link as u16, sent[link]))?;
    }
    Ok(exits)
}

// The same links in memory of their own.
fn copied(links: &Vec<LinkEnds>) -> Result<Vec<LinkEnds>, AllocError>
    ensures { IfOk result (λ copy. copy.items ≡ links.now.items) }
{
    links.clone()
}

// Room for the state of a group of a net.
fn room_of(
    alloc: Global,
    nodes: &[Node],
    links: &Vec<LinkEnds>,
    sent: &[u64],
    partition: &Partition,
    number: usize,
) -> Result<GroupStateParts, AllocError>
    requires joined { AreJoined links.now.items nodes.now }
    requires sent { HaveSent links.now.items nodes.now sent.now }
    requires few { length partition.now ≤ 2 ^ 12 }
    ensures { IfOk result (λ room. IsRoom partition.now links.now.items nodes.now number room) }
{
    Ok(GroupStateParts {
        links: copied(links)?,
        nodes_by_number: NodesByNumberParts::new(alloc, partition, number)?,
        exits: idle_exits(alloc, nodes, links, sent)?,
        out: Outbox::new(alloc, MOST_ROUTER_LINKS)?,
    })
}

/// Room for the state of each group of a net, with no node yet.
pub fn rooms_of(
    alloc: Global,
    nodes: &[Node],
    links: &Vec<LinkEnds>,
    partition: &Partition,
) -> Result<Vec<GroupStateParts>, AllocError>
    requires joined { AreJoined links.now.items nodes.now }
    requires few { length partition.now ≤ 2 ^ 12 }
    ensures count { IfOk result (λ rooms. length rooms.items ≡ groups_of partition.now) }
    ensures each { IfOk result (λ rooms. AreRooms partition.now links.now.items nodes.now rooms.items) }
{
    let sent = sent_over(alloc, nodes, links)?;
    let mut rooms = Vec::new(alloc);
    for number in 0..partition.groups() {
        rooms.push(room_of(alloc, nodes, links, &sent, partition, number)?)?;
    }
    Ok(rooms)
}

// The nodes of a net, joined by these links, take their seats in rising number, each in its group's
// room. No memory is taken.
fn seat_all(
    nodes: &mut Vec<Node>,
    _links: &[LinkEnds],
    partition: &Partition,
    rooms: &mut [GroupStateParts],
)
    requires rooms { AreRooms partition.now _links.now nodes.old.items rooms.old }
    requires groups { length rooms.old ≡ groups_of partition.now }
    requires few { length rooms.old ≤ 64 }
    requires size { length partition.now ≡ length nodes.old.items }
    requires placed { IsPlaced nodes.old.items }
    ensures seated { AreSeatedBelow (length partition.now) partition.now _links.now nodes.old.items rooms.new }
    ensures count { length rooms.new ≡ length rooms.old }
    ensures nodes { nodes.new.items ≡ [] }
{
    nodes.reverse();
    while let Some(node) = nodes.pop() {
        let place = usize::from(node.number());
        rooms[partition.group(place)]
            .nodes_by_number
            .join(place, node);
    }
}

/// The nodes of a net take their seats, each in its group's room, and each group has its state. No
/// memory is taken.
pub fn share_out(
    alloc: Global,
    mut nodes: Vec<Node>,
    links: &[LinkEnds],
    end: Time,
    position: u64,
    partition: &Partition,
    mut rooms: Vec<GroupStateParts>,
    group_states: &mut Vec<GroupState>,
)
    requires net { AreNetParts nodes.items links.now end position }
    requires size { length partition.now ≡ length nodes.items }
    requires rooms { AreRooms partition.now links.now nodes.items rooms.items }
    requires groups { length rooms.items ≡ groups_of partition.now }
    requires few { length rooms.items ≤ 64 }
    requires empty { group_states.old.items ≡ [] }
    requires capacity { length rooms.items ≤ vec_capacity group_states.old }
    ensures count { length group_states.new.items ≡ groups_of partition.now }
    ensures each { AreGroupStatesOf partition.now links.now nodes.items end position group_states.new.items }
    ensures capacity { vec_capacity group_states.new ≡ vec_capacity group_states.old }
{
    seat_all(&mut nodes, links, partition, &mut rooms);
    while let Some(room) = rooms.pop() {
        let number = rooms.len();
        group_states.push_reserved(GroupState::new(alloc, number, partition, room, end, position));
    }
    group_states.reverse();
}
