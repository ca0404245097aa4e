//! What a node of a scenario is made of, before anything is sent.
ghost use Rattle.std.specs.Prelude.{◌≡◌, ◌==◌, ◌<◌, ◌≤◌, IfOk, length, map};
ghost use Rattle.std.specs.List.{position};
ghost use Rattle.std.specs.Option.{option_and_then};
ghost use Rattle.scenario_image.specs.Limits.{IsInLimits};
ghost use Rattle.scenario_image.specs.Scenario.{IsScenario};
ghost use Rattle.scenario_image.specs.Paths.{route_link as link_of_route};
ghost use Rattle.node_core.specs.InStep.{flow_of};
ghost use Rattle.node_core.specs.Initial.{node_kind, initial_link as link_at_first, leaving_links, coming_links, initial_links as links_at_first, exits_of, initial_role as role_at_first};
ghost use Rattle.node_core.specs.InitialEventQueue.{IsLinkOf, IsNodeOf, numbers_of, flow_sent, flow_received, start_at as start_of_flow, initial_event_queue as event_queue_at_first};

use crate::event_queue::EventQueue;
use crate::link::Link;
use crate::role::Role;
use crate::routes::{FlowExits, RouteTable};
use crate::timer::Timer;
use aqm::Queue;
use port::Port;
use reno_receiver::Receiver;
use reno_sender::Sender;
use scenario_image::{FlowPart, LinkPart, NodeKind, ScenarioParts, route_link};
use sim_time::{Rate, Time};
use std::alloc::{AllocError, Global};

// The link of a number, before anything was offered to it.
fn initial_link(alloc: Global, number: u16, part: &LinkPart) -> Result<Link, AllocError>
    requires { IsLinkOf number part.now }
    ensures { IfOk result (λ link. link ≡ link_at_first (number, part.now)) }
{
    let rate = Rate::new(part.rate).unwrap();
    let queue = Queue::new(alloc, part.queue, part.capacity);
    let lose = part.lose.as_slice().to_vec(alloc)?;
    let port = Port::new(alloc, number, rate, part.delay, queue, lose);
    Ok(Link::new(part.to, port))
}

/// The links that leave a node, in rising number.
pub(crate) fn initial_links(
    alloc: Global,
    parts: &ScenarioParts,
    node: u16,
) -> Result<Vec<Link>, AllocError>
    requires { IsInLimits parts.now }
    ensures { IfOk result (λ links. links.items ≡ links_at_first parts.now.links node) }
{
    let mut links = Vec::new(alloc);
    for (number, part) in parts.links.as_slice().iter().enumerate() {
        if part.from == node {
            let link = initial_link(alloc, number as u16, part)?;
            links.push(link)?;
        }
    }
    Ok(links)
}

/// The numbers of the links that leave a node, which rise.
pub fn leaving_numbers(alloc: Global, links: &[LinkPart], node: u16) -> Result<Vec<u16>, AllocError>
    requires { length links.now ≤ 1024 }
    ensures { IfOk result (λ numbers. numbers.items ≡ numbers_of (leaving_links links.now node)) }
{
    let mut numbers: Vec<u16> = Vec::new(alloc);
    for (number, link) in links.iter().enumerate() {
        if link.from == node {
            numbers.push(number as u16)?;
        }
    }
    Ok(numbers)
}

// The numbers of the links that end at a node, which rise.
fn coming_numbers(alloc: Global, links: &[LinkPart], node: u16) -> Result<Vec<u16>, AllocError>
    requires { length links.now ≤ 1024 }
    ensures { IfOk result (λ numbers. numbers.items ≡ numbers_of (coming_links links.now node)) }
{
    let mut numbers: Vec<u16> = Vec::new(alloc);
    for (number, link) in links.iter().enumerate() {
        if link.to == node {
            numbers.push(number as u16)?;
        }
    }
    Ok(numbers)
}

// Which of a node's links, whose numbers are given, goes to a destination by the node's route.
fn initial_exit(parts: &ScenarioParts, leaving: &[u16], node: u16, destination: u16) -> Option<u16>
    requires { IsNodeOf parts.now node leaving.now }
    ensures { result ≡ option_and_then (λ number. position (λ n. n == number) leaving.now) (link_of_route parts.now.routes node destination) }
{
    let number = route_link(parts, node, destination)?;
    let index = leaving.iter().position(|leaves| *leaves == number)?;
    Some(index as u16)
}

// A router's exits, flow by flow. The numbers of its links are given.
fn initial_exits(
    alloc: Global,
    parts: &ScenarioParts,
    leaving: &[u16],
    node: u16,
) -> Result<RouteTable, AllocError>
    requires { IsNodeOf parts.now node leaving.now }
    ensures { IfOk result (λ table. table ≡ map (exits_of parts.now node) parts.now.flows) }
{
    let mut exits = Vec::new(alloc);
    for flow in parts.flows.as_slice() {
        exits.push(FlowExits {
            for_data: initial_exit(parts, leaving, node, flow.receiver),
            for_acks: initial_exit(parts, leaving, node, flow.sender),
        })?;
    }
    Ok(RouteTable::new(exits))
}

// The flow that a node sends, with its number.
fn flow_from(flows: &[FlowPart], node: u16) -> Option<(u16, FlowPart)>
    requires { length flows.now ≤ 128 }
    ensures { result ≡ flow_sent flows.now node }
{
    let number = flows.iter().position(|flow| flow.sender == node)?;
    Some((number as u16, flows[number]))
}

// When the flow that a node sends starts.
fn start_at(flows: &[FlowPart], node: u16) -> Option<Time>
    requires { length flows.now ≤ 128 }
    ensures { result ≡ start_of_flow flows.now node }
{
    let (_, flow) = flow_from(flows, node)?;
    Some(flow.start)
}

// The flow that a node receives, with its number.
fn flow_to(flows: &[FlowPart], node: u16) -> Option<(u16, FlowPart)>
    requires { length flows.now ≤ 128 }
    ensures { result ≡ flow_received flows.now node }
{
    let number = flows.iter().position(|flow| flow.receiver == node)?;
    Some((number as u16, flows[number]))
}

/// What a node does. The numbers of its outgoing links are given.
pub fn initial_role(
    alloc: Global,
    parts: &ScenarioParts,
    leaving: &[u16],
    node: u16,
) -> Result<Role, AllocError>
    requires scenario { IsScenario parts.now }
    requires within { node < length parts.now.nodes }
    requires few { length leaving.now ≤ 1024 }
    requires leaving { leaving.now ≡ numbers_of (leaving_links parts.now.links node) }
    ensures { IfOk result (λ role. role ≡ role_at_first parts.now node (node_kind parts.now node)) }
{
    let flows = parts.flows.as_slice();
    match parts.nodes.as_slice()[usize::from(node)] {
        NodeKind::Sender => {
            let (number, flow) = flow_from(flows, node).unwrap();
            Ok(Role::Sends(number, Sender::new(flow.sender_settings())))
        }
        NodeKind::Receiver => {
            let (number, flow) = flow_to(flows, node).unwrap();
            let receiver = Receiver::new(alloc, u64::from(flow.mss), u64::from(flow.delack));
            Ok(Role::Receives(number, receiver))
        }
        NodeKind::Router => Ok(Role::Routes(initial_exits(alloc, parts, leaving, node)?)),
    }
}

/// What is pending at a node that has this flow and outgoing links of these numbers: the start of
/// the flow, where the node sends it.
pub(crate) fn initial_event_queue(
    alloc: Global,
    parts: &ScenarioParts,
    node: u16,
    flow: u16,
    leaving: Vec<u16>,
) -> Result<EventQueue, AllocError>
    requires at { IsNodeOf parts.now node leaving.items }
    requires flow { flow ≡ flow_of (role_at_first parts.now node (node_kind parts.now node)) }
    ensures { IfOk result (λ event_queue. event_queue ≡ event_queue_at_first parts.now node) }
{
    let coming = coming_numbers(alloc, parts.links.as_slice(), node)?;
    let mut event_queue = EventQueue::new(alloc, node, flow, leaving, &coming)?;
    event_queue.set_timer(Timer::Start, start_at(parts.flows.as_slice(), node));
    Ok(event_queue)
}
