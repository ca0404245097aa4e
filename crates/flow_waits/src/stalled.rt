//! Whether a flow is stalled: its sender, its start and its packets.
ghost use Rattle.std.specs.Prelude.{◌≡◌, IfOk};
ghost use Rattle.std.specs.List.{list_any};
ghost use Rattle.net_machine.specs.Nodes.{parts_of};
ghost use Rattle.trace_text.specs.DumpParts.{has_waiting};
ghost use Rattle.flow_waits.specs.Stalled.{sender_of, start_due, is_waiting, is_under_way, is_stalled};

use crate::flow_status::is_unfinished;
use net_machine::Net;
use node_core::link::Link;
use node_core::{Event, Node};
use reno_sender::Sender;
use sim_time::{Key, Time};
use std::alloc::{AllocError, Global};
use trace_text::{has_waiting, pending_events};

/// Whether a flow is stalled: it was started, bytes of it are still to be acknowledged, and none of its
/// packets waits at a link or is under way, so that at most a timer of its own goes on with it. Memory is
/// taken only where the flow's packets have to be looked for among all that is pending: where bytes are to be
/// acknowledged, and none of its packets waits.
pub fn is_stalled(alloc: Global, net: &Net, flow: u16) -> Result<bool, AllocError>
    ensures { IfOk result (λ stalled. stalled ≡ is_stalled flow net.now.state) }
{
    match sender_of(flow, net.nodes()) {
        Some(sender) if is_unfinished(&sender) && !is_waiting(flow, net.nodes()) => {
            let pending = pending_events(alloc, net)?;
            Ok(start_of(flow, &pending).is_none() && !is_under_way(flow, &pending))
        }
        _ => Ok(false),
    }
}

/// The sender of a flow, where one of the nodes sends it.
pub(crate) fn sender_of(flow: u16, nodes: &[Node]) -> Option<Sender>
    ensures { result ≡ sender_of flow (parts_of nodes.now) }
{
    for node in nodes {
        match node.sender() {
            Some((own, sender)) if own == flow => return Some(*sender),
            _ => {}
        }
    }
    None
}

/// When a flow starts, in nanoseconds, where that is still to come.
pub(crate) fn start_of(flow: u16, pending: &[(Key, Event)]) -> Option<Time>
    ensures { result ≡ start_due flow pending.now }
{
    for (key, event) in pending {
        if matches!(event, Event::Start(own) if *own == flow) {
            return Some(key.time);
        }
    }
    None
}

/// Whether a packet of a flow waits at a link.
pub(crate) fn is_waiting(flow: u16, nodes: &[Node]) -> bool
    ensures { result ≡ is_waiting flow (parts_of nodes.now) }
{
    for node in nodes {
        if waits_at(flow, node.ports()) {
            return true;
        }
    }
    false
}

/// Whether one waits at one of these links.
fn waits_at(flow: u16, links: &[Link]) -> bool
    ensures { result ≡ list_any (has_waiting flow) links.now }
{
    links.iter().any(|link| has_waiting(flow, link))
}

/// Whether a packet of a flow is under way.
pub(crate) fn is_under_way(flow: u16, pending: &[(Key, Event)]) -> bool
    ensures { result ≡ is_under_way flow pending.now }
{
    pending.iter().any(|entry| matches!(entry.1, Event::Arrive(packet) if packet.flow == flow))
}
