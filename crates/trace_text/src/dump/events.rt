//! The lines of the pending events.
ghost use Rattle.std.specs.Prelude.{◌≡◌, ◌++◌, IfOk, OnOk, string_bytes};
ghost use Rattle.std.specs.List.{flat_map};
ghost use Rattle.std.specs.FinMap as map;
ghost use Rattle.net_machine.specs.Nodes.{pendings, net_pending, IsPlaced};
ghost use Rattle.tournament.specs.Gathered.{all_entries};
ghost use Rattle.trace_text.specs.Chosen.{chosen_event};
ghost use Rattle.trace_text.specs.Dump.{event_line};
ghost use Rattle.trace_text.specs.DumpParts.{is_event_of};

use super::parts::Due;
use net_machine::Net;
use node_core::{Event, Node};
use sim_time::Key;
use std::alloc::{AllocError, Global};

/// Writes the line of each event that is pending at one of the nodes, in the order of keys, or of
/// those of a flow.
pub(super) fn write_events(
    out: &mut String,
    flow: Option<u16>,
    nodes: &[Node],
) -> Result<(), AllocError>
    requires { IsPlaced nodes.now }
    ensures { OnOk result (string_bytes out.new ≡ string_bytes out.old
        ++ flat_map (chosen_event flow) (map.entries (net_pending nodes.now))) }
{
    let pending = in_order(*out.allocator(), nodes)?;
    for (key, event) in &pending {
        write_chosen(out, flow, key, event)?;
    }
    Ok(())
}

/// Writes the line of a pending event, where it is one of the flow that is asked for.
fn write_chosen(
    out: &mut String,
    flow: Option<u16>,
    key: &Key,
    event: &Event,
) -> Result<(), AllocError>
    ensures { OnOk result (string_bytes out.new ≡ string_bytes out.old ++ chosen_event flow (key.now, event.now)) }
{
    match flow {
        Some(flow) if !is_event_of(flow, event) => Ok(()),
        _ => write_event(out, key, event),
    }
}

/// Whether an event is a timer of a flow, or brings a packet of it.
fn is_event_of(flow: u16, event: &Event) -> bool
    ensures { result ≡ is_event_of flow event.now }
{
    match event {
        Event::Start(own) | Event::Rto(own) | Event::DelAck(own) => *own == flow,
        Event::Free(_) => false,
        Event::Arrive(packet) => packet.flow == flow,
    }
}

/// The events that are pending in a net, in the order of their keys.
pub fn pending_events(alloc: Global, net: &Net) -> Result<Vec<(Key, Event)>, AllocError>
    ensures { IfOk result (λ all. all.items ≡ map.entries net.now.state.pending) }
{
    in_order(alloc, net.nodes())
}

/// What is pending at all nodes, in the order of keys.
fn in_order(alloc: Global, nodes: &[Node]) -> Result<Vec<(Key, Event)>, AllocError>
    requires { IsPlaced nodes.now }
    ensures { IfOk result (λ all. all.items ≡ map.entries (net_pending nodes.now)) }
{
    let mut all = node_by_node(alloc, nodes)?;
    all.sort_by_key(|entry| entry.0)?;
    Ok(all)
}

/// What is pending at all nodes, one node after another.
fn node_by_node(alloc: Global, nodes: &[Node]) -> Result<Vec<(Key, Event)>, AllocError>
    ensures { IfOk result (λ all. all.items ≡ all_entries (pendings nodes.now)) }
{
    let mut all = Vec::new(alloc);
    for node in nodes {
        let pending = node.pending()?;
        all.extend_from_slice(&pending)?;
    }
    Ok(all)
}

/// Writes the line of a pending event.
fn write_event(out: &mut String, key: &Key, event: &Event) -> Result<(), AllocError>
    ensures { OnOk result (string_bytes out.new ≡ string_bytes out.old ++ event_line (key.now, event.now)) }
{
    let due = Due(*event);
    write!(
        out,
        "event {} {} {} {}{due}\n",
        key.time, key.node, key.source, key.number
    )
}
