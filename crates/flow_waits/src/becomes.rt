//! Whether a flow becomes stalled by an event.
ghost use Rattle.std.specs.Prelude.{◌≡◌, ◌↔◌, ℕ, true, Some, IsTrue, IfOk};
ghost use Rattle.std.specs.List.{list_any};
ghost use Rattle.node_core.specs.TraceLine.{shown};
ghost use Rattle.net_machine.specs.Run.{Reached, IsRun, Stepped};
ghost use Rattle.flow_waits.specs.Stalled.{is_stalled as is_stalled_in, becomes_stalled as stalls, is_drop_of, may_stall, is_stalled_by_drop, some_stalls};

use crate::stalled::is_stalled;
use net_machine::Net;
use node_core::{Event, Line};
use port::Act;
use std::alloc::{AllocError, Global};

/// Whether a flow is stalled in the state after an event, of which a line tells, and was not in the one before.
/// Memory is taken as `is_stalled` takes it, and only where the flow starts, a packet of it arrives, or a link that
/// becomes free drops one: by no other event does a flow become stalled.
pub fn becomes_stalled(alloc: Global, net: &Net, line: &Line, flow: u16) -> Result<bool, AllocError>
    ensures { (before : Reached) → IsRun before → Stepped before (Some (shown line.now)) net.now → IfOk result (λ stalled. stalled ≡ stalls flow before.state net.now.state) }
{
    if may_stall(flow, &line.event, line.acts.as_slice()) {
        is_stalled(alloc, net, flow)
    } else {
        Ok(false)
    }
}

/// The same of any flow.
pub fn some_becomes_stalled(alloc: Global, net: &Net, line: &Line) -> Result<bool, AllocError>
    ensures { (before : Reached) → IsRun before → Stepped before (Some (shown line.now)) net.now → IfOk result (λ stalled. IsTrue stalled ↔ ((flow : ℕ) × (stalls flow before.state net.now.state ≡ true))) }
{
    some_stalls(alloc, net, &line.event, line.acts.as_slice())
}

/// Whether a flow for which an event may do so is stalled after it.
fn some_stalls(alloc: Global, net: &Net, event: &Event, acts: &[Act]) -> Result<bool, AllocError>
    ensures { IfOk result (λ stalled. stalled ≡ some_stalls event.now acts.now net.now.state) }
{
    match event {
        Event::Start(own) => is_stalled(alloc, net, *own),
        Event::Rto(_) | Event::DelAck(_) => Ok(false),
        Event::Free(_) => some_stalls_by_drop(alloc, net, acts),
        Event::Arrive(packet) => is_stalled(alloc, net, packet.flow),
    }
}

/// Whether the flow of one of the packets that are dropped is stalled.
fn some_stalls_by_drop(alloc: Global, net: &Net, acts: &[Act]) -> Result<bool, AllocError>
    ensures { IfOk result (λ stalled. stalled ≡ list_any (is_stalled_by_drop net.now.state) acts.now) }
{
    for act in acts {
        if let Act::Dropped(_, _, packet) = act {
            if is_stalled(alloc, net, packet.flow)? {
                return Ok(true);
            }
        }
    }
    Ok(false)
}

/// Whether an event leaves a flow with less that goes on with it.
fn may_stall(flow: u16, event: &Event, acts: &[Act]) -> bool
    ensures { result ≡ may_stall flow event.now acts.now }
{
    match event {
        Event::Start(own) => *own == flow,
        Event::Rto(_) | Event::DelAck(_) => false,
        Event::Free(_) => has_drop_of(flow, acts),
        Event::Arrive(packet) => packet.flow == flow,
    }
}

/// Whether a packet of a flow is dropped.
fn has_drop_of(flow: u16, acts: &[Act]) -> bool
    ensures { result ≡ list_any (is_drop_of flow) acts.now }
{
    acts.iter().any(|act| matches!(act, Act::Dropped(_, _, packet) if packet.flow == flow))
}
