//! How many packets of each flow are known to be under way, as the lines of a run tell it. Where one is, its flow is
//! not stalled, and nothing has to be looked for.
ghost use Rattle.std.specs.Prelude.{◌≡◌, ℕ, slice_index_or, slice_set};
ghost use Rattle.std.specs.List.{list_any};
ghost use Rattle.node_core.specs.TraceLine.{shown};
ghost use Rattle.breakpoints.specs.Breaks.{is_drop};
ghost use Rattle.debugger.specs.UnderWay.{one_less, one_more_packet, after_event, sent_flow, after_sending, arriving_flow, all_counted, counts_after, AreUnderWay, is_known, is_at_router, is_passed_on, leaves_moving};

use breakpoints::breaks::has_drop;
use net_machine::Net;
use node_core::{After, Event, Line};
use port::Act;
use scenario_image::limits::MOST_FLOWS;
use sim_time::Key;
use std::alloc::Global;
use trace_text::pending_events;

/// No packet of any flow is known to be under way. Where memory is refused, none ever is.
fn none_counted(alloc: Global) -> Vec<u64>
    ensures { (flow : ℕ) → slice_index_or result.items flow 0 ≡ 0 }
{
    match vec![in alloc; 0u64; MOST_FLOWS] {
        Ok(counts) => counts,
        Err(_) => Vec::new(alloc),
    }
}

/// How many packets of a flow are known to be under way.
fn count_of(counts: &[u64], flow: u16) -> u64
    ensures { result ≡ slice_index_or counts.now flow 0 }
{
    let index = usize::from(flow);
    if index < counts.len() {
        counts[index]
    } else {
        0
    }
}

/// Counts so many of a flow, where it is one that is counted.
fn set_count(counts: &mut Vec<u64>, flow: u16, count: u64)
    ensures { counts.new.items ≡ slice_set counts.old.items flow count }
{
    let index = usize::from(flow);
    if index < counts.len() {
        counts[index] = count;
    }
}

/// Counts a packet that arrives no more.
fn count_event(counts: &mut Vec<u64>, event: &Event)
    ensures { counts.new.items ≡ after_event counts.old.items event.now }
{
    match event {
        Event::Start(_) | Event::Rto(_) | Event::DelAck(_) | Event::Free(_) => {}
        Event::Arrive(packet) => {
            let fewer = count_of(counts.as_slice(), packet.flow).saturating_sub(1);
            set_count(counts, packet.flow, fewer);
        }
    }
}

/// Counts a packet that begins to be sent.
fn count_sending(counts: &mut Vec<u64>, sent: Option<u16>)
    ensures { counts.new.items ≡ after_sending counts.old.items sent }
{
    if let Some(flow) = sent {
        let more = count_of(counts.as_slice(), flow).saturating_add(1);
        set_count(counts, flow, more);
    }
}

/// The flow of the packet whose arrival an event is.
fn arriving_flow(event: &Event) -> Option<u16>
    ensures { result ≡ arriving_flow event.now }
{
    match event {
        Event::Start(_) | Event::Rto(_) | Event::DelAck(_) | Event::Free(_) => None,
        Event::Arrive(packet) => Some(packet.flow),
    }
}

/// Counts each packet whose arrival is pending.
fn count_pending(counts: &mut Vec<u64>, pending: &[(Key, Event)])
    ensures { counts.new.items ≡ all_counted counts.old.items pending.now }
{
    for (_, event) in pending {
        count_sending(counts, arriving_flow(event));
    }
}

/// How many packets of each flow are under way in a net. Where memory is refused, none is known.
pub(crate) fn counts_of(alloc: Global, net: &Net) -> Vec<u64>
    ensures { AreUnderWay result.items net.now.state }
{
    let mut counts = none_counted(alloc);
    match pending_events(alloc, net) {
        Ok(pending) => {
            count_pending(&mut counts, pending.as_slice());
            counts
        }
        Err(_) => counts,
    }
}

/// The flow of the packet that begins to be sent; by no event more than one does.
fn sent_flow(acts: &[Act]) -> Option<u16>
    ensures { result ≡ sent_flow acts.now }
{
    for act in acts {
        if let Act::Tx(_, packet) = act {
            return Some(packet.flow);
        }
    }
    None
}

/// Counts on over a line of the run.
pub(crate) fn count_on(counts: &mut Vec<u64>, line: &Line)
    ensures { counts.new.items ≡ counts_after counts.old.items (shown line.now) }
{
    count_event(counts, &line.event);
    count_sending(counts, sent_flow(line.acts.as_slice()));
}

/// Whether a packet of a flow is known to be under way.
fn is_known(counts: &[u64], flow: u16) -> bool
    ensures { result ≡ is_known counts.now flow }
{
    count_of(counts, flow) > 0
}

/// Whether what comes to a node comes to a router, which drops nothing.
fn is_passed_on(after: &After, acts: &[Act]) -> bool
    ensures { result ≡ is_passed_on after.now acts.now }
{
    matches!(after, After::AtRouter) && !has_drop(acts)
}

/// Whether what is counted after a line tells that no flow becomes stalled by it.
pub(crate) fn leaves_moving(counts: &[u64], line: &Line) -> bool
    ensures { result ≡ leaves_moving counts.now line.now.after line.now.acts.acts line.now.event }
{
    let acts = line.acts.as_slice();
    match &line.event {
        Event::Start(flow) => is_known(counts, *flow),
        Event::Rto(_) | Event::DelAck(_) => true,
        Event::Free(_) => !has_drop(acts),
        Event::Arrive(packet) => {
            is_known(counts, packet.flow) || is_passed_on(&line.after, acts)
        }
    }
}
