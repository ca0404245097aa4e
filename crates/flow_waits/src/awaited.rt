//! What a flow waits for: its packets and its timers, and the lines that list them.
ghost use Rattle.std.specs.Prelude.{◌≡◌, ◌++◌, IfOk, OnOk, Some, string_bytes};
ghost use Rattle.std.specs.List.{flat_map};
ghost use Rattle.sim_time.specs.declared.key.Key.{Key};
ghost use Rattle.node_core.specs.declared.event.Event.{Event};
ghost use Rattle.net_machine.specs.Nodes.{parts_of};
ghost use Rattle.flow_waits.specs.Waits.{packet_text, timer_word, awaited_text, arriving, due, further_text, list_line, lists_text};

use crate::names::{PartName, ScenarioNames};
use crate::queues::waiting;
use crate::timer::{DueTimer, FlowTimer, own_timer};
use node_core::{Event, Node};
use packet_chain::{Kind, Packet};
use scenario_image::limits::MOST_LINKS;
use sim_time::{Key, Time};
use std::alloc::{AllocError, Global};
use std::fmt;

/// One of what a flow waits for.
#[derive(Clone, Copy)]
pub(crate) enum Awaited {
    /// A packet at a place of a link's queue, of which the head is place 1.
    Waits(Packet, u64, u16),
    /// A packet on its way to a node, with the moment at which it arrives, in nanoseconds.
    Arrives(Packet, u16, Time),
    /// A timer.
    IsDue(DueTimer),
}

/// The packets of a flow that are under way, in the order of keys.
fn under_way(alloc: Global, flow: u16, pending: &[(Key, Event)]) -> Result<Vec<Awaited>, AllocError>
    ensures { IfOk result (λ all. all.items ≡ flat_map (λ (entry : Key × Event). arriving flow entry.0 entry.1) pending.now) }
{
    let mut all = Vec::new(alloc);
    for (key, event) in pending {
        match event {
            Event::Arrive(packet) if packet.flow == flow => {
                all.push(Awaited::Arrives(*packet, key.node, key.time))?;
            }
            _ => {}
        }
    }
    Ok(all)
}

/// The timers of a flow, in the order of keys.
fn timers(alloc: Global, flow: u16, pending: &[(Key, Event)]) -> Result<Vec<Awaited>, AllocError>
    ensures { IfOk result (λ all. all.items ≡ flat_map (λ (entry : Key × Event). due flow entry.0 entry.1) pending.now) }
{
    let mut all = Vec::new(alloc);
    for (key, event) in pending {
        if let Some(timer) = own_timer(flow, event) {
            let time = key.time;
            all.push(Awaited::IsDue(DueTimer { time, timer }))?;
        }
    }
    Ok(all)
}

/// A packet by what it carries and its number.
#[derive(Drop)]
struct PacketName(Packet);

impl fmt::Display for PacketName {
    ghost output = { λ name. Some (packet_text name.0) };

    fn fmt<W: fmt::Write>(&self, f: &mut fmt::Formatter<W>) -> fmt::Result {
        match self.0.kind {
            Kind::Data => write!(f, "data {}", self.0.number),
            Kind::Ack => write!(f, "ack {}", self.0.number),
        }
    }
}

/// A timer's word in a list.
fn timer_word(timer: FlowTimer) -> &'static str
    ensures { result.now ≡ timer_word timer }
{
    match timer {
        FlowTimer::Starts => "start",
        FlowTimer::Retransmission => "rto",
        FlowTimer::DelayedAcknowledgement => "delack",
    }
}

/// One of them by these names.
#[derive(Drop)]
struct AwaitedText<'a>(&'a ScenarioNames, Awaited);

impl fmt::Display for AwaitedText<'_> {
    ghost output = { λ text. Some (awaited_text text.0.now text.1) };

    fn fmt<W: fmt::Write>(&self, f: &mut fmt::Formatter<W>) -> fmt::Result {
        match self.1 {
            Awaited::Waits(packet, place, link) => {
                let packet = PacketName(packet);
                let link = PartName(&self.0.links, link);
                write!(f, "{packet} at place {place} of link {link}")
            }
            Awaited::Arrives(packet, node, time) => {
                let packet = PacketName(packet);
                let node = PartName(&self.0.nodes, node);
                write!(f, "{packet} to node {node} at {time} ns")
            }
            Awaited::IsDue(due) => write!(f, "{} at {} ns", timer_word(due.timer), due.time),
        }
    }
}

/// Writes a line each of the packets that wait, of those under way and of the timers, where there are any. After an
/// `Err`, as below, some lines may stand there.
#[tactic(auto, unfolding(crate::specs::Waits::lists_text))]
pub(crate) fn write_lists(
    out: &mut String,
    names: &ScenarioNames,
    flow: u16,
    nodes: &[Node],
    pending: &[(Key, Event)],
) -> Result<(), AllocError>
    ensures { OnOk result (string_bytes out.new ≡ string_bytes out.old ++ lists_text names.now flow (parts_of nodes.now) pending.now) }
{
    let alloc = *out.allocator();
    // The numbers of all links are below the most that a net has.
    let waiting = waiting(alloc, flow, MOST_LINKS as u16, nodes)?;
    let under_way = under_way(alloc, flow, pending)?;
    let timers = timers(alloc, flow, pending)?;
    write_list(out, "waits: ", names, &waiting)?;
    write_list(out, "under way: ", names, &under_way)?;
    write_list(out, "alarms: ", names, &timers)
}

/// Writes a line that lists them behind a heading; none where there is nothing to list.
#[tactic(auto, unfolding(crate::specs::Waits::list_line))]
fn write_list(
    out: &mut String,
    heading: &str,
    names: &ScenarioNames,
    all: &[Awaited],
) -> Result<(), AllocError>
    ensures { OnOk result (string_bytes out.new ≡ string_bytes out.old ++ list_line heading.now names.now all.now) }
{
    match all {
        [] => Ok(()),
        [first, rest @ ..] => {
            write!(out, "{heading}{}", AwaitedText(names, *first))?;
            write_further(out, names, rest)
        }
    }
}

/// Writes each of them behind a comma, and the end of the line.
fn write_further(
    out: &mut String,
    names: &ScenarioNames,
    rest: &[Awaited],
) -> Result<(), AllocError>
    ensures { OnOk result (string_bytes out.new ≡ string_bytes out.old
        ++ further_text names.now rest.now) }
{
    for it in rest {
        write!(out, ", {}", AwaitedText(names, *it))?;
    }
    write!(out, "\n")
}
