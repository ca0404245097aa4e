//! What a flow waits for.
ghost use Rattle.std.specs.Prelude.{◌≡◌, ◌++◌, OnOk, OnErr, string_bytes};
ghost use Rattle.net_machine.specs.Nodes.{parts_of};
ghost use Rattle.flow_waits.specs.Waits.{flow_status_line, waits_bytes};

use crate::awaited::write_lists;
use crate::flow_status::flow_status_of;
use crate::names::{PartName, ScenarioNames};
use crate::sentence::write_flow_status;
use crate::stalled::{is_under_way, is_waiting, sender_of, start_of};
use crate::timer::first_timer;
use net_machine::Net;
use node_core::{Event, Node};
use sim_time::Key;
use std::alloc::AllocError;
use trace_text::pending_events;

/// Appends what a flow waits for, or nothing: a line that says how it stands, and one each of its packets that wait,
/// of those under way and of its timers, where there are any. Nodes, links and the flow are called by these names.
pub fn waits_text(
    net: &Net,
    names: &ScenarioNames,
    flow: u16,
    out: &mut Vec<u8>,
) -> Result<(), AllocError>
    ensures ok { OnOk result (out.new.items ≡ out.old.items ++ waits_bytes names.now flow net.now.state) }
    ensures err { OnErr result (out.new.items ≡ out.old.items) }
{
    let pending = pending_events(*out.allocator(), net)?;
    let mut text = String::new(*out.allocator());
    write_status_line(&mut text, names, flow, net.nodes(), &pending)?;
    write_lists(&mut text, names, flow, net.nodes(), &pending)?;
    out.extend_from_slice(text.as_bytes())
}

/// Writes how the flow stands, where a node sends it. After an `Err` a part of it may stand there.
fn write_status_line(
    out: &mut String,
    names: &ScenarioNames,
    flow: u16,
    nodes: &[Node],
    pending: &[(Key, Event)],
) -> Result<(), AllocError>
    ensures { OnOk result (string_bytes out.new ≡ string_bytes out.old ++ flow_status_line names.now.flows flow (parts_of nodes.now) pending.now) }
{
    let start = start_of(flow, pending);
    let packets = is_waiting(flow, nodes) || is_under_way(flow, pending);
    match sender_of(flow, nodes) {
        Some(sender) => {
            write!(out, "flow {}", PartName(&names.flows, flow))?;
            let status = flow_status_of(start, packets, &sender);
            write_flow_status(out, &sender, first_timer(flow, pending), status)
        }
        None => Ok(()),
    }
}
