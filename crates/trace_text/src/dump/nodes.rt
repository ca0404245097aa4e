//! The lines of the nodes.
ghost use Rattle.std.specs.Prelude.{◌≡◌, ◌++◌, codes, decimal, OnOk, string_bytes};
ghost use Rattle.std.specs.List.{flat_map, enumerate_from, slice_get};
ghost use Rattle.net_machine.specs.Nodes.{parts_of};
ghost use Rattle.trace_text.specs.Chosen.{chosen_node};
ghost use Rattle.trace_text.specs.Dump.{in_commas, sender_line, receiver_line, node_line};
ghost use Rattle.trace_text.specs.DumpParts.{found_node, is_end_of};

use super::parts::{Flag, OrDash, Timed};
use node_core::Node;
use reno_receiver::Receiver;
use reno_sender::SenderFields;
use std::alloc::AllocError;

/// Writes the line of each node with its number, or of the ends of a flow.
pub(super) fn write_nodes(
    out: &mut String,
    flow: Option<u16>,
    nodes: &[Node],
) -> Result<(), AllocError>
    ensures { OnOk result (string_bytes out.new ≡ string_bytes out.old
        ++ flat_map (chosen_node flow) (enumerate_from 0 (parts_of nodes.now))) }
{
    for (number, node) in nodes.iter().enumerate() {
        write_chosen(out, flow, number as u64, node)?;
    }
    Ok(())
}

/// Writes the line of a node, where it is an end of the flow that is asked for.
fn write_chosen(
    out: &mut String,
    flow: Option<u16>,
    number: u64,
    node: &Node,
) -> Result<(), AllocError>
    ensures { OnOk result (string_bytes out.new ≡ string_bytes out.old ++ chosen_node flow (number, node.now.part)) }
{
    match flow {
        Some(flow) if !is_end_of(flow, node) => Ok(()),
        _ => write_node(out, number, node),
    }
}

/// Whether a node is an end of a flow.
fn is_end_of(flow: u16, node: &Node) -> bool
    ensures { result ≡ is_end_of flow node.now.part.role }
{
    if let Some((own, _)) = node.sender() {
        return own == flow;
    }
    if let Some((own, _)) = node.receiver() {
        return own == flow;
    }
    false
}

/// Writes the line of the node of a number, where there is one.
pub(super) fn write_numbered_node(
    out: &mut String,
    number: u16,
    nodes: &[Node],
) -> Result<(), AllocError>
    ensures { OnOk result (string_bytes out.new ≡ string_bytes out.old
        ++ found_node number (slice_get (parts_of nodes.now) number)) }
{
    match nodes.get(usize::from(number)) {
        Some(node) => write_node(out, u64::from(number), node),
        None => Ok(()),
    }
}

/// Writes the line of a node.
fn write_node(out: &mut String, number: u64, node: &Node) -> Result<(), AllocError>
    ensures { OnOk result (string_bytes out.new ≡ string_bytes out.old ++ node_line (number, node.now.part)) }
{
    if let Some((flow, sender)) = node.sender() {
        return write_sender(out, number, flow, sender.as_fields());
    }
    if let Some((flow, receiver)) = node.receiver() {
        return write_receiver(out, number, flow, receiver);
    }
    write!(out, "node {number} router\n")
}

/// Writes the line of a sender.
fn write_sender(
    out: &mut String,
    number: u64,
    flow: u16,
    s: &SenderFields,
) -> Result<(), AllocError>
    ensures { OnOk result (string_bytes out.new ≡ string_bytes out.old ++ sender_line number flow s.now) }
{
    let fr = Flag(s.recovery);
    let timing = Timed(s.timing);
    let srtt = OrDash(s.srtt);
    let resent = Flag(s.resent);
    write!(
        out,
        "node {number} sender {flow} una={} nxt={} high={} cwnd={} ssthresh={} dups={} lt={} fr={fr} timing={timing} srtt={srtt} rttvar={} rto={} resent={resent}\n",
        s.una, s.nxt, s.high, s.cwnd, s.ssthresh, s.dups, s.lt, s.rttvar, s.rto
    )
}

/// Writes the line of a receiver.
fn write_receiver(
    out: &mut String,
    number: u64,
    flow: u16,
    receiver: &Receiver,
) -> Result<(), AllocError>
    ensures { OnOk result (string_bytes out.new ≡ string_bytes out.old ++ receiver_line number flow receiver.now) }
{
    write!(
        out,
        "node {number} receiver {flow} next={} held=",
        receiver.next()
    )?;
    write_held(out, receiver.held())?;
    write!(out, "\n")
}

/// Writes numbers with commas between them.
fn write_held(out: &mut String, held: &[u64]) -> Result<(), AllocError>
    ensures { OnOk result (string_bytes out.new ≡ string_bytes out.old ++ in_commas decimal held.now) }
{
    match held {
        [] => write!(out, "-"),
        [first, rest @ ..] => {
            write!(out, "{first}")?;
            write_further(out, rest)
        }
    }
}

/// Writes each number after a comma.
fn write_further(out: &mut String, numbers: &[u64]) -> Result<(), AllocError>
    ensures { OnOk result (string_bytes out.new ≡ string_bytes out.old
        ++ flat_map (λ n. codes "," ++ decimal n) numbers.now) }
{
    for n in numbers {
        write!(out, ",{n}")?;
    }
    Ok(())
}
