//! The lines of the links.
ghost use Rattle.std.specs.Prelude.{◌≡◌, ◌==◌, ◌++◌, filter, codes, OnOk, string_bytes};
ghost use Rattle.std.specs.List.{flat_map, list_any};
ghost use Rattle.packet_chain.specs.Stamped.{Stamped};
ghost use Rattle.aqm.specs.Queue.{waiting_in};
ghost use Rattle.net_machine.specs.Nodes.{parts_of};
ghost use Rattle.node_core.specs.Part.{LinkState};
ghost use Rattle.trace_text.specs.Words.{spaced_words};
ghost use Rattle.trace_text.specs.Chosen.{chosen_link};
ghost use Rattle.trace_text.specs.Dump.{in_commas, waiting_text, control_words, link_line, links_numbered, numbers_below, links_in_order};
ghost use Rattle.trace_text.specs.DumpParts.{has_waiting};

use super::parts::{ByteText, OrDash, Waiting};
use aqm::Queue;
use node_core::Node;
use node_core::link::Link;
use packet_chain::Iter;
use scenario_image::limits::MOST_LINKS;
use std::alloc::AllocError;

/// The most links of a net; all their numbers are below it.
const MOST_NUMBERS: u16 = MOST_LINKS as u16;

/// Writes the line of each link, in rising number, or of those where a packet of a flow waits.
pub(super) fn write_links(
    out: &mut String,
    flow: Option<u16>,
    nodes: &[Node],
) -> Result<(), AllocError>
    ensures { OnOk result (string_bytes out.new ≡ string_bytes out.old
        ++ flat_map (chosen_link flow) (links_in_order (parts_of nodes.now))) }
{
    write_first(out, flow, MOST_NUMBERS, nodes)
}

/// Writes the lines of the links of numbers below this one.
fn write_first(
    out: &mut String,
    flow: Option<u16>,
    count: u16,
    nodes: &[Node],
) -> Result<(), AllocError>
    ensures { OnOk result (string_bytes out.new ≡ string_bytes out.old
        ++ flat_map (chosen_link flow) (flat_map (links_numbered (parts_of nodes.now)) (numbers_below count))) }
{
    for number in 0..count {
        write_numbered(out, flow, number, nodes)?;
    }
    Ok(())
}

/// Writes the line of the link of a number, at whatever node it is.
pub(super) fn write_numbered(
    out: &mut String,
    flow: Option<u16>,
    number: u16,
    nodes: &[Node],
) -> Result<(), AllocError>
    ensures { OnOk result (string_bytes out.new ≡ string_bytes out.old
        ++ flat_map (chosen_link flow) (links_numbered (parts_of nodes.now) number)) }
{
    for node in nodes {
        write_own(out, flow, number, node.ports())?;
    }
    Ok(())
}

/// Writes the line of the link of a number, where it is one of these.
fn write_own(
    out: &mut String,
    flow: Option<u16>,
    number: u16,
    links: &[Link],
) -> Result<(), AllocError>
    ensures { OnOk result (string_bytes out.new ≡ string_bytes out.old
        ++ flat_map (chosen_link flow) (filter (λ (link : LinkState). link.port.link == number) links.now)) }
{
    for link in links {
        if link.port().link() == number {
            write_chosen(out, flow, link)?;
        }
    }
    Ok(())
}

/// Writes the line of a link, where a packet of the flow that is asked for waits there.
fn write_chosen(out: &mut String, flow: Option<u16>, link: &Link) -> Result<(), AllocError>
    ensures { OnOk result (string_bytes out.new ≡ string_bytes out.old ++ chosen_link flow link.now) }
{
    match flow {
        Some(flow) if !has_waiting(flow, link) => Ok(()),
        _ => write_link(out, link),
    }
}

/// Whether a packet of a flow waits in a link's queue.
pub fn has_waiting(flow: u16, link: &Link) -> bool
    ensures { result ≡ has_waiting flow link.now }
{
    has_packet(flow, link.port().queue().packets())
}

/// Whether one of these packets is of a flow.
fn has_packet(flow: u16, cells: Iter<'_>) -> bool
    ensures { result ≡ list_any (λ (cell : Stamped). cell.0.flow == flow) cells.entry }
{
    for (packet, _) in cells {
        if packet.flow == flow {
            return true;
        }
    }
    false
}

/// Writes the line of a link.
fn write_link(out: &mut String, link: &Link) -> Result<(), AllocError>
    ensures { OnOk result (string_bytes out.new ≡ string_bytes out.old ++ link_line link.now) }
{
    let port = link.port();
    write!(
        out,
        "link {} offered={} sent={} queue=",
        port.link(),
        port.offered(),
        port.sent()
    )?;
    write_waiting(out, port.queue())?;
    write_control(out, port.queue())?;
    write!(out, "\n")
}

/// Writes the packets that wait, with commas between them.
fn write_waiting(out: &mut String, queue: &Queue) -> Result<(), AllocError>
    ensures { OnOk result (string_bytes out.new ≡ string_bytes out.old ++ in_commas waiting_text (waiting_in queue.now)) }
{
    let mut cells = queue.packets();
    match cells.next() {
        None => write!(out, "-"),
        Some((packet, entered)) => {
            write!(out, "{}", Waiting { packet, entered })?;
            write_further(out, cells)
        }
    }
}

/// Writes each packet after a comma.
fn write_further(out: &mut String, cells: Iter<'_>) -> Result<(), AllocError>
    ensures { OnOk result (string_bytes out.new ≡ string_bytes out.old
        ++ flat_map (λ (cell : Stamped). codes "," ++ waiting_text cell) cells.entry) }
{
    for (packet, entered) in cells {
        write!(out, ",{}", Waiting { packet, entered })?;
    }
    Ok(())
}

/// Writes what a queue keeps beside the packets.
fn write_control(out: &mut String, queue: &Queue) -> Result<(), AllocError>
    ensures { OnOk result (string_bytes out.new ≡ string_bytes out.old ++ spaced_words (control_words queue.now)) }
{
    let readouts = queue.readouts();
    for readout in readouts {
        let word = ByteText(readout.word());
        let value = OrDash(queue.read(*readout));
        write!(out, " {word}={value}")?;
    }
    Ok(())
}
