//! The dump: all that a net keeps, as text.
ghost use Rattle.std.specs.Prelude.{◌≡◌, ◌++◌, OnOk, OnErr, string_bytes};
ghost use Rattle.trace_text.specs.ChosenLines.{chosen_bytes};
ghost use Rattle.trace_text.specs.Dump.{dump_bytes};
ghost use Rattle.trace_text.specs.DumpParts.{part_bytes};

mod events;
mod links;
mod nodes;
mod parts;

pub use self::events::pending_events;
use self::events::write_events;
pub use self::links::has_waiting;
use self::links::{write_links, write_numbered};
use self::nodes::{write_nodes, write_numbered_node};
pub use self::parts::ByteText;
use net_machine::Net;
use std::alloc::AllocError;

/// What the lines of a dump can tell of.
#[derive(Clone, Copy)]
pub enum DumpPart {
    /// The node of this number.
    Node(u16),
    /// The link of this number.
    Link(u16),
    /// The flow of this number: both its ends, the links where packets of it wait, and the pending
    /// events of it.
    Flow(u16),
}

/// Appends the dump of a net, or nothing.
pub fn dump_text(net: &Net, out: &mut Vec<u8>) -> Result<(), AllocError>
    ensures ok { OnOk result (out.new.items ≡ out.old.items ++ dump_bytes net.now) }
    ensures err { OnErr result (out.new.items ≡ out.old.items) }
{
    let mut text = String::new(*out.allocator());
    write_dump(&mut text, net)?;
    out.extend_from_slice(text.as_bytes())
}

/// Appends the lines of a dump that tell of a part of the net, or nothing.
pub fn part_text(net: &Net, part: DumpPart, out: &mut Vec<u8>) -> Result<(), AllocError>
    ensures ok { OnOk result (out.new.items ≡ out.old.items ++ part_bytes part net.now) }
    ensures err { OnErr result (out.new.items ≡ out.old.items) }
{
    let mut text = String::new(*out.allocator());
    write_part(&mut text, net, part)?;
    out.extend_from_slice(text.as_bytes())
}

/// Writes the lines of a part. After an `Err`, as with all functions below, some may stand there.
fn write_part(out: &mut String, net: &Net, part: DumpPart) -> Result<(), AllocError>
    ensures { OnOk result (string_bytes out.new ≡ string_bytes out.old ++ part_bytes part net.now) }
{
    match part {
        DumpPart::Node(number) => write_numbered_node(out, number, net.nodes()),
        DumpPart::Link(number) => write_numbered(out, None, number, net.nodes()),
        DumpPart::Flow(number) => write_lines(out, Some(number), net),
    }
}

/// Writes the dump of a net.
fn write_dump(out: &mut String, net: &Net) -> Result<(), AllocError>
    ensures { OnOk result (string_bytes out.new ≡ string_bytes out.old ++ dump_bytes net.now) }
{
    write!(out, "at {}\n", net.position())?;
    write_lines(out, None, net)
}

/// Writes all lines of a dump behind the first, or those of a flow.
fn write_lines(out: &mut String, flow: Option<u16>, net: &Net) -> Result<(), AllocError>
    ensures { OnOk result (string_bytes out.new ≡ string_bytes out.old ++ chosen_bytes flow net.now.state) }
{
    write_nodes(out, flow, net.nodes())?;
    write_links(out, flow, net.nodes())?;
    write_events(out, flow, net.nodes())?;
    Ok(())
}
