//! Breakpoints by their numbers.
ghost use Rattle.std.specs.Prelude.{◌≡◌, ◌<◌, ◌+◌, ◌++◌, length, slice_index_or, Contains, MatchOption, OnOk};
ghost use Rattle.prompt_words.specs.Numbered.{byte_text, part_text, kind_text, drops_text, event_text, packet_text, stall_text, break_text, numbered_line, lines_from, IsNumber, HasNumber};

use crate::names_reported::{append_behind, append_number};
use crate::naming::Naming;
use crate::value_texts::{append_values, append_was};
use breakpoints::{Break, EventKind, Reading, StallOf, is_among};
use flow_waits::PartNames;
use std::alloc::AllocError;

/// Appends a part behind its sort, where there is one.
pub fn append_part(
    out: &mut Vec<u8>,
    sort: &[u8],
    names: &PartNames,
    asked: Option<u16>,
) -> Result<(), AllocError>
    ensures { OnOk result (out.new.items ≡ out.old.items ++ part_text sort.now names.now asked) }
{
    match asked {
        Some(n) => append_behind(out, sort, names, n),
        None => Ok(()),
    }
}

// Appends the byte that is asked for.
fn append_byte(out: &mut Vec<u8>, asked: Option<u64>) -> Result<(), AllocError>
    ensures { OnOk result (out.new.items ≡ out.old.items ++ byte_text asked) }
{
    match asked {
        Some(n) => {
            out.extend_from_slice(b" byte ")?;
            append_number(out, n)
        }
        None => Ok(()),
    }
}

// A kind, where one is asked for.
fn kind_text(asked: Option<EventKind>) -> &'static [u8]
    ensures { result.now ≡ kind_text asked }
{
    match asked {
        None => b"",
        Some(EventKind::Start) => b" kind start",
        Some(EventKind::Rto) => b" kind rto",
        Some(EventKind::DelAck) => b" kind delack",
        Some(EventKind::Free) => b" kind free",
        Some(EventKind::Data) => b" kind data",
        Some(EventKind::Ack) => b" kind ack",
    }
}

// Whether a packet has to be dropped.
fn drops_text(asked: bool) -> &'static [u8]
    ensures { result.now ≡ drops_text asked }
{
    if asked { b" drop" } else { b"" }
}

// Appends what the event has to be.
fn append_event(out: &mut Vec<u8>, naming: &Naming, b: Break) -> Result<(), AllocError>
    ensures { OnOk result (out.new.items ≡ out.old.items ++ event_text naming.now b) }
{
    append_part(out, b" node ", &naming.names.nodes, b.node)?;
    append_part(out, b" flow ", &naming.names.flows, b.flow)?;
    out.extend_from_slice(kind_text(b.kind))
}

// Appends what has to become of packets, and which has to arrive.
fn append_packet(out: &mut Vec<u8>, naming: &Naming, b: Break) -> Result<(), AllocError>
    ensures { OnOk result (out.new.items ≡ out.old.items ++ packet_text naming.now b) }
{
    out.extend_from_slice(drops_text(b.drops))?;
    append_part(out, b" link ", &naming.names.links, b.link)?;
    append_byte(out, b.byte)
}

// Appends which flow has to become stalled.
fn append_stall(
    out: &mut Vec<u8>,
    naming: &Naming,
    asked: Option<StallOf>,
) -> Result<(), AllocError>
    ensures { OnOk result (out.new.items ≡ out.old.items ++ stall_text naming.now asked) }
{
    match asked {
        None => Ok(()),
        Some(StallOf::Any) => out.extend_from_slice(b" stall"),
        Some(StallOf::Flow(flow)) => append_behind(out, b" stall ", &naming.names.flows, flow),
    }
}

// Appends a breakpoint.
fn append_break(out: &mut Vec<u8>, naming: &Naming, b: Break) -> Result<(), AllocError>
    ensures { OnOk result (out.new.items ≡ out.old.items ++ break_text naming.now b) }
{
    append_event(out, naming, b)?;
    append_packet(out, naming, b)?;
    append_values(out, naming, b.values)?;
    append_stall(out, naming, b.stall)
}

/// Appends the line of a breakpoint behind a word, with what the value was before that it asks to change.
pub fn append_numbered(
    out: &mut Vec<u8>,
    naming: &Naming,
    word: &[u8],
    number: u64,
    b: Break,
    was: Reading,
) -> Result<(), AllocError>
    ensures { OnOk result (out.new.items ≡ out.old.items ++ numbered_line naming.now word.now number b was) }
{
    out.extend_from_slice(word)?;
    append_number(out, number)?;
    out.extend_from_slice(b":")?;
    append_break(out, naming, b)?;
    append_was(out, was, b.values.change)?;
    out.extend_from_slice(b"\n")
}

/// Appends a line for each breakpoint.
pub fn append_listing(
    out: &mut Vec<u8>,
    naming: &Naming,
    breaks: &[Break],
) -> Result<(), AllocError>
    ensures { OnOk result (out.new.items ≡ out.old.items ++ lines_from naming.now 1 breaks.now) }
{
    for index in 0..breaks.len() {
        append_numbered(
            out,
            naming,
            b"break ",
            index as u64 + 1,
            breaks[index],
            Reading::Nothing,
        )?;
    }
    Ok(())
}

/// The number of a breakpoint among those that are set.
pub fn number_of(breaks: &[Break], b: Break) -> Option<u64>
    ensures { MatchOption result (¬ Contains breaks.now b) (λ i. IsNumber breaks.now b i) }
{
    for index in 0..breaks.len() {
        if is_among(&breaks[..index + 1], b) {
            return Some(index as u64 + 1);
        }
    }
    None
}

/// The one of these that has this number, and its index.
pub fn of_number<T: Copy>(things: &[T], number: u64) -> Option<(usize, T)>
    ensures { MatchOption result (¬ HasNumber things.now number) (λ found. (number ≡ found.0 + 1) × (found.0 < length things.now) × (slice_index_or things.now found.0 found.1 ≡ found.1)) }
{
    let index = (number as usize).checked_sub(1)?;
    let thing = things.get(index)?;
    Some((index, *thing))
}
