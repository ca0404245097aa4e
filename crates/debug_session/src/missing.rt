//! What a flow waits for, and which of the packets that are missing were dropped.
ghost use Rattle.std.specs.Prelude.{◌≡◌, ◌++◌, decimal, OnOk};
ghost use Rattle.std.specs.List.{flat_map};
ghost use Rattle.debug_session.specs.Missing.{head_words, byte_missing, missing_head, kind_of_drops, dropped_text, reason_text, drop_text, missing_line, missing_told, why_text};
ghost use Rattle.debugger.specs.Drops.{past_drops};

use aqm::DropReason;
use debugger::{Debugger, DropsOf, MoveFault, PastDrop};
use flow_waits::ScenarioNames;
use prompt_words::append_number;
use std::alloc::AllocError;

// Where something is missing.
fn head_words(of: DropsOf) -> &'static [u8]
    ensures { result.now ≡ head_words of }
{
    match of {
        DropsOf::Segment(..) => b"missing at the receiver: byte ",
        DropsOf::AcksAbove(..) => b"missing at the sender: an acknowledgement above ",
    }
}

// The byte that it is, or above which it is.
fn byte_missing(of: DropsOf) -> u64
    ensures { result ≡ byte_missing of }
{
    match of {
        DropsOf::Segment(_, byte) | DropsOf::AcksAbove(_, byte) => byte,
    }
}

// Appends which packets are missing, and where.
fn append_head(out: &mut Vec<u8>, of: DropsOf) -> Result<(), AllocError>
    ensures { OnOk result (out.new.items ≡ out.old.items ++ missing_head of) }
{
    out.extend_from_slice(head_words(of))?;
    append_number(out, byte_missing(of))
}

// What such packets are, behind a comma.
fn kind_of_drops(of: DropsOf) -> &'static [u8]
    ensures { result.now ≡ kind_of_drops of }
{
    match of {
        DropsOf::Segment(..) => b", data ",
        DropsOf::AcksAbove(..) => b", ack ",
    }
}

// Appends that a queue dropped a packet, and why.
fn append_dropped(out: &mut Vec<u8>, reason: DropReason) -> Result<(), AllocError>
    ensures { OnOk result (out.new.items ≡ out.old.items ++ dropped_text reason) }
{
    out.extend_from_slice(b" dropped (")?;
    out.extend_from_slice(reason.word())?;
    out.extend_from_slice(b") at link ")
}

// Appends why a packet was dropped.
fn append_reason(out: &mut Vec<u8>, reason: DropReason) -> Result<(), AllocError>
    ensures { OnOk result (out.new.items ≡ out.old.items ++ reason_text reason) }
{
    match reason {
        DropReason::Lost => out.extend_from_slice(b" lost by name at link "),
        DropReason::Offer(_) | DropReason::Take(_) => append_dropped(out, reason),
    }
}

// Appends a packet that was dropped, why, where, and in which line.
fn append_drop(
    out: &mut Vec<u8>,
    names: &ScenarioNames,
    of: DropsOf,
    dropped: PastDrop,
) -> Result<(), AllocError>
    ensures { OnOk result (out.new.items ≡ out.old.items ++ drop_text names.now of dropped) }
{
    out.extend_from_slice(kind_of_drops(of))?;
    append_number(out, dropped.number)?;
    append_reason(out, dropped.reason)?;
    names.links.append_name(dropped.link, out)?;
    out.extend_from_slice(b" in line ")?;
    append_number(out, dropped.line)
}

// Appends what is missing, and the drops.
fn append_missing(
    out: &mut Vec<u8>,
    names: &ScenarioNames,
    of: DropsOf,
    drops: &[PastDrop],
) -> Result<(), AllocError>
    ensures { OnOk result (out.new.items ≡ out.old.items ++ missing_line names.now of drops.now) }
{
    append_head(out, of)?;
    for dropped in drops {
        append_drop(out, names, of, *dropped)?;
    }
    out.extend_from_slice(b"\n")
}

// Appends what is missing, with its drops up to the state that is shown.
fn append_found(
    out: &mut Vec<u8>,
    debugger: &mut Debugger,
    names: &ScenarioNames,
    of: DropsOf,
) -> Result<(), MoveFault>
    ensures ok { OnOk result (out.new.items ≡ out.old.items ++ missing_line names.now of (past_drops debugger.old.start of debugger.old.shown.position)) }
    ensures same { debugger.new ≡ debugger.old }
{
    let mut drops = Vec::new(*out.allocator());
    debugger.append_drops(of, &mut drops)?;
    match append_missing(out, names, of, drops.as_slice()) {
        Ok(()) => Ok(()),
        Err(_) => Err(MoveFault::NoMemory),
    }
}

/// Appends what a flow waits for in the state that is shown, and what became of the packets that are missing. On a fault
/// some of it may have been appended.
pub(crate) fn append_why(
    out: &mut Vec<u8>,
    debugger: &mut Debugger,
    names: &ScenarioNames,
    flow: u16,
) -> Result<(), MoveFault>
    ensures ok { OnOk result (out.new.items ≡ out.old.items ++ why_text names.now flow debugger.old.start debugger.old.shown) }
    ensures same { debugger.new ≡ debugger.old }
{
    match debugger.waits_text(names, flow, out) {
        Ok(()) => {}
        Err(_) => return Err(MoveFault::NoMemory),
    }
    match debugger.missing(flow) {
        None => Ok(()),
        Some(of) => append_found(out, debugger, names, of),
    }
}
