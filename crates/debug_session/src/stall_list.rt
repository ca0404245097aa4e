//! All stalls of a run, as they are told.
ghost use Rattle.std.specs.Prelude.{◌≡◌, ◌++◌, [], OnOk};
ghost use Rattle.std.specs.List.{flat_map};
ghost use Rattle.debug_session.specs.StallLists.{goto_text, since_text, stall_line, stalls_text, TellsStalls};

use debugger::{Debugger, MoveFault, StallAt};
use flow_waits::PartNames;
use prompt_words::{append_behind, append_counted, append_number};
use std::alloc::AllocError;

// Appends what is typed to go to a position.
fn append_goto(out: &mut Vec<u8>, position: u64) -> Result<(), AllocError>
    ensures { OnOk result (out.new.items ≡ out.old.items ++ goto_text position) }
{
    out.extend_from_slice(b"goto ")?;
    append_number(out, position)
}

// Appends when a flow is stalled.
fn append_since(out: &mut Vec<u8>, time: u64) -> Result<(), AllocError>
    ensures { OnOk result (out.new.items ≡ out.old.items ++ since_text time) }
{
    append_counted(out, b" is stalled at ", time, b" ns\n")
}

// Appends where a flow becomes stalled, and when.
fn append_stall_line(out: &mut Vec<u8>, flows: &PartNames, stall: StallAt) -> Result<(), AllocError>
    ensures { OnOk result (out.new.items ≡ out.old.items ++ stall_line flows.now stall) }
{
    append_goto(out, stall.position)?;
    append_behind(out, b": flow ", flows, stall.flow)?;
    append_since(out, stall.time)
}

// Appends a line for each stall.
fn append_stall_lines(
    out: &mut Vec<u8>,
    flows: &PartNames,
    stalls: &[StallAt],
) -> Result<(), AllocError>
    ensures { OnOk result (out.new.items ≡ out.old.items ++ flat_map (stall_line flows.now) stalls.now) }
{
    for stall in stalls {
        append_stall_line(out, flows, *stall)?;
    }
    Ok(())
}

// Appends a line for each stall, or that there is none.
fn append_stalls_text(
    out: &mut Vec<u8>,
    flows: &PartNames,
    stalls: &[StallAt],
) -> Result<(), AllocError>
    ensures { OnOk result (out.new.items ≡ out.old.items ++ stalls_text flows.now stalls.now) }
{
    if stalls.is_empty() {
        out.extend_from_slice(b"no stall\n")
    } else {
        append_stall_lines(out, flows, stalls)
    }
}

/// Puts all stalls of the run into an empty text. On a fault some of it may stand there.
pub(crate) fn append_stalls(
    out: &mut Vec<u8>,
    debugger: &mut Debugger,
    flows: &PartNames,
) -> Result<(), MoveFault>
    requires { out.old.items ≡ [] }
    ensures ok { OnOk result (TellsStalls flows.now debugger.old.start out.new.items) }
    ensures same { debugger.new ≡ debugger.old }
{
    let mut stalls = Vec::new(*out.allocator());
    debugger.append_stalls(&mut stalls)?;
    match append_stalls_text(out, flows, stalls.as_slice()) {
        Ok(()) => Ok(()),
        Err(_) => Err(MoveFault::NoMemory),
    }
}
