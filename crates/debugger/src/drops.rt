//! Which packets of a flow a run has dropped, found by running again.
ghost use Rattle.std.specs.Prelude.{◌≡◌, ◌++◌, take, length, OnOk, OnErr};
ghost use Rattle.debugger.specs.Moves.{Passes, HasPosition};
ghost use Rattle.debugger.specs.Drops.{missing_between, missing_in, is_asked_for, drop_of_act, drops_in, past_drops};

use crate::checkpoints::Checkpoints;
use crate::fault::MoveFault;
use crate::walk::reach_watched;
use aqm::DropReason;
use breakpoints::seen::{fields_in, next_in};
use net_machine::{Due, Net};
use net_watch::Watch;
use node_core::Line;
use packet_chain::{Kind, Packet};
use port::Act;
use std::alloc::AllocError;
use std::snapshot::Snapshot;

/// Packets of a flow whose drops are looked for.
#[derive(Clone, Copy)]
pub enum DropsOf {
    /// The copies of the segment that begins with a byte.
    Segment(u16, u64),
    /// The acknowledgements above a byte: those that await a later one.
    AcksAbove(u16, u64),
}

/// A packet that a run has dropped.
#[derive(Clone, Copy)]
pub struct PastDrop {
    /// The number of the trace line that tells of it.
    pub line: u64,
    /// The link that it was offered to, or waited for.
    pub link: u16,
    /// Why it was dropped.
    pub reason: DropReason,
    /// The first byte of the segment, or the number of the acknowledgement.
    pub number: u64,
}

/// What is missing of what a flow has sent, of which so much is acknowledged, and of which the receiver waits for a byte.
fn missing_between(flow: u16, una: u64, high: u64, next: u64) -> Option<DropsOf>
    ensures { result ≡ missing_between flow una high next }
{
    if next < high {
        Some(DropsOf::Segment(flow, next))
    } else if una < next {
        Some(DropsOf::AcksAbove(flow, una))
    } else {
        None
    }
}

/// The segment whose first byte a flow's receiver waits for, where it was sent; where all that was sent has come, the
/// acknowledgements of more than the sender knows of.
pub(crate) fn missing_in(flow: u16, net: &Net) -> Option<DropsOf>
    ensures { result ≡ missing_in flow net.now.state }
{
    match (fields_in(flow, net.nodes()), next_in(flow, net.nodes())) {
        (Some(sender), Some(next)) => missing_between(flow, sender.una, sender.high, next),
        (Some(_), None) | (None, Some(_)) | (None, None) => None,
    }
}

/// Whether drops of a packet are looked for.
fn is_asked_for(of: DropsOf, packet: &Packet) -> bool
    ensures { result ≡ is_asked_for of packet.now }
{
    match (of, packet.kind) {
        (DropsOf::Segment(flow, byte), Kind::Data) => packet.flow == flow && packet.number == byte,
        (DropsOf::AcksAbove(flow, byte), Kind::Ack) => packet.flow == flow && byte < packet.number,
        (DropsOf::Segment(..), Kind::Ack) | (DropsOf::AcksAbove(..), Kind::Data) => false,
    }
}

/// Puts the drop that an act is, where it is looked for, behind others; or nothing.
fn push_drop(of: DropsOf, number: u64, act: &Act, out: &mut Vec<PastDrop>) -> Result<(), AllocError>
    ensures ok { OnOk result (out.new.items ≡ out.old.items ++ drop_of_act of number act.now) }
    ensures err { OnErr result (out.new.items ≡ out.old.items) }
{
    match act {
        Act::Dropped(link, reason, packet) if is_asked_for(of, packet) => {
            out.push(PastDrop {
                line: number,
                link: *link,
                reason: *reason,
                number: packet.number,
            })?;
            Ok(())
        }
        Act::Dropped(..) | Act::Tx(..) => Ok(()),
    }
}

/// Puts the drops that are looked for among the acts of a line behind others. On a fault some may have been put.
fn push_drops(
    of: DropsOf,
    number: u64,
    acts: &[Act],
    out: &mut Vec<PastDrop>,
) -> Result<(), AllocError>
    ensures ok { OnOk result (out.new.items ≡ out.old.items ++ drops_in of number acts.now) }
    ensures err { OnErr result (take (length out.old.items) out.new.items ≡ out.old.items) }
{
    for act in acts {
        push_drop(of, number, act, out)?;
    }
    Ok(())
}

/// Who puts drops behind others.
#[derive(Drop)]
struct Drops<'a> {
    /// The others.
    out: &'a mut Vec<PastDrop>,
    /// Which drops are looked for.
    of: DropsOf,
    /// Whether memory was refused for one.
    refused: bool,
}

impl Watch for Drops<'_> {
    ghost use Rattle.std.specs.Prelude.{◌≡◌, List, ◌++◌, ⊤, refl};
    ghost use Rattle.table_run.specs.State.{State};
    ghost use Rattle.debugger.specs.declared.drops.PastDrop.{PastDrop};
    ghost use Rattle.debugger.specs.Moves.{Passes};
    ghost use Rattle.debugger.specs.Found.{AreFound};
    ghost use Rattle.debugger.specs.Drops.{past_drops};

    ghost fits = { λ _ _. ⊤ };

    ghost has = { λ began from w at goes_on. (w.out.ghost_name ≡ began.out.ghost_name) × (w.of ≡ began.of) × ((start : State) (before : List PastDrop) → Passes start from → began.out.now.items ≡ before ++ past_drops start began.of from.position → AreFound (past_drops start began.of at.position) before w.out.now.items began.refused w.refused goes_on) };

    ghost begins = { λ _ _. (refl, refl, λ _ _ _ are. (are, refl)) };

    fn ahead(&self, _at: &Net, _next: Option<Due>) -> bool {
        true
    }

    fn see(&mut self, _before: &Snapshot<Net>, after: &Net, line: &Line) -> bool {
        match push_drops(self.of, after.position(), line.acts.as_slice(), self.out) {
            Ok(()) => true,
            Err(_) => {
                self.refused = true;
                false
            }
        }
    }
}

/// Runs from a run's beginning up to a position, and appends the drops that are looked for. On a fault some may have
/// been appended.
fn run_for_drops(
    net: &mut Net,
    position: u64,
    of: DropsOf,
    checkpoints: &mut Checkpoints,
    line: &mut Line,
    out: &mut Vec<PastDrop>,
) -> Result<(), MoveFault>
    requires on_run { Passes checkpoints.old net.old }
    requires from { net.old.position ≡ 0 }
    requires upto { HasPosition checkpoints.old position }
    ensures ok { OnOk result (out.new.items ≡ out.old.items ++ past_drops checkpoints.old of position) }
    ensures err { OnErr result (take (length out.old.items) out.new.items ≡ out.old.items) }
    ensures same { checkpoints.new ≡ checkpoints.old }
{
    let mut drops = Drops {
        out,
        of,
        refused: false,
    };
    let ended = reach_watched(net, position, checkpoints, &mut drops, line);
    let _count = net.position();
    match ended {
        Ok(_) if drops.refused => Err(MoveFault::NoMemory),
        Ok(_) => Ok(()),
        Err(fault) => Err(fault.into()),
    }
}

/// Appends the drops that are looked for among the lines up to a position, or nothing.
pub(crate) fn append_drops(
    position: u64,
    of: DropsOf,
    checkpoints: &mut Checkpoints,
    line: &mut Line,
    out: &mut Vec<PastDrop>,
) -> Result<(), MoveFault>
    requires { HasPosition checkpoints.old position }
    ensures ok { OnOk result (out.new.items ≡ out.old.items ++ past_drops checkpoints.old of position) }
    ensures err { OnErr result (out.new.items ≡ out.old.items) }
    ensures same { checkpoints.new ≡ checkpoints.old }
{
    let many = out.len();
    match checkpoints.first() {
        Ok(net) => {
            let mut net = net;
            match run_for_drops(&mut net, position, of, checkpoints, line, out) {
                Ok(()) => Ok(()),
                Err(fault) => {
                    out.truncate(many);
                    Err(fault)
                }
            }
        }
        Err(_) => Err(MoveFault::NoMemory),
    }
}
