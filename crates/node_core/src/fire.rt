//! Running the event of a node's least key: it is decided, and then carried out.
ghost use Rattle.std.specs.Prelude.{◌≤◌, OnErr, IfOk};
ghost use Rattle.node_core.specs.CarriedOut.{CanFire, IsNextEvent, IsCarriedOut, EventIsRun};
ghost use Rattle.node_core.specs.Decided.{CanDo};
ghost use Rattle.node_core.specs.Running.{IsAsBefore};
ghost use Rattle.node_core.specs.TraceLine.{IsSameEvent};

use crate::decision::Decision;
use crate::event::Event;
use crate::event_queue::EventQueue;
use crate::events::decide;
use crate::line::Line;
use crate::link::Link;
use crate::outbox::Outbox;
use crate::passing::{pass_on, send, take_next};
use crate::role::Role;
use crate::router_node::free_link;
use packet_chain::Kind;
use std::alloc::AllocError;

/// Carries out what was decided of a line's event, which leaves: it takes no memory. The answer is
/// the index of the link over which a packet left.
#[inline(always)]
pub(crate) fn carry_out(
    decision: Decision,
    links: &mut Vec<Link>,
    event_queue: &mut EventQueue,
    line: &mut Line,
    out: &mut Outbox,
) -> Option<u16>
    requires next { IsNextEvent line.old.key line.old.event links.old.items event_queue.old out.old }
    requires can { CanDo line.old.key line.old.event links.old.items line.old.acts.room decision }
    ensures done { IsCarriedOut line.old.key line.old.event decision links.old.items links.new.items event_queue.old event_queue.new out.old out.new line.old.acts.acts line.new.acts.acts result }
    ensures same_event { IsSameEvent line.old.key line.new.key line.old.event line.new.event }
{
    match decision {
        Decision::Leave => {
            out.free_list.keep(event_queue.take(line.key));
            None
        }
        Decision::PassOn(index) => pass_on(index, links, event_queue, line, out),
        Decision::TakeNext(index) => take_next(index, links, event_queue, line, out),
        Decision::Send(sending) => send(sending, links, event_queue, line, out),
    }
}

// An event that is decided first, and then carried out.
#[inline(always)]
fn run_decided(
    role: &mut Role,
    links: &mut Vec<Link>,
    event_queue: &mut EventQueue,
    line: &mut Line,
    out: &mut Outbox,
) -> Result<Option<u16>, AllocError>
    requires can { CanFire role.old links.old.items event_queue.old line.old.key line.old.event out.old }
    requires room { 1 ≤ line.old.acts.room }
    ensures ran { IfOk result (EventIsRun role.old role.new links.old.items links.new.items event_queue.old event_queue.new out.old out.new line.old line.new) }
    ensures same { OnErr result (IsAsBefore role.old role.new links.old.items links.new.items event_queue.old event_queue.new out.old out.new) }
{
    let decision = decide(event_queue.alloc(), &mut out.free_list, role, links, line)?;
    Ok(carry_out(decision, links, event_queue, line, out))
}

// The same by a function of its own also in the program: most events are of links, and the places that an end
// needs would be cleared for them too.
#[inline(never)]
fn run_apart(
    role: &mut Role,
    links: &mut Vec<Link>,
    event_queue: &mut EventQueue,
    line: &mut Line,
    out: &mut Outbox,
) -> Result<Option<u16>, AllocError>
    requires can { CanFire role.old links.old.items event_queue.old line.old.key line.old.event out.old }
    requires room { 1 ≤ line.old.acts.room }
    ensures ran { IfOk result (EventIsRun role.old role.new links.old.items links.new.items event_queue.old event_queue.new out.old out.new line.old line.new) }
    ensures same { OnErr result (IsAsBefore role.old role.new links.old.items links.new.items event_queue.old event_queue.new out.old out.new) }
{
    run_decided(role, links, event_queue, line, out)
}

// The same where nearly always a segment has come to a receiver: only what that needs is in the program's function.
#[inline(never)]
fn run_data(
    role: &mut Role,
    links: &mut Vec<Link>,
    event_queue: &mut EventQueue,
    line: &mut Line,
    out: &mut Outbox,
) -> Result<Option<u16>, AllocError>
    requires can { CanFire role.old links.old.items event_queue.old line.old.key line.old.event out.old }
    requires room { 1 ≤ line.old.acts.room }
    ensures ran { IfOk result (EventIsRun role.old role.new links.old.items links.new.items event_queue.old event_queue.new out.old out.new line.old line.new) }
    ensures same { OnErr result (IsAsBefore role.old role.new links.old.items links.new.items event_queue.old event_queue.new out.old out.new) }
{
    if role.answers(&line.event) {
        run_decided(role, links, event_queue, line, out)
    } else {
        run_apart(role, links, event_queue, line, out)
    }
}

// The same where nearly always a new acknowledgement has come to a sender, which needs no plan.
#[inline(never)]
fn run_ack(
    role: &mut Role,
    links: &mut Vec<Link>,
    event_queue: &mut EventQueue,
    line: &mut Line,
    out: &mut Outbox,
) -> Result<Option<u16>, AllocError>
    requires can { CanFire role.old links.old.items event_queue.old line.old.key line.old.event out.old }
    requires room { 1 ≤ line.old.acts.room }
    ensures ran { IfOk result (EventIsRun role.old role.new links.old.items links.new.items event_queue.old event_queue.new out.old out.new line.old line.new) }
    ensures same { OnErr result (IsAsBefore role.old role.new links.old.items links.new.items event_queue.old event_queue.new out.old out.new) }
{
    if role.is_answered(&line.event) {
        run_decided(role, links, event_queue, line, out)
    } else {
        run_apart(role, links, event_queue, line, out)
    }
}

/// Runs a line's event, which is the least: first all memory is taken, then the event is done. There is room for one
/// act.
pub(crate) fn run(
    role: &mut Role,
    links: &mut Vec<Link>,
    event_queue: &mut EventQueue,
    line: &mut Line,
    out: &mut Outbox,
) -> Result<Option<u16>, AllocError>
    requires can { CanFire role.old links.old.items event_queue.old line.old.key line.old.event out.old }
    requires room { 1 ≤ line.old.acts.room }
    ensures ran { IfOk result (EventIsRun role.old role.new links.old.items links.new.items event_queue.old event_queue.new out.old out.new line.old line.new) }
    ensures same { OnErr result (IsAsBefore role.old role.new links.old.items links.new.items event_queue.old event_queue.new out.old out.new) }
{
    match &line.event {
        Event::Free(_) => {
            let index = free_link(links, line.key, &mut line.acts)?;
            Ok(take_next(index, links, event_queue, line, out))
        }
        Event::Arrive(packet) => match role.route(packet) {
            Some(index) => Ok(pass_on(index, links, event_queue, line, out)),
            None => match packet.kind {
                Kind::Data => run_data(role, links, event_queue, line, out),
                Kind::Ack => run_ack(role, links, event_queue, line, out),
            },
        },
        Event::Start(_) | Event::Rto(_) | Event::DelAck(_) => {
            run_apart(role, links, event_queue, line, out)
        }
    }
}
