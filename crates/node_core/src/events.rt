//! What is decided of each event, by what its node does.
ghost use Rattle.std.specs.Prelude.{◌≡◌, ◌≤◌, ℕ, List, IfOk, OnErr, IsSome};
ghost use Rattle.sim_time.specs.Moment.{IsMoment};
ghost use Rattle.node_core.specs.declared.event.Event.TheVariants.{Start, Rto, DelAck, Arrive};
ghost use Rattle.node_core.specs.Decided.{CanDecide, IsDecided};
ghost use Rattle.node_core.specs.InStep.{HasItsLink, rto_deadline, delayed_of};
ghost use Rattle.node_core.specs.Part.{LinkState};
ghost use Rattle.node_core.specs.Ready.{EndTakes, CanTakePacket};
ghost use Rattle.node_core.specs.Running.{part};
ghost use Rattle.node_core.specs.TraceLine.{IsSameEvent};

use crate::cells::Origin;
use crate::decision::Decision;
use crate::event::Event;
use crate::free_list::FreeList;
use crate::line::Line;
use crate::link::Link;
use crate::receiver_node::{answer_data, answer_delayed};
use crate::role::Role;
use crate::router_node::{free_link, pass_packet};
use crate::sender_node::{send_for_ack, send_plan};
use packet_chain::{Kind, Packet};
use port::Acts;
use sim_time::Key;
use std::alloc::{AllocError, Global};

/// The flow starts.
pub(crate) fn decide_start(
    alloc: Global,
    free_list: &mut FreeList,
    role: &mut Role,
    key: Key,
    acts: &mut Acts,
) -> Result<Decision, AllocError>
    requires { IsMoment key.time }
    ensures decided { (flow : ℕ) (links : List LinkState) → HasItsLink role.old links → IfOk result (IsDecided role.old role.new links key (Start flow) acts.new.room) }
    ensures same { OnErr result (role.new ≡ role.old) }
    ensures acts { acts.new.acts ≡ acts.old.acts }
{
    match role {
        Role::Sends(flow, sender) => {
            let plan = sender.start(key.time);
            send_plan(
                Origin { alloc, flow: *flow },
                free_list,
                sender,
                &plan,
                acts,
            )
        }
        Role::Receives(_, _) | Role::Routes(_) => Ok(Decision::Leave),
    }
}

/// The retransmission timer ends.
pub(crate) fn decide_timeout(
    alloc: Global,
    free_list: &mut FreeList,
    role: &mut Role,
    key: Key,
    acts: &mut Acts,
) -> Result<Decision, AllocError>
    requires moment { IsMoment key.time }
    requires set { IsSome (rto_deadline role.old) }
    ensures decided { (flow : ℕ) (links : List LinkState) → HasItsLink role.old links → IfOk result (IsDecided role.old role.new links key (Rto flow) acts.new.room) }
    ensures same { OnErr result (role.new ≡ role.old) }
    ensures acts { acts.new.acts ≡ acts.old.acts }
{
    match role {
        Role::Sends(flow, sender) => {
            let plan = sender.on_rto(key.time);
            send_plan(
                Origin { alloc, flow: *flow },
                free_list,
                sender,
                &plan,
                acts,
            )
        }
        Role::Receives(_, _) | Role::Routes(_) => Ok(Decision::Leave),
    }
}

/// A delayed acknowledgement is due.
pub(crate) fn decide_delayed(
    alloc: Global,
    free_list: &mut FreeList,
    role: &mut Role,
    acts: &mut Acts,
) -> Result<Decision, AllocError>
    requires { IsSome (delayed_of role.old) }
    ensures decided { (key : Key) (flow : ℕ) (links : List LinkState) → HasItsLink role.old links → IfOk result (IsDecided role.old role.new links key (DelAck flow) acts.new.room) }
    ensures same { OnErr result (role.new ≡ role.old) }
    ensures acts { acts.new.acts ≡ acts.old.acts }
{
    match role {
        Role::Receives(flow, receiver) => {
            answer_delayed(Origin { alloc, flow: *flow }, free_list, receiver, acts)
        }
        Role::Sends(_, _) | Role::Routes(_) => Ok(Decision::Leave),
    }
}

/// A packet arrives.
#[inline(always)]
pub(crate) fn decide_arrival(
    alloc: Global,
    free_list: &mut FreeList,
    role: &mut Role,
    packet: Packet,
    key: Key,
    acts: &mut Acts,
) -> Result<Decision, AllocError>
    requires moment { IsMoment key.time }
    requires takes { EndTakes role.old key.time packet }
    requires room { 1 ≤ acts.old.room }
    ensures decided { (links : List LinkState) → HasItsLink role.old links → CanTakePacket (part role.old links) role.old key.time packet → IfOk result (IsDecided role.old role.new links key (Arrive packet) acts.new.room) }
    ensures same { OnErr result (role.new ≡ role.old) }
    ensures acts { acts.new.acts ≡ acts.old.acts }
{
    match role {
        Role::Sends(flow, sender) => match packet.kind {
            Kind::Ack => {
                let origin = Origin { alloc, flow: *flow };
                send_for_ack(origin, free_list, sender, packet.number, key.time, acts)
            }
            Kind::Data => Ok(Decision::Leave),
        },
        Role::Receives(flow, receiver) => match packet.kind {
            Kind::Data => {
                let origin = Origin { alloc, flow: *flow };
                answer_data(origin, receiver, packet.number, key.time, acts)
            }
            Kind::Ack => Ok(Decision::Leave),
        },
        Role::Routes(table) => pass_packet(table, packet, acts),
    }
}

/// Decides what a line's event does: the role takes the event, and all memory is taken.
#[inline(always)]
pub(crate) fn decide(
    alloc: Global,
    free_list: &mut FreeList,
    role: &mut Role,
    links: &Vec<Link>,
    line: &mut Line,
) -> Result<Decision, AllocError>
    requires can { CanDecide role.old links.now.items line.old.key line.old.event }
    requires room { 1 ≤ line.old.acts.room }
    ensures decided { IfOk result (IsDecided role.old role.new links.now.items line.old.key line.old.event line.new.acts.room) }
    ensures same { OnErr result (role.new ≡ role.old) }
    ensures acts { line.new.acts.acts ≡ line.old.acts.acts }
    ensures same_event { IsSameEvent line.old.key line.new.key line.old.event line.new.event }
{
    let key = line.key;
    let acts = &mut line.acts;
    match &line.event {
        Event::Start(_) => decide_start(alloc, free_list, role, key, acts),
        Event::Rto(_) => decide_timeout(alloc, free_list, role, key, acts),
        Event::DelAck(_) => decide_delayed(alloc, free_list, role, acts),
        Event::Free(_) => Ok(Decision::TakeNext(free_link(links, key, acts)?)),
        Event::Arrive(packet) => decide_arrival(alloc, free_list, role, *packet, key, acts),
    }
}
