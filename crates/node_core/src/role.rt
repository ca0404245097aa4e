//! What a node does.
ghost use Rattle.std.specs.Prelude.{◌≡◌, IfOk};

use crate::event::Event;
use crate::line::After;
use crate::routes::RouteTable;
use crate::shown::SenderShown;
use packet_chain::{Kind, Packet};
use reno_receiver::Receiver;
use reno_sender::Sender;
use std::alloc::AllocError;

/// What a node does, with all that it keeps for it.
#[derive(Drop)]
pub enum Role {
    /// Sends the data of the flow of this number.
    Sends(u16, Sender),
    /// Receives the data of the flow of this number, and acknowledges it.
    Receives(u16, Receiver),
    /// Passes packets on.
    Routes(RouteTable),
}

impl Role {
    ghost use Rattle.node_core.specs.Row.{after_of};
    ghost use Rattle.node_core.specs.InStep.{flow_of};
    ghost use Rattle.node_core.specs.Decided.{route_of};

    /// The number of its flow; 0 at a router.
    pub(crate) fn flow(&self) -> u16
        ensures { result ≡ flow_of self.now }
    {
        match self {
            Role::Sends(flow, _) | Role::Receives(flow, _) => *flow,
            Role::Routes(_) => 0,
        }
    }

    /// The outgoing link by which a packet goes on; none at a flow's end.
    #[inline(always)]
    pub(crate) fn route(&self, packet: &Packet) -> Option<u16>
        ensures { result ≡ route_of self.now packet.now }
    {
        match self {
            Role::Routes(table) => table.exit(packet),
            Role::Sends(_, _) | Role::Receives(_, _) => None,
        }
    }

    /// Whether the event is a segment that comes to a receiver.
    #[inline(always)]
    pub(crate) fn answers(&self, event: &Event) -> bool {
        match event {
            Event::Arrive(packet) => match self {
                Role::Receives(_, _) => packet.kind == Kind::Data,
                Role::Sends(_, _) | Role::Routes(_) => false,
            },
            _ => false,
        }
    }

    /// Whether the event is a new acknowledgement that comes to a sender outside of recovery.
    #[inline(always)]
    pub(crate) fn is_answered(&self, event: &Event) -> bool {
        match event {
            Event::Arrive(packet) => match self {
                Role::Sends(_, sender) => {
                    let fields = sender.as_fields();
                    packet.kind == Kind::Ack && packet.number > fields.una && !fields.recovery
                }
                Role::Receives(_, _) | Role::Routes(_) => false,
            },
            _ => false,
        }
    }

    /// Writes what a line shows of it, where that lies.
    pub fn show(&self, after: &mut After)
        ensures { after.new ≡ after_of self.now }
    {
        // Two states of one kind share their place, so that nothing else is written.
        match self {
            Role::Sends(_, sender) => match after {
                After::AtSender(shown) => shown.set(sender.as_fields()),
                After::AtReceiver(_) | After::AtRouter => {
                    *after = After::AtSender(SenderShown::of(sender.as_fields()));
                }
            },
            Role::Receives(_, receiver) => match after {
                After::AtReceiver(next) => *next = receiver.next(),
                After::AtSender(_) | After::AtRouter => {
                    *after = After::AtReceiver(receiver.next());
                }
            },
            Role::Routes(_) => match after {
                After::AtRouter => {}
                After::AtSender(_) | After::AtReceiver(_) => *after = After::AtRouter,
            },
        }
    }

    /// The same, with memory of its own.
    pub fn copy(&self) -> Result<Role, AllocError>
        ensures { IfOk result (λ copy. copy ≡ self.now) }
    {
        match self {
            Role::Sends(flow, sender) => Ok(Role::Sends(*flow, *sender)),
            Role::Receives(flow, receiver) => Ok(Role::Receives(*flow, receiver.copy()?)),
            Role::Routes(table) => Ok(Role::Routes(table.copy()?)),
        }
    }
}
