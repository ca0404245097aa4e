//! The rows of the receiver's table at a receiver's node.
ghost use Rattle.std.specs.Prelude.{◌≡◌, ◌%◌, ◌≤◌, IfOk, OnOk, OnErr, option_to_list, true, false};
ghost use Rattle.sim_time.specs.Moment.{IsMoment};
ghost use Rattle.reno_receiver.specs.Received.{data_came, timer_came};
ghost use Rattle.node_core.specs.declared.timer.Timer.TheVariants.{DelayedAcknowledgement};
ghost use Rattle.node_core.specs.Decided.{IsSent, OnSend};
ghost use Rattle.node_core.specs.Row.{ack_of};

use crate::cells::{Origin, acknowledgement, alone};
use crate::decision::{Decision, Sending};
use crate::free_list::FreeList;
use crate::timer::Timer;
use packet_chain::{Packet, PacketChain};
use port::Acts;
use reno_receiver::{Receiver, Reply};
use sim_time::Time;
use std::alloc::AllocError;

// The acknowledgement that a receiver gives now, if it gives one.
fn answer(flow: u16, reply: Reply) -> Option<Packet>
    ensures { option_to_list result ≡ ack_of flow reply }
{
    match reply {
        Reply::AckNow(number) => Some(acknowledgement(flow, number)),
        Reply::Wait(_) => None,
    }
}

/// A segment has come: its cell takes the acknowledgement, if there is one now.
#[inline(always)]
pub(crate) fn answer_data(
    origin: Origin,
    receiver: &mut Receiver,
    number: u64,
    now: Time,
    acts: &mut Acts,
) -> Result<Decision, AllocError>
    requires moment { IsMoment now }
    requires multiple { number % receiver.old.mss ≡ 0 }
    requires greatest { number ≤ 9000000000000 }
    requires room { 1 ≤ acts.old.room }
    ensures sends { IfOk result (OnSend (IsSent true (ack_of origin.flow (data_came receiver.old number now).reply) DelayedAcknowledgement (data_came receiver.old number now).state.timer acts.new.room)) }
    ensures receiver { OnOk result (receiver.new ≡ (data_came receiver.old number now).state) }
    ensures same { OnErr result (receiver.new ≡ receiver.old) }
    ensures acts { acts.new.acts ≡ acts.old.acts }
{
    let reply = receiver.on_data(number, now)?;
    Ok(Decision::Send(Sending {
        cells: PacketChain::new(origin.alloc),
        last: answer(origin.flow, reply),
        timer: Timer::DelayedAcknowledgement,
        time: receiver.timer(),
    }))
}

/// A delayed acknowledgement is due: it gets a cell of its own.
pub(crate) fn answer_delayed(
    origin: Origin,
    free_list: &mut FreeList,
    receiver: &mut Receiver,
    acts: &mut Acts,
) -> Result<Decision, AllocError>
    ensures sends { IfOk result (OnSend (IsSent false (ack_of origin.flow (timer_came receiver.old).reply) DelayedAcknowledgement (timer_came receiver.old).state.timer acts.new.room)) }
    ensures receiver { OnOk result (receiver.new ≡ (timer_came receiver.old).state) }
    ensures same { OnErr result (receiver.new ≡ receiver.old) }
    ensures acts { acts.new.acts ≡ acts.old.acts }
{
    acts.reserve(1)?;
    let packet = acknowledgement(origin.flow, receiver.next());
    let cells = alone(origin, free_list, packet)?;
    let _number = receiver.on_delack();
    Ok(Decision::Send(Sending {
        cells,
        last: None,
        timer: Timer::DelayedAcknowledgement,
        time: receiver.timer(),
    }))
}
