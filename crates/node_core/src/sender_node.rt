//! The rows of the sender's table at a sender's node.
ghost use Rattle.std.specs.Prelude.{◌≡◌, IfOk, OnOk, OnErr, map, true, false};
ghost use Rattle.sim_time.specs.Moment.{IsMoment};
ghost use Rattle.reno_sender.specs.Laws.{IsAckFor};
ghost use Rattle.reno_sender.specs.PlanView.{IsPlanOf, sent_of};
ghost use Rattle.reno_sender.specs.Table.{acknowledged};
ghost use Rattle.node_core.specs.declared.timer.Timer.TheVariants.{Retransmission};
ghost use Rattle.node_core.specs.Decided.{IsSent, OnSend};
ghost use Rattle.node_core.specs.Row.{data_packet};

use crate::cells::{Origin, but_last, run_but_last, segments};
use crate::decision::{Decision, Sending};
use crate::free_list::FreeList;
use crate::timer::Timer;
use port::Acts;
use reno_sender::{Plan, Sender};
use sim_time::Time;
use std::alloc::AllocError;

/// A row at which no packet arrives: all segments of its plan get cells of their own. All memory is
/// taken before the sender takes the event.
pub(crate) fn send_plan(
    origin: Origin,
    free_list: &mut FreeList,
    sender: &mut Sender,
    plan: &Plan,
    acts: &mut Acts,
) -> Result<Decision, AllocError>
    requires { IsPlanOf sender.old plan.now }
    ensures sends { IfOk result (OnSend (IsSent false (map (data_packet origin.flow plan.now.fields.mss) (sent_of plan.now)) Retransmission plan.now.fields.deadline acts.new.room)) }
    ensures sender { OnOk result (sender.new ≡ plan.now.fields) }
    ensures same { OnErr result (sender.new ≡ sender.old) }
    ensures acts { acts.new.acts ≡ acts.old.acts }
{
    acts.reserve(plan.count() as usize + 1)?;
    let mss = plan.as_fields().mss;
    let cells = segments(
        origin,
        free_list,
        mss,
        plan.resent(),
        plan.first(),
        plan.count(),
    )?;
    sender.commit_lent(plan);
    Ok(Decision::Send(Sending {
        cells,
        last: None,
        timer: Timer::Retransmission,
        time: plan.as_fields().deadline,
    }))
}

// A row at which a packet arrives: the last segment of its plan takes that packet's cell.
fn send_behind(
    origin: Origin,
    free_list: &mut FreeList,
    sender: &mut Sender,
    plan: &Plan,
    acts: &mut Acts,
) -> Result<Decision, AllocError>
    requires { IsPlanOf sender.old plan.now }
    ensures sends { IfOk result (OnSend (IsSent true (map (data_packet origin.flow plan.now.fields.mss) (sent_of plan.now)) Retransmission plan.now.fields.deadline acts.new.room)) }
    ensures sender { OnOk result (sender.new ≡ plan.now.fields) }
    ensures same { OnErr result (sender.new ≡ sender.old) }
    ensures acts { acts.new.acts ≡ acts.old.acts }
{
    acts.reserve(plan.count() as usize + 1)?;
    let (cells, last) = but_last(origin, free_list, plan)?;
    sender.commit_lent(plan);
    Ok(Decision::Send(Sending {
        cells,
        last,
        timer: Timer::Retransmission,
        time: plan.as_fields().deadline,
    }))
}

/// An acknowledgement has come: the last segment that it lets go takes its cell.
#[inline(always)]
pub(crate) fn send_for_ack(
    origin: Origin,
    free_list: &mut FreeList,
    sender: &mut Sender,
    number: u64,
    now: Time,
    acts: &mut Acts,
) -> Result<Decision, AllocError>
    requires moment { IsMoment now }
    requires ack { IsAckFor sender.old number now }
    ensures sends { IfOk result (OnSend (IsSent true (map (data_packet origin.flow (acknowledged sender.old number now).fields.mss) (acknowledged sender.old number now).sent) Retransmission (acknowledged sender.old number now).fields.deadline acts.new.room)) }
    ensures sender { OnOk result (sender.new ≡ (acknowledged sender.old number now).fields) }
    ensures same { OnErr result (sender.new ≡ sender.old) }
    ensures acts { acts.new.acts ≡ acts.old.acts }
{
    let Some(run) = sender.run_for(number) else {
        let plan = sender.on_ack(number, now);
        return send_behind(origin, free_list, sender, &plan, acts);
    };
    let mss = sender.as_fields().mss;
    acts.reserve(run.count as usize)?;
    let (cells, last) = run_but_last(origin, free_list, mss, run)?;
    sender.take_run(number, now, run);
    Ok(Decision::Send(Sending {
        cells,
        last,
        timer: Timer::Retransmission,
        time: sender.deadline(),
    }))
}
