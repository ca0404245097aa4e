//! A partial acknowledgement in NewReno's fast recovery (RFC 6582 section 3.2 step 3).
ghost use Rattle.std.specs.Prelude.{◌≡◌, ◌≤◌, ◌<◌, true};
ghost use Rattle.reno_sender.specs.Fields.{IsSound};
ghost use Rattle.sim_time.specs.Moment.{IsMoment};
ghost use Rattle.reno_sender.specs.Laws.{IsAckFor};
ghost use Rattle.reno_sender.specs.PlanView.{planned_of};
ghost use Rattle.reno_sender.specs.LossRecovery.{is_partial, partly, partial_acknowledgement};

use super::may_send_new;
use crate::congestion_control::{Progress, window_at};
use crate::fields::SenderFields;
use crate::plan::Plan;
use crate::sending::{resend, resend_and_send};
use crate::timer::measure;
use sim_time::Time;

/// What a partial acknowledgement does before anything is sent.
fn take_partly(fields: &mut SenderFields, ack: u64, now: Time)
    requires sound { IsSound fields.old }
    requires moment { IsMoment now }
    requires ack { IsAckFor fields.old ack now }
    requires new { fields.old.una < ack }
    ensures { fields.new ≡ partly fields.old ack now }
{
    let cwnd = window_at(fields, Progress::PartialData(ack - fields.una));
    measure(fields, ack, now);
    fields.una = ack;
    fields.nxt = fields.nxt.max(ack);
    fields.cwnd = cwnd;
    fields.lt = 0;
    fields.resent = false;
    if !fields.partial {
        fields.deadline = Some(now + fields.rto);
    }
    fields.partial = true;
}

/// A partial acknowledgement: one segment is sent again, and a new one where the windows allow it.
#[inline(never)]
pub(super) fn partial_acknowledgement(fields: &SenderFields, ack: u64, now: Time) -> Plan
    requires sound { IsSound fields.now }
    requires moment { IsMoment now }
    requires ack { IsAckFor fields.now ack now }
    requires new { fields.now.una < ack }
    requires is_partial { is_partial fields.now ack ≡ true }
    ensures { planned_of result ≡ partial_acknowledgement fields.now ack now }
{
    let mut partly = *fields;
    take_partly(&mut partly, ack, now);
    if may_send_new(&partly, partly.una + partly.cwnd.min(partly.rwnd)) {
        resend_and_send(&partly, now)
    } else {
        resend(&partly, partly.nxt)
    }
}
