//! Duplicate acknowledgements: limited transmit, fast retransmit and fast recovery (RFC 5681
//! section 3.2). Each row is a function of its own also in the program: else every acknowledgement would clear the
//! places of all rows.
ghost use Rattle.std.specs.Prelude.{◌≡◌, ◌≤◌, ◌<◌, ◌+◌, ◌^◌, Bool, true, false};
ghost use Rattle.reno_sender.specs.Fields.{IsSound};
ghost use Rattle.sim_time.specs.Moment.{IsMoment};
ghost use Rattle.reno_sender.specs.PlanView.{planned_of};
ghost use Rattle.reno_sender.specs.LossRecovery.{early_duplicate, enters, fast_retransmit, third_duplicate, repeated_duplicate, further_duplicate};

use super::{enters, may_send_new, one_more, recover_at_loss};
use crate::congestion_control::{Loss, Lowered, Progress, lowered_at, window_at};
use crate::fields::SenderFields;
use crate::plan::Plan;
use crate::sending::{resend, send_one};
use sim_time::Time;

/// The first and the second duplicate: limited transmit (RFC 5681 section 3.2 step 1, RFC 3042).
#[inline(never)]
pub(super) fn early_duplicate(fields: &SenderFields, now: Time) -> Plan
    requires sound { IsSound fields.now }
    requires moment { IsMoment now }
    requires no_recovery { fields.now.recovery ≡ false }
    requires few { fields.now.dups < 2 }
    ensures { planned_of result ≡ early_duplicate fields.now now }
{
    let end = fields.una + (fields.cwnd + 2 * fields.mss).min(fields.rwnd);
    let sends = may_send_new(fields, end);
    let lt = fields.lt;
    let counted = SenderFields {
        dups: one_more(fields.dups),
        ..*fields
    };
    if sends {
        send_one(&counted, lt + counted.mss, now)
    } else {
        Plan::nothing(&counted)
    }
}

/// Fast retransmit, the beginning of fast recovery (RFC 5681 section 3.2 steps 2 and 3).
fn fast_retransmit(fields: &SenderFields, now: Time) -> Plan
    requires sound { IsSound fields.now }
    requires moment { IsMoment now }
    requires outstanding { fields.now.una < fields.now.nxt }
    requires enters { enters fields.now ≡ true }
    ensures { planned_of result ≡ fast_retransmit fields.now now }
{
    let Lowered { ssthresh, cwnd } = lowered_at(fields, Loss::ByDuplicates);
    let retransmitting = SenderFields {
        dups: 3,
        ssthresh,
        cwnd,
        recovery: true,
        recover: recover_at_loss(fields),
        partial: false,
        ..*fields
    };
    resend(&retransmitting, retransmitting.nxt)
}

/// The third duplicate.
#[inline(never)]
pub(super) fn third_duplicate(fields: &SenderFields, now: Time) -> Plan
    requires sound { IsSound fields.now }
    requires moment { IsMoment now }
    requires outstanding { fields.now.una < fields.now.nxt }
    requires no_recovery { fields.now.recovery ≡ false }
    ensures { planned_of result ≡ third_duplicate fields.now now }
{
    if enters(fields) {
        fast_retransmit(fields, now)
    } else {
        Plan::nothing(&SenderFields { dups: 3, ..*fields })
    }
}

/// A further duplicate where the third told of no loss.
#[inline(never)]
pub(super) fn repeated_duplicate(fields: &SenderFields) -> Plan
    requires sound { IsSound fields.now }
    requires no_recovery { fields.now.recovery ≡ false }
    requires many { 3 ≤ fields.now.dups }
    ensures { planned_of result ≡ repeated_duplicate fields.now }
{
    let counted = SenderFields {
        dups: one_more(fields.dups),
        ..*fields
    };
    Plan::nothing(&counted)
}

/// A further duplicate, in fast recovery (RFC 5681 section 3.2 steps 4 and 5).
#[inline(never)]
pub(super) fn further_duplicate(fields: &SenderFields, now: Time) -> Plan
    requires sound { IsSound fields.now }
    requires moment { IsMoment now }
    requires in_recovery { fields.now.recovery ≡ true }
    ensures { planned_of result ≡ further_duplicate fields.now now }
{
    let cwnd = window_at(fields, Progress::FurtherDuplicate);
    let sends = may_send_new(fields, fields.una + cwnd.min(fields.rwnd));
    let inflated = SenderFields {
        dups: one_more(fields.dups),
        cwnd,
        ..*fields
    };
    if sends {
        send_one(&inflated, inflated.lt, now)
    } else {
        Plan::nothing(&inflated)
    }
}
