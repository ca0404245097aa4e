//! An acknowledgement, and what a new one does (RFC 5681 sections 3.1 and 3.2, RFC 6298 section 5).
ghost use Rattle.std.specs.Prelude.{◌≡◌, ◌<◌, ◌≤◌, IfSome};
ghost use Rattle.reno_sender.specs.Fields.{IsSound};
ghost use Rattle.sim_time.specs.Moment.{IsMoment};
ghost use Rattle.reno_sender.specs.Laws.{IsAckFor};
ghost use Rattle.reno_sender.specs.AckRun.{IsAckRun};
ghost use Rattle.reno_sender.specs.PlanView.{planned_of};
ghost use Rattle.reno_sender.specs.LossRecovery.{advanced, new_acknowledgement, window_after};
ghost use Rattle.reno_sender.specs.Table.{acknowledged, duplicated, newly_acknowledged};

use super::duplicates::{early_duplicate, further_duplicate, repeated_duplicate, third_duplicate};
use super::is_partial;
use super::partial::partial_acknowledgement;
use crate::congestion_control::{Progress, window_at};
use crate::fields::SenderFields;
use crate::fill::fill;
use crate::plan::{AckRun, Plan};
use crate::sending::send_run;
use crate::timer::measure;
use sim_time::Time;

/// The congestion window after a new acknowledgement of so many bytes, which ends recovery.
#[inline(always)]
fn window_after(fields: &SenderFields, bytes: u64) -> u64
    requires { IsSound fields.now }
    ensures { result ≡ window_after fields.now bytes }
{
    if fields.recovery {
        window_at(fields, Progress::RecoveryEnd)
    } else {
        window_at(fields, Progress::NewData(bytes))
    }
}

/// What a new acknowledgement does before anything is sent.
#[inline(always)]
fn advance(fields: &mut SenderFields, ack: u64, now: Time)
    requires sound { IsSound fields.old }
    requires moment { IsMoment now }
    requires ack { IsAckFor fields.old ack now }
    requires new { fields.old.una < ack }
    ensures { fields.new ≡ advanced fields.old ack now }
{
    let cwnd = window_after(fields, ack - fields.una);
    let nxt = fields.nxt.max(ack);
    measure(fields, ack, now);
    fields.una = ack;
    fields.nxt = nxt;
    fields.cwnd = cwnd;
    fields.dups = 0;
    fields.lt = 0;
    fields.recovery = false;
    fields.resent = false;
    fields.deadline = if ack == nxt {
        None
    } else {
        Some(now + fields.rto)
    };
}

/// A new acknowledgement, and what it lets go.
pub(crate) fn new_acknowledgement(fields: &SenderFields, ack: u64, now: Time) -> Plan
    requires sound { IsSound fields.now }
    requires moment { IsMoment now }
    requires ack { IsAckFor fields.now ack now }
    requires new { fields.now.una < ack }
    ensures { planned_of result ≡ new_acknowledgement fields.now ack now }
{
    let mut advanced = *fields;
    advance(&mut advanced, ack, now);
    fill(&advanced, now)
}

/// What an acknowledgement lets go, where it is new and not partial.
#[inline(always)]
pub(crate) fn run_after(fields: &SenderFields, ack: u64) -> Option<AckRun>
    requires sound { IsSound fields.now }
    requires most { ack ≤ fields.now.high }
    ensures { IfSome result (IsAckRun fields.now ack) }
{
    if ack <= fields.una || is_partial(fields, ack) {
        return None;
    }
    let cwnd = window_after(fields, ack - fields.una);
    let first = fields.nxt.max(ack);
    let end = (ack + cwnd.min(fields.rwnd)).min(fields.segments * fields.mss);
    Some(AckRun {
        first,
        count: end.saturating_sub(first) / fields.mss,
    })
}

/// A new acknowledgement that is not partial, where the fields lie.
#[inline(always)]
pub(crate) fn take_run(fields: &mut SenderFields, ack: u64, now: Time, run: AckRun)
    requires sound { IsSound fields.old }
    requires moment { IsMoment now }
    requires ack { IsAckFor fields.old ack now }
    requires run { IsAckRun fields.old ack run }
    ensures { fields.new ≡ (new_acknowledgement fields.old ack now).fields }
{
    advance(fields, ack, now);
    send_run(fields, run.count, now);
}

/// An acknowledgement of new data, which may be a partial one.
#[inline(always)]
fn newly_acknowledged(fields: &SenderFields, ack: u64, now: Time) -> Plan
    requires sound { IsSound fields.now }
    requires moment { IsMoment now }
    requires ack { IsAckFor fields.now ack now }
    requires new { fields.now.una < ack }
    ensures { planned_of result ≡ newly_acknowledged fields.now ack now }
{
    if is_partial(fields, ack) {
        partial_acknowledgement(fields, ack, now)
    } else {
        new_acknowledgement(fields, ack, now)
    }
}

/// A duplicate: in recovery, or the third, the first or second, or a further one.
#[inline(always)]
fn duplicated(fields: &SenderFields, now: Time) -> Plan
    requires sound { IsSound fields.now }
    requires moment { IsMoment now }
    requires outstanding { fields.now.una < fields.now.nxt }
    ensures { planned_of result ≡ duplicated fields.now now }
{
    if fields.recovery {
        further_duplicate(fields, now)
    } else if fields.dups == 2 {
        third_duplicate(fields, now)
    } else if fields.dups < 2 {
        early_duplicate(fields, now)
    } else {
        repeated_duplicate(fields)
    }
}

/// An acknowledgement: of new data, old, or a duplicate.
#[tactic(auto, unfolding(crate::specs::Table::acknowledged))]
pub(crate) fn acknowledged(fields: &SenderFields, ack: u64, now: Time) -> Plan
    requires sound { IsSound fields.now }
    requires moment { IsMoment now }
    requires ack { IsAckFor fields.now ack now }
    ensures { planned_of result ≡ acknowledged fields.now ack now }
{
    if ack > fields.una {
        newly_acknowledged(fields, ack, now)
    } else if ack < fields.una || fields.una == fields.nxt {
        Plan::nothing(fields)
    } else {
        duplicated(fields, now)
    }
}
