//! What sending does to a sender: `high`, the timed segment and the timer.
ghost use Rattle.std.specs.Prelude.{◌⊎◌, IsTrue, false, Some, ◌≡◌, ◌≤◌, ◌<◌, ℕ, ◌+◌, ◌-◌, ◌*◌, [], ◌∷◌, ◌^◌, ◌&&◌, nat_lt, if◌then◌else◌};
ghost use Rattle.reno_sender.specs.Fields.{IsSound, IsMultiple, total, is_newreno};
ghost use Rattle.sim_time.specs.Moment.{IsMoment};
ghost use Rattle.reno_sender.specs.PlanView.{planned_of};
ghost use Rattle.reno_sender.specs.Sending.{sending, spaced, timing_of, timing_after, deadline_after};

use crate::fields::{SenderFields, Timing};
use crate::plan::Plan;
use sim_time::Time;

/// The timed segment where one is still timed after `count` segments from `nxt` on: any
/// resending ends the timing (RFC 6298 section 3).
fn still_timed(fields: &SenderFields, count: u64) -> Option<Timing>
    ensures { let resends = nat_lt 0 count && nat_lt fields.now.nxt fields.now.high in
        result ≡ (if resends then None else fields.now.timing) }
{
    if count > 0 && fields.nxt < fields.high {
        None
    } else {
        fields.timing
    }
}

/// The first new segment of those up to `end`, as timed from now on.
fn newly_timed(fields: &SenderFields, end: u64, now: Time) -> Option<Timing>
    requires { fields.now.high + fields.now.mss < 2 ^ 64 }
    ensures { let timing = timing_of (fields.now.high + fields.now.mss) now in
        result ≡ (if nat_lt fields.now.high end then Some timing else None) }
{
    if fields.high < end {
        Some(Timing {
            number: fields.high + fields.mss,
            sent_at: now,
        })
    } else {
        None
    }
}

/// The timed segment after `count` segments from `nxt` on are sent.
#[inline(always)]
fn timing_after_run(fields: &SenderFields, count: u64, now: Time) -> Option<Timing>
    requires sound { IsSound fields.now }
    requires in_total { fields.now.nxt + count * fields.now.mss ≤ total fields.now }
    ensures { result ≡ timing_after fields.now (spaced fields.now.nxt fields.now.mss count) now }
{
    let end = fields.nxt + count * fields.mss;
    still_timed(fields, count).or(newly_timed(fields, end, now))
}

/// The timer after `count` segments are sent: where it was off, it starts (RFC 6298 section 5.1).
#[inline(always)]
fn deadline_after_run(fields: &SenderFields, count: u64, now: Time) -> Option<Time>
    requires sound { IsSound fields.now }
    requires moment { IsMoment now }
    ensures { result ≡ deadline_after fields.now (spaced fields.now.nxt fields.now.mss count) now }
{
    if count > 0 && fields.deadline.is_none() {
        Some(now + fields.rto)
    } else {
        fields.deadline
    }
}

/// The fields after `count` segments from `nxt` on are sent.
pub(crate) fn after_run(fields: &SenderFields, count: u64, now: Time) -> SenderFields
    requires sound { IsSound fields.now }
    requires moment { IsMoment now }
    requires in_total { fields.now.nxt + count * fields.now.mss ≤ total fields.now }
    ensures { let sent = spaced fields.now.nxt fields.now.mss count in
        result ≡ (sending fields.now sent (fields.now.nxt + count * fields.now.mss) now).fields }
{
    let nxt = fields.nxt + count * fields.mss;
    SenderFields {
        nxt,
        high: fields.high.max(nxt),
        timing: timing_after_run(fields, count, now),
        deadline: deadline_after_run(fields, count, now),
        ..*fields
    }
}

/// Sends `count` segments from `nxt` on: the same fields, where they lie.
#[inline(always)]
pub(crate) fn send_run(fields: &mut SenderFields, count: u64, now: Time)
    requires sound { IsSound fields.old }
    requires moment { IsMoment now }
    requires in_total { fields.old.nxt + count * fields.old.mss ≤ total fields.old }
    ensures { let sent = spaced fields.old.nxt fields.old.mss count in
        fields.new ≡ (sending fields.old sent (fields.old.nxt + count * fields.old.mss) now).fields }
{
    let nxt = fields.nxt + count * fields.mss;
    let timing = timing_after_run(fields, count, now);
    let deadline = deadline_after_run(fields, count, now);
    fields.high = fields.high.max(nxt);
    fields.nxt = nxt;
    fields.timing = timing;
    fields.deadline = deadline;
}

/// Sends the one segment at `nxt`, with `lt` bytes sent by limited transmit then.
pub(crate) fn send_one(fields: &SenderFields, lt: u64, now: Time) -> Plan
    requires sound { IsSound fields.now }
    requires moment { IsMoment now }
    requires in_total { fields.now.nxt + fields.now.mss ≤ total fields.now }
    requires in_window { fields.now.nxt + fields.now.mss ≤ fields.now.una + fields.now.rwnd }
    requires lt_flight { lt ≤ fields.now.nxt + fields.now.mss - fields.now.una }
    ensures { let limited = record fields.now { lt = lt } in
        planned_of result ≡ sending limited (fields.now.nxt ∷ []) (fields.now.nxt + fields.now.mss) now }
{
    let first = fields.nxt;
    let sent = after_run(fields, 1, now);
    Plan::of(SenderFields { lt, ..sent }, None, first, 1)
}

/// Sends the segment at `una` again, which ends the timing; `nxt` is then as given: what it was, or less, where
/// recovery ends and all that was sent counts as lost.
pub(crate) fn resend(fields: &SenderFields, nxt: u64) -> Plan
    requires sound { IsSound fields.now }
    requires above { fields.now.una < nxt }
    requires back { nxt ≤ fields.now.nxt }
    requires whole { IsMultiple fields.now.mss nxt }
    requires lt_flight { fields.now.lt ≤ nxt - fields.now.una }
    requires went_back { (nxt ≡ fields.now.nxt) ⊎ ((fields.now.recovery ≡ false) × (IsTrue (is_newreno fields.now) → fields.now.recover ≡ Some fields.now.high)) }
    ensures { (now : ℕ) → planned_of result ≡ sending fields.now (fields.now.una ∷ []) nxt now }
{
    let una = fields.una;
    let resent = SenderFields {
        nxt,
        timing: None,
        ..*fields
    };
    Plan::of(resent, Some(una), nxt, 0)
}

/// Sends the segment at `una` again, and then the one at `nxt`, which is new.
pub(crate) fn resend_and_send(fields: &SenderFields, now: Time) -> Plan
    requires sound { IsSound fields.now }
    requires moment { IsMoment now }
    requires outstanding { fields.now.una < fields.now.nxt }
    requires in_total { fields.now.nxt + fields.now.mss ≤ total fields.now }
    requires in_window { fields.now.nxt + fields.now.mss ≤ fields.now.una + fields.now.rwnd }
    ensures { planned_of result ≡ sending fields.now (fields.now.una ∷ fields.now.nxt ∷ []) (fields.now.nxt + fields.now.mss) now }
{
    let una = fields.una;
    let first = fields.nxt;
    let mut untimed = *fields;
    untimed.timing = None;
    Plan::of(after_run(&untimed, 1, now), Some(una), first, 1)
}
