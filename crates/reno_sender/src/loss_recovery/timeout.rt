//! The retransmission timer's end (RFC 5681 section 3.1, RFC 6298 sections 5.4 to 5.6, RFC 6582
//! section 3.2 step 4).
ghost use Rattle.std.specs.Prelude.{◌≡◌, ◌≤◌, IsSome};
ghost use Rattle.reno_sender.specs.Fields.{IsSound};
ghost use Rattle.sim_time.specs.Moment.{IsMoment};
ghost use Rattle.reno_sender.specs.PlanView.{planned_of};
ghost use Rattle.reno_sender.specs.Table.{timed_out};
ghost use Rattle.reno_sender.specs.Timer.{backed_off};

use super::recover_at_loss;
use crate::congestion_control::{Loss, Lowered, lowered_at};
use crate::fields::SenderFields;
use crate::plan::Plan;
use crate::sending::resend;
use crate::timer::GREATEST_RTO;
use sim_time::Time;

/// Twice the timeout, up to sixty seconds (RFC 6298 section 5.5).
fn backed_off(rto: u64) -> u64
    requires { rto ≤ 60000000000 }
    ensures { result ≡ backed_off rto }
{
    (2 * rto).min(GREATEST_RTO)
}

/// The deadline has come: the segment at `una` is sent again.
#[tactic(auto, unfolding(crate::specs::Table::timed_out))]
pub(crate) fn timed_out(fields: &SenderFields, now: Time) -> Plan
    requires sound { IsSound fields.now }
    requires moment { IsMoment now }
    requires set { IsSome fields.now.deadline }
    ensures { planned_of result ≡ timed_out fields.now now }
{
    let rto = backed_off(fields.rto);
    let Lowered { ssthresh, cwnd } = lowered_at(fields, Loss::ByTimer);
    let timed_out = SenderFields {
        ssthresh,
        cwnd,
        rto,
        dups: 0,
        lt: 0,
        recovery: false,
        recover: recover_at_loss(fields),
        resent: true,
        timing: None,
        deadline: Some(now + rto),
        ..*fields
    };
    resend(&timed_out, timed_out.una + timed_out.mss)
}
