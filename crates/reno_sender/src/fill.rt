//! How much new data the windows allow (RFC 5681 section 3.1).
ghost use Rattle.std.specs.Prelude.{◌≡◌};
ghost use Rattle.reno_sender.specs.Fields.{IsSound};
ghost use Rattle.sim_time.specs.Moment.{IsMoment};
ghost use Rattle.reno_sender.specs.PlanView.{planned_of};
ghost use Rattle.reno_sender.specs.Sending.{fill_count, filling};

use crate::fields::SenderFields;
use crate::plan::Plan;
use crate::sending::after_run;
use sim_time::Time;

/// How many whole segments from `nxt` on end within both windows and the flow.
fn segments_to_fill(fields: &SenderFields) -> u64
    requires { IsSound fields.now }
    ensures { result ≡ fill_count fields.now }
{
    let window_end = fields.una + fields.cwnd.min(fields.rwnd);
    let end = window_end.min(fields.segments * fields.mss);
    end.saturating_sub(fields.nxt) / fields.mss
}

/// Sends all that the windows and the flow allow.
pub(crate) fn fill(fields: &SenderFields, now: Time) -> Plan
    requires sound { IsSound fields.now }
    requires moment { IsMoment now }
    ensures { planned_of result ≡ filling fields.now now }
{
    let count = segments_to_fill(fields);
    let first = fields.nxt;
    Plan::of(after_run(fields, count, now), None, first, count)
}
