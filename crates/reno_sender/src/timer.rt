//! The retransmission timer's estimates (RFC 6298 sections 2 and 3).
ghost use Rattle.std.specs.Prelude.{◌≡◌, ◌≤◌, IfSome};
ghost use Rattle.reno_sender.specs.Fields.{IsSound};
ghost use Rattle.sim_time.specs.Moment.{IsMoment};
ghost use Rattle.reno_sender.specs.Laws.{IsAckFor};
ghost use Rattle.reno_sender.specs.Timer.{measured_by, sampled};

use crate::fields::SenderFields;
use sim_time::Time;

/// The least retransmission timeout, and the first: one second, in nanoseconds (RFC 6298 section 2).
pub const LEAST_RTO: u64 = 1_000_000_000;

/// The greatest retransmission timeout: sixty seconds, in nanoseconds (RFC 6298 section 2.5).
pub const GREATEST_RTO: u64 = 60_000_000_000;

/// What a round-trip time of `r` nanoseconds leaves: the smoothed time, its variation, and the
/// timeout. `srtt` is none before the first sample (RFC 6298 sections 2.2 and 2.3).
pub fn after_sample(srtt: Option<u64>, rttvar: u64, r: u64) -> (u64, u64, u64)
    requires srtt { IfSome srtt (λ s. s ≤ 2000000000000000) }
    requires rttvar { rttvar ≤ 2000000000000000 }
    requires r { r ≤ 2000000000000000 }
    ensures srtt { result.0 ≡ (sampled srtt rttvar r).srtt }
    ensures rttvar { result.1 ≡ (sampled srtt rttvar r).rttvar }
    ensures rto { result.2 ≡ (sampled srtt rttvar r).rto }
{
    let (smoothed, variation) = match srtt {
        None => (r, r / 2),
        Some(old) => ((7 * old + r) / 8, (3 * rttvar + old.abs_diff(r)) / 4),
    };
    let timeout = smoothed + (4 * variation).max(1);
    (smoothed, variation, timeout.clamp(LEAST_RTO, GREATEST_RTO))
}

/// An acknowledgement at or past the timed number gives a sample and ends the timing.
pub(crate) fn measure(fields: &mut SenderFields, ack: u64, now: Time)
    requires sound { IsSound fields.old }
    requires moment { IsMoment now }
    requires ack { IsAckFor fields.old ack now }
    ensures { fields.new ≡ measured_by fields.old.timing fields.old ack now }
{
    if let Some(timing) = fields.timing
        && timing.number <= ack
    {
        let (srtt, rttvar, rto) = after_sample(fields.srtt, fields.rttvar, now - timing.sent_at);
        fields.timing = None;
        fields.srtt = Some(srtt);
        fields.rttvar = rttvar;
        fields.rto = rto;
    }
}
