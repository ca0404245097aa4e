//! How Reno's congestion window grows, and NewReno's: slow start and congestion avoidance (RFC 5681 section 3.1).
ghost use Rattle.std.specs.Prelude.{◌≡◌};
ghost use Rattle.reno_sender.specs.Fields.{IsSound};
ghost use Rattle.reno_sender.specs.RenoGrowth.{grown_by_reno};

use super::enlarged;
use crate::fields::SenderFields;

/// The congestion window where so many bytes are newly acknowledged, outside recovery.
#[inline(always)]
pub(super) fn grown(fields: &SenderFields, bytes: u64) -> u64
    requires { IsSound fields.now }
    ensures { result ≡ grown_by_reno fields.now bytes }
{
    if fields.cwnd < fields.ssthresh {
        enlarged(fields.cwnd, bytes.min(fields.mss))
    } else {
        enlarged(fields.cwnd, (fields.mss * fields.mss / fields.cwnd).max(1))
    }
}
