//! The facts that hold of a sender's fields in every reachable state, as tests.
ghost use Rattle.std.specs.Prelude.{◌≡◌, ◌≤◌, ◌<◌, ◌-◌, ◌*◌, ◌⊎◌, ◌↔◌, IsTrue, IsFalse, Some, None, IsSome, IfSome, IsSomeAnd};
ghost use Rattle.reno_sender.specs.Fields.{IsSound, IsMultiple, IsTimedWithin, total, flight_size};

use crate::congestion_control::MOST_CWND;
use crate::fields::SenderFields;
use crate::loss_recovery::is_newreno;
use crate::timer::{GREATEST_RTO, LEAST_RTO};

/// The latest time that a sender keeps, in nanoseconds.
const LATEST: u64 = 2_000_000_000_000_000;

/// The ranges of the flow.
fn sizes_are_sound(fields: &SenderFields) -> bool
    ensures { IsTrue result
        ↔ ((1 ≤ fields.now.mss)
        × (fields.now.mss ≤ 9000)
        × (1 ≤ fields.now.segments)
        × (fields.now.segments ≤ 1000000000)
        × (fields.now.mss ≤ fields.now.rwnd)
        × (fields.now.rwnd ≤ 1073741824)) }
{
    1 <= fields.mss
        && fields.mss <= 9_000
        && 1 <= fields.segments
        && fields.segments <= 1_000_000_000
        && fields.mss <= fields.rwnd
        && fields.rwnd <= 1_073_741_824
}

/// The order of the byte numbers.
fn numbers_are_ordered(fields: &SenderFields) -> bool
    requires mss { fields.now.mss ≤ 9000 }
    requires segments { fields.now.segments ≤ 1000000000 }
    ensures { IsTrue result
        ↔ ((fields.now.una ≤ fields.now.nxt)
        × (fields.now.nxt ≤ fields.now.high)
        × (fields.now.high ≤ total fields.now)
        × (flight_size fields.now ≤ fields.now.rwnd)
        × (fields.now.lt ≤ flight_size fields.now)) }
{
    fields.una <= fields.nxt
        && fields.nxt <= fields.high
        && fields.high <= fields.segments * fields.mss
        && fields.nxt - fields.una <= fields.rwnd
        && fields.lt <= fields.nxt - fields.una
}

/// Whole segments.
fn numbers_are_whole(fields: &SenderFields) -> bool
    requires { 1 ≤ fields.now.mss }
    ensures { IsTrue result
        ↔ (IsMultiple fields.now.mss fields.now.una
        × IsMultiple fields.now.mss fields.now.nxt
        × IsMultiple fields.now.mss fields.now.high) }
{
    fields.una % fields.mss == 0 && fields.nxt % fields.mss == 0 && fields.high % fields.mss == 0
}

/// The windows.
fn windows_are_sound(fields: &SenderFields) -> bool
    ensures { IsTrue result
        ↔ ((fields.now.mss ≤ fields.now.cwnd)
        × (fields.now.cwnd ≤ 1099511627776)
        × (fields.now.mss ≤ fields.now.ssthresh)
        × (fields.now.ssthresh ≤ 1099511627776)) }
{
    fields.mss <= fields.cwnd
        && fields.cwnd <= MOST_CWND
        && fields.mss <= fields.ssthresh
        && fields.ssthresh <= MOST_CWND
}

/// Reno's recovery is from the third duplicate on, and it keeps nothing of NewReno's.
fn reno_is_sound(fields: &SenderFields) -> bool
    ensures { IsTrue result
        ↔ ((IsTrue fields.now.recovery ↔ (3 ≤ fields.now.dups))
        × (fields.now.recover ≡ None)
        × IsFalse fields.now.partial) }
{
    fields.recovery == (fields.dups >= 3) && fields.recover.is_none() && !fields.partial
}

/// NewReno's recovery begins at a third duplicate at the earliest, with `recover` above `una`; `nxt` is behind
/// `high` only after a timeout, which made `high` the value of `recover`.
fn newreno_is_sound(fields: &SenderFields) -> bool
    ensures { IsTrue result
        ↔ ((IsTrue fields.now.recovery → 3 ≤ fields.now.dups)
        × IfSome fields.now.recover (λ r. r ≤ fields.now.high)
        × ((fields.now.nxt ≡ fields.now.high) ⊎ (fields.now.recover ≡ Some fields.now.high))
        × (IsTrue fields.now.recovery → IsSomeAnd fields.now.recover (λ r. fields.now.una < r) × (fields.now.nxt ≡ fields.now.high))) }
{
    let all_sent = fields.nxt == fields.high;
    match fields.recover {
        Some(recover) => {
            recover <= fields.high
                && (all_sent || recover == fields.high)
                && (!fields.recovery || fields.dups >= 3 && fields.una < recover && all_sent)
        }
        None => all_sent && !fields.recovery,
    }
}

/// The timer runs while something is in flight.
fn deadline_is_sound(fields: &SenderFields) -> bool
    ensures { IsTrue result
        ↔ ((1000000000 ≤ fields.now.rto)
        × (fields.now.rto ≤ 60000000000)
        × (IsSome fields.now.deadline ↔ (fields.now.una < fields.now.nxt))
        × IfSome fields.now.deadline (λ t. t ≤ 2000000000000000)) }
{
    let deadline_fits = match fields.deadline {
        Some(deadline) => fields.una < fields.nxt && deadline <= LATEST,
        None => fields.una >= fields.nxt,
    };
    LEAST_RTO <= fields.rto && fields.rto <= GREATEST_RTO && deadline_fits
}

/// What is timed and what was measured.
fn times_are_sound(fields: &SenderFields) -> bool
    ensures { IsTrue result
        ↔ (IfSome fields.now.timing (IsTimedWithin fields.now.una fields.now.high)
        × IfSome fields.now.srtt (λ s. s ≤ 2000000000000000)
        × (fields.now.rttvar ≤ 2000000000000000)) }
{
    let timing_fits = match fields.timing {
        Some(timing) => {
            fields.una < timing.number && timing.number <= fields.high && timing.sent_at <= LATEST
        }
        None => true,
    };
    let srtt_fits = match fields.srtt {
        Some(srtt) => srtt <= LATEST,
        None => true,
    };
    timing_fits && srtt_fits && fields.rttvar <= LATEST
}

/// Whether all facts hold.
pub(crate) fn is_sound(fields: &SenderFields) -> bool
    ensures { IsTrue result ↔ IsSound fields.now }
{
    sizes_are_sound(fields)
        && numbers_are_ordered(fields)
        && numbers_are_whole(fields)
        && windows_are_sound(fields)
        && (if is_newreno(fields) {
            newreno_is_sound(fields)
        } else {
            reno_is_sound(fields)
        })
        && deadline_is_sound(fields)
        && times_are_sound(fields)
}
