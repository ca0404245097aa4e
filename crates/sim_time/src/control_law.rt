//! How far apart CoDel's drops are (RFC 8289 section 5).
ghost use Rattle.std.specs.Prelude.{◌≡◌, ◌≤◌, ◌*◌, ◌^◌, ◌↔◌, IsTrue};
ghost use Rattle.sim_time.specs.ControlLaw.{gap_of, GapsShrink, IsGap};

use crate::Time;

/// One, in the parts in which inverse roots are counted: so small that at an interval of 10^10
/// a part is less than a nanosecond.
const ONE: u64 = 1 << 36;

/// So many turns of Newton's method lead from half an inverse root to its last part or two.
const TURNS: u32 = 6;

/// The time from one drop to the next when `count` have been dropped: interval / sqrt(count),
/// rounded down, in nanoseconds (RFC 8289 section 5, which leaves the rounding open).
pub fn gap(interval: Time, count: u32) -> Time
    requires least { 1 ≤ interval }
    requires most { interval ≤ 10000000000 }
    requires counted { 1 ≤ count }
    ensures value { result ≡ gap_of interval count }
    ensures greatest { IsGap interval count result }
    ensures fits { result ≤ interval }
{
    let mut gap = parts_of(interval, inverse_root(count));
    while fits(gap + 1, interval, count) {
        gap += 1;
    }
    gap
}

/// The more have been dropped, the closer the drops come.
pub fn gaps_shrink()
    ensures { GapsShrink }
{}

/// Whether `gap` is at most interval / sqrt(count).
fn fits(gap: Time, interval: Time, count: u32) -> bool
    requires gap_most { gap ≤ 2 ^ 34 }
    requires interval_most { interval ≤ 2 ^ 34 }
    ensures { IsTrue result ↔ (gap * gap * count ≤ interval * interval) }
{
    let (gap, interval, count) = (u128::from(gap), u128::from(interval), u128::from(count));
    gap * gap * count <= interval * interval
}

/// So many parts of one, of an interval, rounded down.
fn parts_of(interval: Time, parts: u64) -> Time
    requires interval_most { interval ≤ 2 ^ 34 }
    requires parts_most { parts ≤ ONE }
    ensures { result * ONE ≤ interval * parts }
{
    (u128::from(interval) * u128::from(parts) / u128::from(ONE)) as u64
}

/// 1 / sqrt(count) in parts of one, or a little less, by Newton's method, which divides by powers
/// of two alone.
fn inverse_root(count: u32) -> u64
    requires { 1 ≤ count }
    ensures below { result * result * count ≤ ONE * ONE }
    ensures most { result ≤ ONE }
{
    let mut root = ONE >> (count.ilog2() / 2 + 1);
    for _ in 0..TURNS {
        root = closer(root, count);
    }
    root
}

/// Newton's next number for an inverse root: from below it comes closer, and stays below.
fn closer(root: u64, count: u32) -> u64
    requires counted { 1 ≤ count }
    requires below { root * root * count ≤ ONE * ONE }
    requires most { root ≤ ONE }
    ensures below { result * result * count ≤ ONE * ONE }
    ensures most { result ≤ ONE }
{
    let (root, one) = (u128::from(root), u128::from(ONE));
    let square = root * root * u128::from(count);
    (root * (3 * one * one - square) / (2 * one * one)) as u64
}
