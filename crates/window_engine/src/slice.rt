//! How much of the simulated time a window may span at most, and what its size goes by.
ghost use Rattle.std.specs.Prelude.{◌≤◌};

use sim_time::Time;

/// The first slice, in nanoseconds.
pub const FIRST_SLICE: Time = 1_000_000;

/// How many events a window is to have that one thread runs: their lines stay in the near cache.
const NARROW: u64 = 1_024;

/// How many events a window of one group is to have beside which another thread makes the text of the one before: enough
/// that it is seldom waited for, and few enough that their lines stay in the cache that both threads share.
const BESIDE_TEXT: u64 = 4_096;

/// How many events a window is to have that threads share.
const WIDE: u64 = 16_384;

/// Threads share a window where its busiest group leaves them at least one event of so many.
const SHARE: usize = 8;

/// The least part of a window's time, one of so many, in which its events are taken to be.
const DENSEST: Time = 64;

/// How many events a window is to have that so many workers run, after one of so many, of which so many were beside
/// those of its busiest group.
fn aim(workers: usize, events: usize, shared: usize) -> u64 {
    if workers == 1 || shared < events / SHARE {
        NARROW
    } else {
        WIDE
    }
}

/// The slice after a window, in nanoseconds, in which there are to be so many events, at the rate of the window's. The
/// window took so many nanoseconds, and nearly all of its events were in so many of these. Beyond some days the slice may
/// be shorter; it is at most twice as long.
fn slice_of(wanted: u64, span: Time, busy: Time, events: usize) -> Time
    ensures { 1 ≤ result }
{
    let busy = busy.max(span / DENSEST);
    let fitting = busy.saturating_mul(wanted) / (events as u64).max(1);
    fitting.min(span.saturating_mul(2)).max(1)
}

/// The slice after a window, by so many workers, where so many of its events were beside those of its busiest group.
pub fn next_slice(span: Time, busy: Time, events: usize, shared: usize, workers: usize) -> Time
    ensures { 1 ≤ result }
{
    slice_of(aim(workers, events, shared), span, busy, events)
}

/// The slice after a window of one group, by several workers.
pub(crate) fn slice_beside_text(span: Time, busy: Time, events: usize) -> Time
    ensures { 1 ≤ result }
{
    slice_of(BESIDE_TEXT, span, busy, events)
}
