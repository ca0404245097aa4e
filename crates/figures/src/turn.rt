//! Why a sender acts, and what it sends then.
ghost use Rattle.std.specs.Prelude.{◌≡◌, ◌+◌, ◌-◌, ◌/◌, ◌≤◌, count_by, length, nat_lt};
ghost use Rattle.reno_sender.specs.Fields.{IsSound, IsMultiple};
ghost use Rattle.reno_sender.specs.Sending.{spaced};
ghost use Rattle.figures.specs.Turns.{kept_of as kept_is, sent_as, sent_between, IsOfSegments};

use reno_sender::{SenderFields, Timing};
use sim_time::Time;

/// Why a sender acts.
#[derive(Clone, Copy)]
pub enum Cause {
    /// Its flow starts.
    Starts,
    /// An acknowledgement has come, up to but not with this byte.
    Acknowledged(u64),
    /// Its retransmission timer ends.
    TimesOut,
}

/// What is kept of a sender from before it acts: what tells afterwards what it has sent and timed.
#[derive(Clone, Copy)]
pub struct KeptSender {
    /// The first byte that is not acknowledged yet.
    pub una: u64,
    /// The next byte to send.
    pub nxt: u64,
    /// The greatest `nxt` so far.
    pub high: u64,
    /// The segment that is timed, if one is.
    pub timing: Option<Timing>,
    /// Whether the sender is in fast recovery (RFC 5681 section 3.2).
    pub recovery: bool,
}

/// What is kept of a sender's fields.
#[inline(always)]
pub fn kept_of(fields: &SenderFields) -> KeptSender
    ensures { result ≡ kept_is fields.now }
{
    KeptSender {
        una: fields.una,
        nxt: fields.nxt,
        high: fields.high,
        timing: fields.timing,
        recovery: fields.recovery,
    }
}

/// How many segments are sent, and how many of them again.
#[derive(Clone, Copy)]
pub struct Sent {
    /// All of them.
    pub segments: u64,
    /// Those below the greatest byte sent before.
    pub again: u64,
}

// How many segments there are in so many bytes: most often one, and then no division is made.
#[inline(always)]
fn segments_in(bytes: u64, mss: u64) -> u64
    requires { 1 ≤ mss }
    ensures { result ≡ bytes / mss }
{
    if bytes == mss { 1 } else { bytes / mss }
}

// How many segments of a run from `first` up to `end` are below `high`: most often none, and then no
// division is made.
#[inline(always)]
fn again_in(first: u64, end: u64, high: u64, mss: u64) -> u64
    requires mss { 1 ≤ mss }
    requires first { IsMultiple mss first }
    requires end { IsMultiple mss end }
    requires high { IsMultiple mss high }
    ensures { result ≡ count_by (λ x. nat_lt x high) (spaced first mss ((end - first) / mss)) }
{
    if high <= first {
        return 0;
    }
    end.min(high).saturating_sub(first) / mss
}

// A run of segments from `first` up to `end`, of which those below `high` are sent again.
#[inline(always)]
fn sent_in_run(first: u64, end: u64, high: u64, mss: u64) -> Sent
    requires mss { 1 ≤ mss }
    requires first { IsMultiple mss first }
    requires end { IsMultiple mss end }
    requires high { IsMultiple mss high }
    ensures segments { result.segments ≡ length (spaced first mss ((end - first) / mss)) }
    ensures again { result.again ≡ count_by (λ x. nat_lt x high) (spaced first mss ((end - first) / mss)) }
    ensures most { result.segments ≤ end }
{
    if end <= first {
        return Sent {
            segments: 0,
            again: 0,
        };
    }
    Sent {
        segments: segments_in(end - first, mss),
        again: again_in(first, end, high, mss),
    }
}

// What was sent where a sender of which `old` was kept has acted on an acknowledgement, and keeps `new`.
#[inline(always)]
fn sent_on_ack(old: &KeptSender, new: &SenderFields) -> Sent
    requires old { IsOfSegments old.now new.now.mss }
    requires new { IsSound new.now }
    ensures segments { result.segments ≡ length (sent_between old.now new.now) }
    ensures again { result.again ≡ count_by (λ x. nat_lt x old.now.high) (sent_between old.now new.now) }
    ensures most { result.segments ≤ new.now.nxt + 1 }
{
    let first = old.nxt.max(new.una);
    let run = sent_in_run(first, new.nxt, old.high, new.mss);
    if new.recovery && (!old.recovery || old.una < new.una) {
        Sent {
            segments: run.segments + 1,
            again: run.again + u64::from(new.una < old.high),
        }
    } else {
        run
    }
}

/// What was sent where a sender of which `old` was kept has acted, and keeps `new`.
#[inline(always)]
pub fn sent_by(old: &KeptSender, new: &SenderFields, cause: Cause) -> Sent
    requires old { IsOfSegments old.now new.now.mss }
    requires new { IsSound new.now }
    ensures segments { result.segments ≡ length (sent_as old.now new.now cause) }
    ensures again { result.again ≡ count_by (λ x. nat_lt x old.now.high) (sent_as old.now new.now cause) }
{
    match cause {
        Cause::Starts => sent_in_run(old.nxt, new.nxt, old.high, new.mss),
        Cause::Acknowledged(_) => sent_on_ack(old, new),
        Cause::TimesOut => Sent {
            segments: 1,
            again: u64::from(old.una < old.high),
        },
    }
}
