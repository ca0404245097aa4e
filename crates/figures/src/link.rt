//! What is counted of a link.
ghost use Rattle.std.specs.Prelude.{◌≡◌, ◌≢◌, ◌+◌, ◌-◌, ◌*◌, ◌<◌, ◌≤◌, ◌^◌, [], List, false, length, max, Some, None, if◌then◌else◌};
ghost use Rattle.sim_time.specs.declared.limits.TheConstants.{MOST_EVENTS};

use crate::reported::{count_drops, frees, is_at, reported_by, sent_alone, wait_by};
use crate::tally::Tally;
use crate::waits::{next_entry, note_entry, waiting_at};
use aqm::REASONS;
use node_core::{Act, Line};
use port::Port;
use sim_time::Time;
use std::alloc::Global;

/// What is counted of a link. Its fields lie in memory as here: `offered`, which is written where packets are offered,
/// then what each event writes, then what is written where a packet is sent, and at the end what few events write. What
/// one event writes lies in 80 bytes.
#[derive(Drop)]
pub struct LinkFigures {
    /// How many packets were offered to it.
    pub offered: u128,
    /// How many packets waited, times for how many nanoseconds, up to when that was read last, behind `waited_before`.
    pub waited: u64,
    /// For how many nanoseconds it was busy, up to then.
    pub busy_for: u64,
    /// When these were read last, in nanoseconds.
    pub since: Time,
    /// When the packet entered its queue, in nanoseconds, that it is given once it is free, if it is given one.
    pub next_entry: Time,
    /// The bytes of the packets that began to be sent.
    pub bytes: u64,
    /// How many packets wait at it.
    pub waiting: u16,
    /// The longest queue so far, in packets.
    pub longest: u16,
    /// Whether it is busy.
    pub busy: bool,
    /// For how long each packet waited that began to be sent, in nanoseconds: 0 where it was sent
    /// as it was offered.
    pub waits: Tally,
    /// How many packets waited, times for how long, before the rest would have passed 2^64.
    pub waited_before: u128,
    /// How many packets were offered to it before it was counted.
    pub first: u128,
    /// How many packets were dropped, by the place of the reason among all.
    pub dropped: [u128; REASONS],
    ghost waited_most: { waited_before + waited ≤ since * 2 ^ 64 },
    ghost busy_most: { busy_for ≤ since },
}

// For how long a link was busy of so many nanoseconds: for all of them, or not at all.
fn busy_for(busy: bool, passed: Time) -> Time
    ensures value { result ≡ (if busy then passed else 0) }
    ensures most { result ≤ passed }
{
    if busy { passed } else { 0 }
}

// The longest queue so far, where one more is seen. It is seldom another.
#[inline(always)]
fn note_longest(longest: &mut u16, waiting: u16)
    ensures { longest.new ≡ max longest.old waiting }
{
    if waiting > *longest {
        *longest = waiting;
    }
}

// So many packets, times so many nanoseconds.
fn area(waiting: u16, passed: Time) -> u128
    ensures value { result ≡ waiting * passed }
    ensures most { result ≤ passed * 2 ^ 64 }
{
    u128::from(waiting) * u128::from(passed)
}

// For how many nanoseconds a link was busy, with so many more in which it was or was not.
#[inline(always)]
fn note_busy(busy_for: &mut u64, busy: bool, passed: Time)
    requires { busy_for.old + passed < 2 ^ 63 }
    ensures value { busy_for.new ≡ busy_for.old + (if busy then passed else 0) }
    ensures most { busy_for.new ≤ busy_for.old + passed }
{
    if busy {
        *busy_for += passed;
    }
}

// How many packets waited, times for how many nanoseconds, with so many more for so many more. Most often
// none waits.
#[inline(always)]
fn note_waiting(waited: &mut u64, before: &mut u128, waiting: u16, passed: Time)
    requires { before.old + waited.old + passed * 2 ^ 64 < 2 ^ 127 }
    ensures value { before.new + waited.new ≡ before.old + waited.old + waiting * passed }
    ensures most { before.new + waited.new ≤ before.old + waited.old + passed * 2 ^ 64 }
{
    if waiting != 0 {
        let sum = u128::from(*waited) + area(waiting, passed);
        match u64::try_from(sum) {
            Ok(sum) => *waited = sum,
            Err(_) => {
                *before += sum;
                *waited = 0;
            }
        }
    }
}

impl LinkFigures {
    ghost use Rattle.sim_time.specs.Moment.{IsMoment};
    ghost use Rattle.node_core.specs.TraceLine.{shown};
    ghost use Rattle.port.specs.declared.acts.Act.{Act};
    ghost use Rattle.figures.specs.Classes.{class_of};
    ghost use Rattle.figures.specs.Links.{acts_between, is_free, tx_in, waited_so_far, IsSentAlone, IsFew, IsCountedOf, IsPassed, IsLinkCounted, IsLinkBegun, IsLinkAfter};

    /// Nothing is counted yet of a link, which is from a moment on.
    pub fn new(alloc: Global, port: &Port, since: Time) -> LinkFigures
        ensures { IsLinkBegun since port.now result }
    {
        LinkFigures {
            offered: port.offered(),
            waited: 0,
            busy_for: 0,
            since,
            next_entry: next_entry(port),
            bytes: 0,
            waiting: waiting_at(port),
            longest: waiting_at(port),
            busy: port.next_free().is_some(),
            waits: Tally::new(alloc),
            waited_before: 0,
            first: port.offered(),
            dropped: [0; REASONS],
        }
    }

    // One more event was run at its node, with these acts at it; answers how many packets began to be sent.
    fn count(&mut self, acts: &[Act]) -> u64
        requires few { IsFew MOST_EVENTS self.old }
        requires one { tx_in acts.now ≤ 1 }
        ensures sent { result ≡ tx_in acts.now }
        ensures counted { IsCountedOf self.old acts.now self.new }
    {
        let reported = reported_by(acts);
        count_drops(&mut self.dropped, acts);
        self.bytes += reported.bytes as u64;
        reported.sent
    }

    // One more event was run at its node, of which the line tells.
    fn count_at(&mut self, port: &Port, line: &Line) -> u64
        requires few { IsFew MOST_EVENTS self.old }
        requires one { tx_in (acts_between self.old.offered port.now (shown line.now)) ≤ 1 }
        ensures sent { result ≡ tx_in (acts_between self.old.offered port.now (shown line.now)) }
        ensures counted { IsCountedOf self.old (acts_between self.old.offered port.now (shown line.now)) self.new }
    {
        if is_at(self.offered, port, line) {
            self.count(line.acts.as_slice())
        } else {
            self.count(&[])
        }
    }

    // A moment has come, and it is `port` now, to which as many packets were offered.
    #[inline(always)]
    fn pass(&mut self, port: &Port, now: Time)
        requires moment { IsMoment now }
        requires order { self.old.since ≤ now }
        requires offered { port.now.offered ≡ self.old.offered }
        ensures { IsPassed self.old port.now now self.new }
    {
        let passed = now - self.since;
        self.since = now;
        note_waiting(
            &mut self.waited,
            &mut self.waited_before,
            self.waiting,
            passed,
        );
        note_busy(&mut self.busy_for, self.busy, passed);
        self.waiting = waiting_at(port);
        self.busy = port.next_free().is_some();
        note_longest(&mut self.longest, self.waiting);
        note_entry(&mut self.next_entry, port);
    }

    // One more event was run at its node at a moment, which sent and dropped nothing at it, and it is `port` now.
    #[inline(always)]
    fn count_none(&mut self, port: &Port, now: Time)
        requires moment { IsMoment now }
        requires order { self.old.since ≤ now }
        ensures { IsLinkCounted self.old port.now now [] None self.new }
    {
        self.offered = port.offered();
        self.pass(port, now);
    }

    // The same of an event at which a packet of so many bytes began to be sent from the queue, which is all that it did
    // at it.
    #[inline(always)]
    fn count_sent(&mut self, port: &Port, now: Time, bytes: u64, wait: Time)
        requires few { IsFew MOST_EVENTS self.old }
        requires moment { IsMoment now }
        requires order { self.old.since ≤ now }
        requires offered { port.now.offered ≡ self.old.offered }
        requires bytes { bytes ≤ 9040 }
        requires wait { wait < 2 ^ 50 }
        requires known { class_of wait < length self.old.waits.counts.items }
        ensures { (acts : List Act) → IsSentAlone acts bytes → IsLinkCounted self.old port.now now acts (Some wait) self.new }
    {
        self.bytes += bytes;
        self.waits.note_known(wait);
        self.pass(port, now);
    }

    // The same, where the packet is sent as it was offered.
    #[inline(always)]
    fn count_at_once(&mut self, port: &Port, now: Time, bytes: u64)
        requires few { IsFew MOST_EVENTS self.old }
        requires moment { IsMoment now }
        requires order { self.old.since ≤ now }
        requires bytes { bytes ≤ 9040 }
        ensures { (acts : List Act) → IsSentAlone acts bytes → IsLinkCounted self.old port.now now acts (Some 0) self.new }
    {
        self.bytes += bytes;
        self.waits.note_zero();
        self.offered = port.offered();
        self.pass(port, now);
    }

    /// An event was run at its node, of which the line tells, and it is `port` now.
    #[cold]
    #[inline(never)]
    pub fn after(&mut self, port: &Port, line: &Line)
        requires few { IsFew MOST_EVENTS self.old }
        requires moment { IsMoment line.now.key.time }
        requires order { self.old.since ≤ line.now.key.time }
        requires one { tx_in (acts_between self.old.offered port.now (shown line.now)) ≤ 1 }
        ensures { IsLinkAfter self.old port.now (shown line.now) self.new }
    {
        let sent = self.count_at(port, line);
        let wait = wait_by(port, line, sent, self.next_entry);
        self.waits.note_some(wait);
        self.offered = port.offered();
        self.pass(port, line.key.time);
    }

    /// The same where the event most likely frees this link. Rarely more happens then than that a packet
    /// begins to be sent.
    #[inline(never)]
    pub fn after_free(&mut self, port: &Port, line: &Line)
        requires few { IsFew MOST_EVENTS self.old }
        requires moment { IsMoment line.now.key.time }
        requires order { self.old.since ≤ line.now.key.time }
        requires offered { port.now.offered ≡ self.old.offered }
        requires one { tx_in (acts_between self.old.offered port.now (shown line.now)) ≤ 1 }
        ensures { IsLinkAfter self.old port.now (shown line.now) self.new }
    {
        if frees(&line.event, port.link()) {
            let acts = line.acts.as_slice();
            if acts.is_empty() {
                self.count_none(port, line.key.time);
                return;
            }
            if let Some(bytes) = sent_alone(acts) {
                let wait = line.key.time.saturating_sub(self.next_entry);
                if self.waits.has_count(wait) {
                    self.count_sent(port, line.key.time, bytes, wait);
                    return;
                }
            }
        }
        self.after(port, line);
    }

    /// The same where the event frees no link and has offered packets to this one.
    #[inline(never)]
    pub fn after_offers(&mut self, port: &Port, line: &Line)
        requires few { IsFew MOST_EVENTS self.old }
        requires moment { IsMoment line.now.key.time }
        requires order { self.old.since ≤ line.now.key.time }
        requires other { is_free line.now.event ≡ false }
        requires more { port.now.offered ≢ self.old.offered }
        requires one { tx_in (acts_between self.old.offered port.now (shown line.now)) ≤ 1 }
        ensures { IsLinkAfter self.old port.now (shown line.now) self.new }
    {
        let acts = line.acts.as_slice();
        if acts.is_empty() {
            self.count_none(port, line.key.time);
            return;
        }
        if let Some(bytes) = sent_alone(acts) {
            self.count_at_once(port, line.key.time, bytes);
            return;
        }
        self.after(port, line);
    }

    /// How many packets waited, times for how many nanoseconds, up to a moment.
    pub fn waited_by(&self, end: Time) -> u128
        requires moment { IsMoment end }
        requires order { self.now.since ≤ end }
        ensures { result ≡ waited_so_far self.now + self.now.waiting * (end - self.now.since) }
    {
        self.waited_before + u128::from(self.waited) + area(self.waiting, end - self.since)
    }

    /// For how many nanoseconds it was busy, up to a moment.
    pub fn busy_by(&self, end: Time) -> u128
        requires moment { IsMoment end }
        requires order { self.now.since ≤ end }
        ensures { result ≡ self.now.busy_for + (if self.now.busy then end - self.now.since else 0) }
    {
        u128::from(self.busy_for + busy_for(self.busy, end - self.since))
    }
}
