//! What is counted of a sender.
ghost use Rattle.std.specs.Prelude.{◌≡◌, ◌+◌, ◌*◌, ◌<◌, ◌≤◌, ◌^◌, ◌++◌, ◌∷◌, [], ℕ, List, Option, Some, None, IfSome, if◌then◌else◌, option_to_list};
ghost use Rattle.figures.specs.Classes.{least_from};
ghost use Rattle.std.specs.Option.{option_or};
ghost use Rattle.figures.specs.Turns.{trip_of as trip_is, sample_by as sample_is, recovers as recovers_is, is_timeout as timeout_is, is_complete as complete_is};
ghost use Rattle.reno_sender.specs.Fields.{IsSound};

use crate::tally::Tally;
use crate::turn::{Cause, KeptSender, kept_of, sent_by};
use reno_sender::{Sender, SenderFields, Timing};
use sim_time::Time;
use std::alloc::Global;

/// What is counted of a sender. Its fields lie in memory as here: first what each acknowledgement reads or writes.
#[derive(Drop)]
pub struct SenderFigures {
    /// The segments that it has sent, new or again.
    pub sent: u128,
    /// What is kept of it from before it acts next.
    pub kept: KeptSender,
    /// How often it has acted.
    pub turns: u64,
    /// The least sample of the round trip, in nanoseconds; 2^64 - 1 where there was none.
    pub least: u64,
    /// The samples of the round trip, in nanoseconds (RFC 6298 section 3).
    pub trips: Tally,
    /// How often its retransmission timer ended.
    pub timeouts: u64,
    /// When all bytes of its flow were acknowledged; none before.
    pub completed: Option<Time>,
    /// The segments that it has sent again in recovery: by fast retransmit (RFC 5681 section 3.2).
    pub again_in_recovery: u128,
    /// The others that it has sent again: by timeout.
    pub again_otherwise: u128,
    ghost sent_most: { sent ≤ turns * 2 ^ 64 },
    ghost recovery_most: { again_in_recovery ≤ turns * 2 ^ 64 },
    ghost otherwise_most: { again_otherwise ≤ turns * 2 ^ 64 },
    ghost timeouts_most: { timeouts ≤ turns },
    ghost trips_most: { trips.count ≤ turns },
}

// The sample that an acknowledgement gives, where it gives one.
fn trip_of(timing: Option<Timing>, ack: u64, now: Time) -> Option<u64>
    ensures value { result ≡ trip_is timing ack now }
    ensures most { IfSome result (λ trip. trip ≤ now) }
{
    match timing {
        Some(timing) if timing.number <= ack => Some(now.saturating_sub(timing.sent_at)),
        _ => None,
    }
}

// The sample that a sender takes where it acts.
fn sample_by(timing: Option<Timing>, cause: Cause, now: Time) -> Option<u64>
    ensures value { result ≡ sample_is timing cause now }
    ensures most { IfSome result (λ trip. trip ≤ now) }
{
    match cause {
        Cause::Acknowledged(ack) => trip_of(timing, ack, now),
        Cause::Starts | Cause::TimesOut => None,
    }
}

// Whether a sender acts on an acknowledgement, and is in recovery then.
fn recovers(new: &SenderFields, cause: Cause) -> bool
    ensures { result ≡ recovers_is cause new.now }
{
    match cause {
        Cause::Acknowledged(_) => new.recovery,
        Cause::Starts | Cause::TimesOut => false,
    }
}

// What is sent again, in recovery or otherwise. That is seldom anything.
#[inline(always)]
fn note_again(recovery: &mut u128, otherwise: &mut u128, again: u64, recovers: bool)
    requires recovery { recovery.old < 2 ^ 126 }
    requires otherwise { otherwise.old < 2 ^ 126 }
    ensures recovery { recovery.new ≡ recovery.old + (if recovers then again else 0) }
    ensures otherwise { otherwise.new ≡ otherwise.old + (if recovers then 0 else again) }
{
    if again == 0 {
        return;
    }
    if recovers {
        *recovery += u128::from(again);
    } else {
        *otherwise += u128::from(again);
    }
}

// The least so far, with one more value, if there is one. It is seldom another.
#[inline(always)]
fn lower(least: &mut u64, value: Option<u64>)
    ensures { least.new ≡ least_from least.old (option_to_list value) }
{
    if let Some(value) = value {
        if value < *least {
            *least = value;
        }
    }
}

// One where a sender acts as its timer ends, else none.
fn timeouts_in(cause: Cause) -> u64
    ensures value { result ≡ (if timeout_is cause then 1 else 0) }
    ensures most { result ≤ 1 }
{
    match cause {
        Cause::TimesOut => 1,
        Cause::Acknowledged(_) | Cause::Starts => 0,
    }
}

// When all bytes of the flow were acknowledged, once they are. That is seldom told anew.
#[inline(always)]
fn note_complete(completed: &mut Option<Time>, complete: bool, now: Time)
    ensures { completed.new ≡ option_or completed.old (if complete then Some now else None) }
{
    if complete && completed.is_none() {
        *completed = Some(now);
    }
}

// Whether all bytes of the flow are acknowledged.
fn is_complete(new: &SenderFields) -> bool
    requires { IsSound new.now }
    ensures { result ≡ complete_is new.now }
{
    new.una == new.segments * new.mss
}

impl SenderFigures {
    ghost use Rattle.sim_time.specs.Moment.{IsMoment};
    ghost use Rattle.reno_sender.specs.declared.fields.SenderFields.{SenderFields};
    ghost use Rattle.figures.specs.Turns.{Turn, Keeps, HasActedFrom, planned_by};
    ghost use Rattle.figures.specs.Classes.{least_of};
    ghost use Rattle.figures.specs.Senders.{AreOfTurns, completed_of, trips_of};

    /// Nothing is counted yet of a sender that keeps these fields, behind turns by which all bytes of its
    /// flow were acknowledged at a moment, or not yet.
    pub fn new(alloc: Global, kept: &Sender, completed: Option<Time>) -> SenderFigures
        ensures figures { (before : List Turn) → completed ≡ completed_of before → AreOfTurns before [] result }
        ensures kept { Keeps result.kept kept.now }
        ensures turns { result.turns ≡ 0 }
    {
        SenderFigures {
            kept: kept_of(kept.as_fields()),
            completed,
            sent: 0,
            again_in_recovery: 0,
            again_otherwise: 0,
            timeouts: 0,
            trips: Tally::new(alloc),
            least: u64::MAX,
            turns: 0,
        }
    }

    /// The sender has acted, and keeps `new` from then on.
    #[inline(always)]
    pub fn turn(&mut self, new: &Sender, cause: Cause, now: Time)
        requires few { self.old.turns < 2 ^ 60 }
        requires moment { IsMoment now }
        requires acted { HasActedFrom self.old.kept cause now new.now }
        ensures figures { (before ts : List Turn) (f : SenderFields) → Keeps self.old.kept f → new.now ≡ (planned_by f cause now).fields → AreOfTurns before ts self.old → AreOfTurns before (ts ++ record { old = f; cause = cause; now = now } ∷ []) self.new }
        ensures kept { Keeps self.new.kept new.now }
        ensures turns { self.new.turns ≡ self.old.turns + 1 }
    {
        // Nearly all that it acts on is acknowledgements.
        match cause {
            Cause::Acknowledged(_) => self.act(new, cause, now),
            Cause::Starts | Cause::TimesOut => self.act_rarely(new, cause, now),
        }
    }

    // The same for a cause that is rare.
    #[cold]
    #[inline(never)]
    fn act_rarely(&mut self, new: &Sender, cause: Cause, now: Time)
        requires few { self.old.turns < 2 ^ 60 }
        requires moment { IsMoment now }
        requires acted { HasActedFrom self.old.kept cause now new.now }
        ensures figures { (before ts : List Turn) (f : SenderFields) → Keeps self.old.kept f → new.now ≡ (planned_by f cause now).fields → AreOfTurns before ts self.old → AreOfTurns before (ts ++ record { old = f; cause = cause; now = now } ∷ []) self.new }
        ensures kept { Keeps self.new.kept new.now }
        ensures turns { self.new.turns ≡ self.old.turns + 1 }
    {
        self.act(new, cause, now);
    }

    /// The least sample of the round trip, where there is one.
    pub fn least_trip(&self) -> Option<u64>
        ensures { (before ts : List Turn) → AreOfTurns before ts self.now → result ≡ least_of (trips_of ts) }
    {
        if self.trips.count == 0 {
            None
        } else {
            Some(self.least)
        }
    }

    // The same for any cause.
    #[inline(always)]
    fn act(&mut self, new: &Sender, cause: Cause, now: Time)
        requires few { self.old.turns < 2 ^ 60 }
        requires moment { IsMoment now }
        requires acted { HasActedFrom self.old.kept cause now new.now }
        ensures figures { (before ts : List Turn) (f : SenderFields) → Keeps self.old.kept f → new.now ≡ (planned_by f cause now).fields → AreOfTurns before ts self.old → AreOfTurns before (ts ++ record { old = f; cause = cause; now = now } ∷ []) self.new }
        ensures kept { Keeps self.new.kept new.now }
        ensures turns { self.new.turns ≡ self.old.turns + 1 }
    {
        let fields = new.as_fields();
        let sent = sent_by(&self.kept, fields, cause);
        let trip = sample_by(self.kept.timing, cause, now);
        self.turns += 1;
        self.trips.note_some(trip);
        lower(&mut self.least, trip);
        self.sent += u128::from(sent.segments);
        note_again(
            &mut self.again_in_recovery,
            &mut self.again_otherwise,
            sent.again,
            recovers(fields, cause),
        );
        self.timeouts += timeouts_in(cause);
        note_complete(&mut self.completed, is_complete(fields), now);
        self.kept = kept_of(fields);
    }
}
