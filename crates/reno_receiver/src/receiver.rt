//! The receiver's rule: which segments have come, and when each is acknowledged.
ghost use Rattle.std.specs.Prelude.{◌≡◌, ℕ, ◌+◌, ◌*◌, ◌%◌, ◌<◌, ◌≤◌, IfOk, OnOk, OnErr, None};
ghost use Rattle.sim_time.specs.Moment.{IsMoment};
ghost use Rattle.reno_receiver.specs.declared.reply.Reply.TheVariants.{AckNow, Wait};
ghost use Rattle.reno_receiver.specs.Received.{initial_receiver, next_of, held_of, may_wait, gaining, data_came, timer_came, IsReceived, IsWellFormed};
ghost use Rattle.reno_receiver.specs.LeastMissing.{IsLeastMissing};

use crate::held::{Held, find, run_length};
use crate::reply::Reply;
use sim_time::Time;
use std::alloc::{AllocError, Global};
use std::marker::Model;

/// The receiver of a flow.
#[derive(Drop)]
pub struct Receiver {
    mss: u64,
    delack: Time,
    next: u64,
    held: Held,
    timer: Option<Time>,
}

impl Model for Receiver {
    ghost use Rattle.reno_receiver.specs.Received.{ReceiverState, receiver_code};

    ghost Value = { ReceiverState };

    ghost coded = { receiver_code };

    ghost use Rattle.reno_receiver.specs.Kept.{kept_state, IsKept};

    ghost view = { kept_state };

    ghost invariant = { IsKept };
}

impl Receiver {
    /// A receiver that has received nothing, for segments of so many bytes, which delays an
    /// answer by so many nanoseconds (0: it delays none).
    pub fn new(alloc: Global, mss: u64, delack: Time) -> Receiver
        requires mss_least { 1 ≤ mss }
        requires mss_greatest { mss ≤ 9000 }
        requires delack_greatest { delack ≤ 500000000 }
        ensures { result ≡ initial_receiver mss delack }
    {
        Receiver {
            mss,
            delack,
            next: 0,
            held: Held::new(alloc),
            timer: None,
        }
    }

    /// The number of the first byte that has not come.
    pub fn next(&self) -> u64
        ensures value { result ≡ next_of self.now }
        ensures least { IsLeastMissing self.now result }
        ensures well_formed { IsWellFormed self.now }
    {
        self.next
    }

    /// The numbers received above the next one, rising.
    pub fn held(&self) -> &[u64]
        ensures { result.now ≡ held_of self.now }
    {
        self.held.as_slice()
    }

    /// When a delayed answer is due, in nanoseconds; none if none is.
    pub fn timer(&self) -> Option<Time>
        ensures { result ≡ self.now.timer }
    {
        self.timer
    }

    /// Takes a segment that comes at a moment, and says what it is answered with. Memory is
    /// wanted only for a number that is above the next one and new.
    #[inline(always)]
    pub fn on_data(&mut self, seq: u64, now: Time) -> Result<Reply, AllocError>
        requires multiple { seq % self.old.mss ≡ 0 }
        requires greatest { seq ≤ 9000000000000 }
        requires moment { IsMoment now }
        ensures reply { IfOk result (λ reply. reply ≡ (data_came self.old seq now).reply) }
        ensures state { OnOk result (self.new ≡ (data_came self.old seq now).state) }
        ensures err { OnErr result (self.new ≡ self.old) }
        ensures wants_memory { OnErr result ((next_of self.old < seq) × ¬ IsReceived self.old seq) }
    {
        if seq > self.next {
            self.hold(seq)?;
            return Ok(self.acknowledge());
        }
        if seq < self.next {
            return Ok(self.acknowledge());
        }
        let waits = self.waits();
        self.advance();
        if waits {
            let due = now + self.delack;
            self.timer = Some(due);
            Ok(Reply::Wait(due))
        } else {
            Ok(self.acknowledge())
        }
    }

    /// Answers for a delayed acknowledgement: the number of the first byte that has not come.
    pub fn on_delack(&mut self) -> u64
        ensures answer { (timer_came self.old).reply ≡ AckNow result }
        ensures state { self.new ≡ (timer_came self.old).state }
    {
        self.timer = None;
        self.next
    }

    /// A receiver in the same state.
    pub fn copy(&self) -> Result<Receiver, AllocError>
        ensures { IfOk result (λ copy. copy ≡ self.now) }
    {
        let held = self.held.copy()?;
        Ok(Receiver {
            mss: self.mss,
            delack: self.delack,
            next: self.next,
            held,
            timer: self.timer,
        })
    }

    /// An acknowledgement of the next number; no delayed one is due any more.
    fn acknowledge(&mut self) -> Reply
        ensures answer { result ≡ (timer_came self.old).reply }
        ensures state { self.new ≡ (timer_came self.old).state }
    {
        Reply::AckNow(self.on_delack())
    }

    /// Whether the answer to the next number may wait (RFC 5681 section 4.2).
    fn waits(&self) -> bool
        ensures { result ≡ may_wait self.now (next_of self.now) }
    {
        match self.timer {
            None => self.delack > 0 && self.held.as_slice().is_empty(),
            Some(_) => false,
        }
    }

    /// Takes a number above the next one.
    fn hold(&mut self, seq: u64) -> Result<(), AllocError>
        requires above { next_of self.old < seq }
        requires multiple { seq % self.old.mss ≡ 0 }
        requires greatest { seq ≤ 9000000000000 }
        ensures ok { OnOk result (self.new ≡ gaining self.old seq) }
        ensures err { OnErr result (self.new ≡ self.old) }
        ensures wants_memory { OnErr result (¬ IsReceived self.old seq) }
    {
        match find(self.held.as_slice(), seq) {
            Ok(_) => Ok(()),
            Err(place) => {
                self.held.insert(place, seq)?;
                Ok(())
            }
        }
    }

    /// Takes the next number, and goes past all that is received in order.
    fn advance(&mut self)
        requires { next_of self.old ≤ 9000000000000 }
        ensures { self.new ≡ gaining self.old (next_of self.old) }
    {
        let first = self.next + self.mss;
        let run = run_length(self.held.as_slice(), first, self.mss);
        self.held.take_front(run);
        self.next = first + run as u64 * self.mss;
    }
}
