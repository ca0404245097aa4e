//! Into which parts a window's text is cut. The first ones are long, so that a merge begins anew at few places, and the
//! last ones are short, so that a thread which is done does not wait long for another's.
ghost use Rattle.std.specs.Prelude.{◌<◌, ◌≤◌, IfSome};

use line_merge::Sheaf;
use sim_time::Time;
use std::array::from_fn;
use std::sync::atomic::Ordering::SeqCst;
use std::sync::atomic::{AtomicBool, AtomicU64};

/// In how many parts a window's text is made at most.
pub const MOST_PARTS: usize = 64;

/// Of how many equal shares of the lines they are at most, where few threads take them: these are done with the last part
/// at about the same time.
const MOST_SHARES: usize = 128;

/// So many threads take that many shares in fewer parts than there may be.
const FEW: usize = 8;

/// How many lines are worth a part.
const LEAST: usize = 128;

/// For how many bytes of a line there is to be room: few lines have more, and most have half of them.
pub const LINE_BYTES: usize = 128;

/// The parts in which threads make a window's text. Each is taken by one thread.
#[derive(Drop)]
pub struct Parts {
    /// Of how many equal shares of the lines they are.
    pub shares: usize,
    /// The moment at which each share begins, in nanoseconds, once they are known.
    moments: [AtomicU64; MOST_SHARES],
    /// Whether they are.
    known: AtomicBool,
    /// How many threads take them.
    workers: usize,
    /// How often one was asked for.
    asked: AtomicU64,
    ghost few: { shares ≤ 128 },
}

/// A part: shares of the lines from one on up to another.
#[derive(Clone, Copy)]
pub(crate) struct PartRange {
    /// Its first share.
    pub from: usize,
    /// The share behind its last.
    pub to: usize,
}

/// Of how many shares the lines are at most, where so many threads take them.
pub fn most_shares(workers: usize) -> usize
    ensures { result ≤ 128 }
{
    if workers <= FEW {
        MOST_SHARES
    } else {
        MOST_PARTS
    }
}

/// The first share of a part, of so many shares that so many threads take; the share behind the last where there is no
/// such part. Half of the shares go to as many parts as there are threads, then half of what is left, and so on.
pub fn share_of(part: usize, shares: usize, workers: usize) -> usize {
    let workers = workers.max(1);
    let (mut before, mut left) = (part, shares);
    for _ in 0..shares {
        let each = (left / 2 / workers).max(1);
        if before < workers || each == 1 {
            return shares
                .saturating_sub(left)
                .saturating_add(before.saturating_mul(each))
                .min(shares);
        }
        before -= workers;
        left = left.saturating_sub(workers.saturating_mul(each));
    }
    shares
}

impl Parts {
    /// Those of a sheaf's lines, which so many threads take. None is taken yet, nor is it known where they begin.
    pub fn new(sheaf: &Sheaf, workers: usize) -> Parts {
        Parts {
            shares: sheaf.len().div_ceil(LEAST).min(most_shares(workers)),
            moments: from_fn(|_| AtomicU64::new(0)),
            known: AtomicBool::new(false),
            workers,
            asked: AtomicU64::new(0),
        }
    }

    /// For how many bytes a thread's text of a sheaf's lines is to have room: for twice an equal share of them. One that
    /// makes more puts its last lines slower.
    pub(crate) fn room(&self, sheaf: &Sheaf) -> usize {
        (sheaf.len() / self.workers.max(1)).saturating_mul(LINE_BYTES)
    }

    /// Sees that it is known where the parts begin. Whoever looks finds the same moments, so that none waits for another.
    pub fn cut(&self, sheaf: &Sheaf) {
        if self.known.load(SeqCst) {
            return;
        }
        let mut moments = [0; MOST_SHARES];
        sheaf.cut_into(&mut moments[..self.shares]);
        for (place, moment) in self.moments.iter().zip(moments.iter()) {
            place.store(*moment, SeqCst);
        }
        self.known.store(true, SeqCst);
    }

    /// The moment at which a share begins, in nanoseconds, once that is known; the last one where there is no such share.
    pub(crate) fn moment(&self, share: usize) -> Time {
        match self.moments.get(share) {
            Some(moment) if share < self.shares => moment.load(SeqCst),
            _ => Time::MAX,
        }
    }

    /// A part that no thread has taken yet.
    pub(crate) fn take(&self) -> Option<PartRange>
        ensures { IfSome result (λ stretch. stretch.from < self.now.shares) }
    {
        let part = self.asked.fetch_add(1, SeqCst) as usize;
        let from = share_of(part, self.shares, self.workers);
        if from >= self.shares {
            return None;
        }
        let to = share_of(part.saturating_add(1), self.shares, self.workers);
        Some(PartRange { from, to })
    }
}
