//! Who is told of the work on pieces.

use std::hint::spin_loop;
use std::sync::atomic::AtomicU64;
use std::sync::atomic::Ordering::SeqCst;
use std::thread;

/// To tell a thread of a window and to wait for it takes about as long as so many events.
pub const WORTH: usize = 1_000;

/// The most turns that a worker gives away before it goes on alone.
const TURNS: u64 = 10_000_000;

/// Which workers a gate keeps.
#[derive(Clone, Copy)]
enum Keeping {
    /// None, and it counts nothing.
    Nobody,
    /// Each, until so many have entered: they are let go together.
    Rounds(u64),
    /// Each, for so many turns, until so many are at their pieces at once; then none.
    UntilMet {
        /// How many have to be at their pieces at once.
        size: u64,
        /// For how many turns a worker is kept.
        turns: u64,
    },
}

/// Is told when a worker begins and ends a piece, and may keep the worker: so a test sees workers at work at once. The
/// program's gate is open.
#[derive(Drop)]
pub struct Gate {
    /// How many events a thread has to have to be worth it.
    worth: usize,
    /// Which workers it keeps.
    keeping: Keeping,
    /// How often a piece was entered.
    entered: AtomicU64,
    /// How often a piece was left.
    left: AtomicU64,
    /// The numbers of the pieces that were entered, added up.
    numbers_entered: AtomicU64,
    /// The numbers of those that were left.
    numbers_left: AtomicU64,
    /// The numbers of those that were entered in every second round, from the first on.
    numbers_first: AtomicU64,
    /// How often somebody went on alone.
    missed: AtomicU64,
    /// Whether as many as are to meet were at their pieces at once: 1.
    met: AtomicU64,
}

impl Gate {
    /// A gate for which a thread is worth it from so many events on.
    fn new(worth: usize, keeping: Keeping) -> Gate {
        Gate {
            worth,
            keeping,
            entered: AtomicU64::new(0),
            left: AtomicU64::new(0),
            numbers_entered: AtomicU64::new(0),
            numbers_left: AtomicU64::new(0),
            numbers_first: AtomicU64::new(0),
            missed: AtomicU64::new(0),
            met: AtomicU64::new(0),
        }
    }

    /// Keeps nobody, and counts nothing.
    pub fn open() -> Gate {
        Gate::new(WORTH, Keeping::Nobody)
    }

    /// Keeps nobody, and asks for all workers in each window.
    pub fn for_all() -> Gate {
        Gate::new(0, Keeping::Nobody)
    }

    /// Counts, and keeps nobody.
    pub fn counting(worth: usize) -> Gate {
        Gate::new(worth, Keeping::Rounds(1))
    }

    /// Keeps whoever enters until so many have, and asks for all workers: they are let go together. A worker that waits
    /// in vain goes on alone at last, which is counted.
    pub fn of(size: u64) -> Gate {
        Gate::new(0, Keeping::Rounds(size))
    }

    /// Keeps each worker for so many turns, until so many are at their pieces at once; then it keeps nobody.
    pub fn until_met(size: u64, turns: u64) -> Gate {
        Gate::new(WORTH, Keeping::UntilMet { size, turns })
    }

    /// How often pieces were entered, and what their numbers are together.
    pub fn entered(&self) -> (u64, u64) {
        (self.entered.load(SeqCst), self.numbers_entered.load(SeqCst))
    }

    /// How often pieces were left, and what their numbers are together.
    pub fn left(&self) -> (u64, u64) {
        (self.left.load(SeqCst), self.numbers_left.load(SeqCst))
    }

    /// What the numbers of the pieces are together that were entered in every second round, from the first on.
    pub fn numbers_first(&self) -> u64 {
        self.numbers_first.load(SeqCst)
    }

    /// How often somebody went on alone.
    pub fn missed(&self) -> u64 {
        self.missed.load(SeqCst)
    }

    /// Whether as many as are to meet were at their pieces at once.
    pub fn has_met(&self) -> bool {
        self.met.load(SeqCst) == 1
    }

    /// Waits until pieces were entered so often. The answer is whether they were: who waits in vain goes on at last.
    pub fn comes_to(&self, times: u64) -> bool {
        for _turn in 0..TURNS {
            if self.entered.load(SeqCst) >= times {
                return true;
            }
            thread::yield_now();
        }
        false
    }

    /// How many events a thread has to have to be worth it: a window that has fewer beside those of its
    /// busiest group is run by the calling thread. 0: each window is run by all workers, and no event outside a
    /// window, but where a call by another gate stopped among events that it ran one after another: as many more
    /// follow as it was to run so.
    pub fn worth(&self) -> usize {
        self.worth
    }

    /// A worker has claimed the piece.
    pub(crate) fn enter(&self, piece: u64) {
        match self.keeping {
            Keeping::Nobody => {}
            Keeping::Rounds(size) => self.go_together(piece, size),
            Keeping::UntilMet { size, turns } => self.meet(size, turns),
        }
    }

    /// The worker has finished the piece.
    pub(crate) fn leave(&self, piece: u64) {
        if let Keeping::Nobody = self.keeping {
            return;
        }
        self.numbers_left.fetch_add(piece, SeqCst);
        self.left.fetch_add(1, SeqCst);
    }

    /// Waits until the round is full.
    fn go_together(&self, piece: u64, size: u64) {
        self.numbers_entered.fetch_add(piece, SeqCst);
        let before = self.entered.fetch_add(1, SeqCst);
        let round = before / size.max(1);
        if round % 2 == 0 {
            self.numbers_first.fetch_add(piece, SeqCst);
        }
        let all = round.saturating_add(1).saturating_mul(size);
        if !self.comes_to(all) {
            self.missed.fetch_add(1, SeqCst);
        }
    }

    /// Waits for some turns, unless as many as are to meet are at their pieces or were once.
    fn meet(&self, size: u64, turns: u64) {
        let entered = self.entered.fetch_add(1, SeqCst).saturating_add(1);
        if entered.saturating_sub(self.left.load(SeqCst)) >= size {
            self.met.store(1, SeqCst);
        }
        for _turn in 0..turns {
            if self.has_met() {
                return;
            }
            // A turn gives no processor away.
            spin_loop();
        }
    }
}
