//! How far a run is, by whole hundredths of its time.
ghost use Rattle.std.specs.Prelude.{◌≡◌, ◌≤◌};

use command_line::notes::{HowFar, Notes};
use net_machine::{Due, Net};
use net_watch::Watch;
use node_core::Line;
use sim_time::Time;
use std::snapshot::Snapshot;

/// All of a run's time.
pub(crate) const WHOLE: u64 = 100;

/// How far a run is that ends by a moment.
#[derive(Drop)]
pub(crate) struct Progress {
    /// The run's end, in nanoseconds.
    pub end: Time,
    /// From this moment on there is more to tell; the last that there is where nothing is told.
    next: Time,
    /// Whether anything is told.
    wanted: bool,
}

/// So many hundredths of a time, in whole nanoseconds, rounded up.
pub(crate) fn hundredths(end: Time, percent: u64) -> Time
    requires { percent ≤ 100 }
{
    (u128::from(end) * u128::from(percent)).div_ceil(u128::from(WHOLE)) as u64
}

impl Progress {
    /// Of a run that ends by a moment, which is told where that is wanted.
    pub(crate) fn new(wanted: bool, end: Time) -> Progress
        ensures { result.end ≡ end }
    {
        let next = if wanted {
            hundredths(end, 1)
        } else {
            Time::MAX
        };
        Progress { end, next, wanted }
    }

    /// The hundredth of the run's time at which it is first told: all of it, where nothing is.
    pub(crate) fn first(&self) -> u64 {
        if self.wanted { 1 } else { WHOLE }
    }

    /// An event at a moment is done, the last of so many.
    #[inline(always)]
    pub(crate) fn pass<N: Notes>(&mut self, time: Time, events: u64, notes: &mut N) {
        if time >= self.next {
            self.tell(time, events, notes);
        }
    }

    /// Says that so many hundredths are simulated, and so many events.
    pub(crate) fn say<N: Notes>(&self, percent: u64, events: u64, notes: &mut N) {
        notes.progress(&HowFar {
            percent,
            end: self.end,
            events,
        });
    }

    /// Tells how far a run is at a moment.
    #[inline(never)]
    fn tell<N: Notes>(&mut self, time: Time, events: u64, notes: &mut N) {
        if !self.wanted || self.end == 0 {
            return;
        }
        let percent = (u128::from(time) * u128::from(WHOLE) / u128::from(self.end)).min(u128::from(
            WHOLE,
        )) as u64;
        self.say(percent, events, notes);
        self.next = if percent < WHOLE {
            hundredths(self.end, percent + 1)
        } else {
            Time::MAX
        };
    }

    /// The run has ended after so many events, done or not.
    pub(crate) fn ends<N: Notes>(&self, done: bool, events: u64, notes: &mut N) {
        if self.wanted {
            if done {
                self.say(WHOLE, events, notes);
            }
            notes.progress_ends();
        }
    }
}

/// Who tells how far a run is, as its events are run.
#[derive(Drop)]
pub(crate) struct Telling<'a, N> {
    /// How far it is.
    pub progress: Progress,
    /// Who is told.
    pub notes: &'a mut N,
}

impl<N: Notes> Watch for Telling<'_, N> {
    ghost use Rattle.std.specs.Prelude.{◌≡◌, true, refl};

    ghost has = { λ _ _ _ _ goes_on. goes_on ≡ true };

    ghost begins = { λ _ _. refl };

    #[inline(always)]
    fn ahead(&self, _at: &Net, _next: Option<Due>) -> bool {
        true
    }

    #[inline(always)]
    fn see(&mut self, _before: &Snapshot<Net>, after: &Net, line: &Line) -> bool {
        self.progress
            .pass(line.key.time, after.position(), self.notes);
        true
    }
}
