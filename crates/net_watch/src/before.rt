//! Who holds a run at a moment.
use crate::watch::Watch;
use net_machine::{Due, Net};
use node_core::Line;
use sim_time::Time;
use std::snapshot::Snapshot;

/// Holds the run once the next event is at or past a moment, in nanoseconds.
#[derive(Drop)]
pub struct Before {
    /// The moment.
    pub moment: Time,
}

impl Watch for Before {
    ghost use Rattle.std.specs.Prelude.{◌≡◌, true, refl};
    ghost use Rattle.net_watch.specs.RunsBefore.{RunsBefore, IsNextBefore, IsHeldAt, runs_none};

    ghost has = { λ began from w at goes_on. (goes_on ≡ true) × ((w.moment ≡ began.moment) × RunsBefore began.moment from at) };

    ghost begins = { λ w at. (refl, (refl, runs_none w.moment at)) };

    ghost goes = { λ w at. IsNextBefore w.moment at.state };

    ghost halts = { λ w at. IsHeldAt w.moment at.state };

    #[inline(always)]
    fn ahead(&self, _at: &Net, next: Option<Due>) -> bool {
        match next {
            Some(due) => due.time < self.moment,
            None => true,
        }
    }

    #[inline(always)]
    fn see(&mut self, _before: &Snapshot<Net>, _after: &Net, _line: &Line) -> bool {
        true
    }
}
