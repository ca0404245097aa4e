//! Who holds a run at a position.
use crate::watch::Watch;
use net_machine::{Due, Net};
use node_core::Line;
use std::snapshot::Snapshot;

/// Holds the run once so many events were run since its initial state.
#[derive(Drop)]
pub struct UpTo {
    /// How many.
    pub position: u64,
}

impl Watch for UpTo {
    ghost use Rattle.std.specs.Prelude.{◌≡◌, ◌<◌, ◌≤◌, true, refl};

    ghost fits = { λ w at. at.position ≤ w.position };

    ghost has = { λ began _ w _ goes_on. (goes_on ≡ true) × (w.position ≡ began.position) };

    ghost begins = { λ _ _. (refl, refl) };

    ghost goes = { λ w at. at.position < w.position };

    ghost halts = { λ w at. at.position ≡ w.position };

    #[inline(always)]
    fn ahead(&self, at: &Net, _next: Option<Due>) -> bool {
        at.position() < self.position
    }

    #[inline(always)]
    fn see(&mut self, _before: &Snapshot<Net>, _after: &Net, _line: &Line) -> bool {
        true
    }
}
