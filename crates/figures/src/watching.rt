//! The figures of a run, counted by who watches it.
use crate::figures::Figures;
use net_machine::{Due, Net};
use net_watch::Watch;
use node_core::Line;
use std::snapshot::Snapshot;

impl Watch for Figures {
    ghost use Rattle.std.specs.Prelude.{◌≡◌, true, refl};
    ghost use Rattle.scenario_image.specs.declared.parts.ScenarioParts.{ScenarioParts};
    ghost use Rattle.figures.specs.Moments.{Base};
    ghost use Rattle.figures.specs.Figures.{AreOfRun, AreOfSomeRun};

    ghost fits = { λ w at. AreOfSomeRun w at };

    ghost has = { λ began from w at goes_on. (goes_on ≡ true) × ((p : ScenarioParts) (b : Base) → AreOfRun p b began from → AreOfRun p b w at) };

    ghost begins = { λ _ _. (refl, λ _ _ of. of) };

    #[inline(always)]
    fn ahead(&self, _at: &Net, _next: Option<Due>) -> bool {
        true
    }

    #[inline(always)]
    fn see(&mut self, _before: &Snapshot<Net>, after: &Net, line: &Line) -> bool {
        let _count = after.position();
        self.after(after, line);
        true
    }
}
