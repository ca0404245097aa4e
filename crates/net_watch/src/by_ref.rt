//! Who watches through a reference.
use crate::watch::Watch;
use net_machine::{Due, Net};
use node_core::Line;
use std::snapshot::Snapshot;

impl<W: Watch> Watch for &mut W {
    ghost use Rattle.std.specs.Prelude.{◌≡◌, refl};

    ghost fits = { λ w at. W.fits w.now at };

    ghost has = { λ began from w at goes_on. (w.ghost_name ≡ began.ghost_name) × W.has began.now from w.now at goes_on };

    ghost begins = { λ w at. (refl, W.begins w.now at) };

    ghost goes = { λ w at. W.goes w.now at };

    ghost halts = { λ w at. W.halts w.now at };

    #[inline(always)]
    fn ahead(&self, at: &Net, next: Option<Due>) -> bool {
        Watch::ahead(&**self, at, next)
    }

    #[inline(always)]
    fn see(&mut self, before: &Snapshot<Net>, after: &Net, line: &Line) -> bool {
        Watch::see(&mut **self, before, after, line)
    }
}
