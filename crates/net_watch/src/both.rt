//! Two who watch one run.
use crate::watch::Watch;
use net_machine::{Due, Net};
use node_core::Line;
use std::snapshot::Snapshot;

/// Two who watch the same events. The run goes on while both say so; each is shown each event.
#[derive(Drop)]
pub struct Both<A, B> {
    /// The one.
    pub first: A,
    /// The other.
    pub second: B,
}

impl<A: Watch, B: Watch> Watch for Both<A, B> {
    ghost use Rattle.std.specs.Prelude.{◌⊎◌, true, refl};
    ghost use Rattle.net_watch.specs.BothHave.{BothHave};

    ghost fits = { λ w at. A.fits w.first at × B.fits w.second at };

    ghost has = { λ began from w at goes_on. BothHave (A.has began.first from w.first at) (B.has began.second from w.second at) goes_on };

    ghost begins = { λ w at. record { first = true; second = true; first_has = A.begins w.first at; second_has = B.begins w.second at; both = refl } };

    ghost goes = { λ w at. A.goes w.first at × B.goes w.second at };

    ghost halts = { λ w at. A.halts w.first at ⊎ B.halts w.second at };

    #[inline(always)]
    fn ahead(&self, at: &Net, next: Option<Due>) -> bool {
        self.first.ahead(at, next) && self.second.ahead(at, next)
    }

    #[inline(always)]
    fn see(&mut self, before: &Snapshot<Net>, after: &Net, line: &Line) -> bool {
        let one = self.first.see(before, after, line);
        let other = self.second.see(before, after, line);
        one && other
    }
}
