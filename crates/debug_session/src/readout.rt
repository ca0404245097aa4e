//! What a display reads.
ghost use Rattle.std.specs.Prelude.{◌≡◌};
ghost use Rattle.debug_session.specs.Readouts.{now_of, was_of};

use breakpoints::{Reading, ValueOf};
use debugger::Debugger;
use sim_time::Time;

/// The state that a debugger shows, and the one before it that a display compares it with.
#[derive(Clone, Copy)]
pub(crate) struct Readout<'a> {
    /// The debugger.
    pub debugger: &'a Debugger,
    /// The moment of the state that the last move left, in nanoseconds, where that is compared.
    pub left: Option<Time>,
    /// The moment of the state that is shown, in nanoseconds.
    pub time: Time,
}

impl Readout<'_> {
    /// What is read of the state that is shown.
    pub(crate) fn now(&self, what: ValueOf) -> Reading
        ensures { result ≡ now_of self.now what }
    {
        self.debugger.read(self.time, what)
    }

    /// What was read of the one that it is compared with.
    pub(crate) fn was(&self, what: ValueOf) -> Reading
        ensures { result ≡ was_of self.now what }
    {
        match self.left {
            Some(time) => self.debugger.read_left(time, what),
            None => self.now(what),
        }
    }
}
