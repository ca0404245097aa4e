//! What a move by windows looks for.
ghost use Rattle.std.specs.Prelude.{◌↔◌, ◌+◌, ◌<◌, ◌≤◌, IsTrue, length};
ghost use Rattle.node_core.specs.TraceLine.{shown};
ghost use Rattle.debugger.specs.Aims.{IsMet, EndsIn};
ghost use Rattle.debugger.specs.Courses.{Finds};

use breakpoints::breaks::Breaks;
use node_core::Line;
use sim_time::Time;
use window_core::Batch;

/// What a move by windows looks for.
#[derive(Clone, Copy)]
pub(crate) enum Aim<'a> {
    /// The position behind the next line that meets the conditions of a breakpoint, of those on what lines show.
    Hit(&'a Breaks),
    /// The position before the next line at a moment, in nanoseconds, or past it.
    Moment(Time),
}

impl Aim<'_> {
    /// Whether a line is such a line.
    fn is_met(&self, line: &Line) -> bool
        ensures { IsTrue result ↔ IsMet self.now (shown line.now) }
    {
        match self {
            Aim::Hit(breaks) => breaks.hits_line(line),
            Aim::Moment(time) => line.key.time >= *time,
        }
    }

    /// The index of the first such line.
    fn first_in(&self, batch: &Batch) -> Option<usize>
        ensures { Finds (IsMet self.now) batch.now result }
    {
        for index in 0..batch.len() {
            if self.is_met(batch.line(index)) {
                return Some(index);
            }
        }
        None
    }

    /// The position at which the move ends, where that is in this window.
    pub(crate) fn end_in(&self, batch: &Batch) -> Option<u64>
        requires some { 0 < batch.now.first }
        requires few { batch.now.first + length batch.now.lines ≤ 1000000000000001 }
        ensures { EndsIn self.now batch.now result }
    {
        let number = batch.first() + self.first_in(batch)? as u64;
        Some(match self {
            Aim::Hit(_) => number,
            Aim::Moment(_) => number - 1,
        })
    }
}
