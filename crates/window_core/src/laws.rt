//! The law of runs by windows that cannot go on. Each function is a law: its contract is the statement,
//! and its body is empty.
ghost use Rattle.window_core.specs.Laws.{FullGroupHasTooMany, FullTurnHasTooMany};

/// Where a window of a run cannot go on because of the number of events, the run has more events
/// than there may be: with the lines of one group there are 10^15 and one more is due to it, or
/// with those of all groups there are more.
pub fn full_windows_have_too_many()
    ensures group { FullGroupHasTooMany }
    ensures turn { FullTurnHasTooMany }
{}
