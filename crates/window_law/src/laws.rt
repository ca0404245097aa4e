//! The law of windows. Each function is a law: its contract is the statement, and its body is
//! empty.
ghost use Rattle.window_law.specs.Schedules.{EveryScheduleGivesTheRun, EveryGroupIsTheRuns, EveryGroupIsAtAStep};
ghost use Rattle.window_law.specs.Standing.{SplitStands, JoinedIsTheState};
ghost use Rattle.window_law.specs.Calls.{OpensWhereGroupsStand, FiringKeepsItOpen, LimitKeepsItOpen, GroupsThatFiredKeepItOpen, UnfiredGroupsStand, TurnGivesTheRun, EachFiringIsOfTheRun};

/// From any state of any run of any scenario, for every grouping of its nodes and every list of
/// moves: whenever a turn is taken, the groups hold the state of the run and all lines given are
/// the run's; between turns each group has its nodes and its events below the window's end as the
/// run has them at each step of the window at which its events are just those that it has fired;
/// and such a step there is.
pub fn any_schedule_is_the_run()
    ensures turns { EveryScheduleGivesTheRun }
    ensures inside { EveryGroupIsTheRuns }
    ensures at_a_step { EveryGroupIsAtAStep }
{}

/// A state that is split by groups is held by them, and groups that hold a state are it together.
pub fn groups_hold_the_net()
    ensures split { SplitStands }
    ensures joined { JoinedIsTheState }
{}

/// A window call by call: it opens where groups hold a state; a firing, a bound and groups that
/// come back after firings of their own keep it; groups that have not fired hold the state still;
/// a turn gives the run's next lines and opens the next window; and each event that a group can
/// fire is one that the run comes to.
pub fn each_call_keeps_the_window()
    ensures opens { OpensWhereGroupsStand }
    ensures fires { FiringKeepsItOpen }
    ensures limits { LimitKeepsItOpen }
    ensures comes_back { GroupsThatFiredKeepItOpen }
    ensures unfired { UnfiredGroupsStand }
    ensures turns { TurnGivesTheRun }
    ensures of_the_run { EachFiringIsOfTheRun }
{}
