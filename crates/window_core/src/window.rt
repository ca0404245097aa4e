//! A net's run by windows: groups run apart up to a common end, and a turn brings them together.
ghost use Rattle.std.specs.Prelude.{◌≡◌, ◌<◌, ◌≤◌, [], ℕ, length, map as each, min, true, false, All, IfOk, IfErr, OnOk, OnErr, None, slice_set, vec_capacity};
ghost use Rattle.sim_time.specs.declared.limits.TheConstants.{MOST_EVENTS};
ghost use Rattle.table_run.specs.State.{State, due};
ghost use Rattle.window_law.specs.Groups.{up_to};
ghost use Rattle.window_core.specs.Acting.{IsFaultOf, fault_of};
ghost use Rattle.window_core.specs.Full.{events_with};
ghost use Rattle.node_group.specs.Group.{GroupValue, AfterFirings, IsOnRun, state_of};
ghost use Rattle.node_group.specs.Faults.{IsFaultAt};
ghost use Rattle.window_core.specs.Window.{IsFrom, IsWindow, HasFiredOr, states_of, value_at};
ghost use Rattle.window_law.specs.Windows.{none_fired, soonest};

mod acting;
mod group_table;
mod handing;
mod initial;
mod joining;
mod lending;
mod reading;
mod reclaiming;
mod turning;

pub use self::acting::Action;
use self::group_table::GroupTable;
pub use self::turning::TurnFault;
use line_merge::Batch;
use net_machine::LinkEnds;
use net_partition::Partition;
use node_group::{Group, GroupFault, GroupState};
use sim_time::Time;
use std::alloc::Global;
use std::marker::Model;
use tournament::KeyTournament;

/// A net's groups of nodes, on their way through the windows of a scenario's run.
#[derive(Drop)]
pub struct Window {
    /// The group of each node.
    partition: Partition,
    /// Where each link of the net leaves and ends, by its number.
    links: Vec<LinkEnds>,
    /// The least delay of a link whose ends are in two groups, in nanoseconds.
    ahead: Option<Time>,
    /// Events before this moment are run, in nanoseconds.
    end: Time,
    /// Where the window ends, in nanoseconds.
    until: Time,
    /// How many events were run to the last turn.
    position: u64,
    /// The groups, by number.
    group_table: GroupTable,
    /// For a merge: the index of the next line of each group, and their keys.
    nexts: Vec<usize>,
    tournament: KeyTournament,
    /// What the last turn gave, where it was an action.
    taken: Batch,
    /// Memory for the next turn's lines.
    spare: Batch,
    /// Where memory is taken.
    alloc: Global,
}

impl Model for Window {
    ghost use Rattle.window_core.specs.Window.{WindowValue};
    ghost use Rattle.window_core.specs.WindowCode.{window_code};

    ghost Value = { WindowValue };

    ghost coded = { window_code };

    ghost use Rattle.window_core.specs.WindowOf.{window_of, IsWindowInside};

    ghost view = { window_of };

    ghost invariant = { IsWindowInside };
}

// Names the moment before which each group may run events.
fn set_until(group_states: &mut [GroupState], until: Time)
    ensures { group_states.new ≡ each (λ (g : GroupValue). record g { until = until }) group_states.old }
{
    for group_state in group_states.iter_mut() {
        group_state.set_until(until);
    }
}

impl Window {
    /// The least delay of a link whose ends are in two groups, in nanoseconds.
    pub fn lookahead(&self) -> Option<Time>
        ensures { result ≡ self.now.ahead }
    {
        self.ahead
    }

    /// Where the window ends, in nanoseconds: no event at that moment or past it is run in it.
    pub fn end(&self) -> Time
        ensures { result ≡ self.now.until }
    {
        self.until
    }

    /// How many events were run to the last turn.
    pub fn position(&self) -> u64
        ensures count { result ≡ self.now.position }
        ensures is_window { IsWindow self.now }
    {
        self.position
    }

    /// When the least event of all groups is, in nanoseconds.
    pub fn next(&self) -> Option<Time>
        requires { self.now.out ≡ false }
        ensures { result ≡ soonest (states_of self.now.groups) }
    {
        self.group_table.soonest()
    }

    /// Ends the window by a moment, in nanoseconds, at the latest. No event was run in it yet.
    pub fn limit(&mut self, until: Time)
        requires inside { self.old.out ≡ false }
        requires unfired { none_fired (states_of self.old.groups) ≡ true }
        ensures state { self.new ≡ record self.old { until = min self.old.until until; groups = each (λ (g : GroupValue). record g { until = min self.old.until until }) self.old.groups } }
        ensures from { (edge : State) → IsFrom edge self.old → IsFrom edge self.new }
    {
        self.until = self.until.min(until);
        self.group_table.set_until(self.until);
    }

    /// Runs the least event of a group, where there is such a group and it has one before the
    /// window's end. The answer is whether there was one.
    pub fn fire(&mut self, group: usize) -> Result<bool, GroupFault>
        requires { self.old.out ≡ false }
        ensures ok { IfOk result (λ fired. HasFiredOr fired self.old group self.new) }
        ensures rest { self.new ≡ record self.old { groups = self.new.groups } }
        ensures from { (edge : State) → IsFrom edge self.old → IsFrom edge self.new }
        ensures room { IfOk result (λ fired. fired ≡ true → events_with self.old group < MOST_EVENTS) }
        ensures fault { IfErr result (λ fault. IsFaultOf self.old (Action.Fire group) (fault_of fault)) }
        ensures err { OnErr result (self.new ≡ self.old) }
    {
        if group >= self.group_table.len() {
            return Ok(false);
        }
        self.group_table.fire(group, self.until)
    }

    /// How many groups there are.
    #[inline(always)]
    pub fn groups(&self) -> usize
        requires { self.now.out ≡ false }
        ensures { result ≡ length self.now.groups }
    {
        self.group_table.len()
    }

    /// How many groups have an event below a moment.
    pub fn busy(&self, moment: Time) -> usize {
        self.group_table.busy(moment)
    }

    /// Runs a group's events before the window's end, one after another in the order of their keys,
    /// while the groups are in. Where it stops before, the group stands after some whole events.
    #[inline]
    pub fn run_group(&mut self, group: usize) -> Result<(), GroupFault>
        requires inside { self.old.out ≡ false }
        requires within { group < length self.old.groups }
        ensures state { self.new ≡ record self.old { groups = slice_set self.old.groups group (value_at self.new.groups group) } }
        ensures after { AfterFirings self.old.until (value_at self.old.groups group) (value_at self.new.groups group) }
        ensures done { OnOk result (due (up_to self.old.until (state_of (value_at self.new.groups group))) ≡ None) }
        ensures from { (edge : State) → IsFrom edge self.old → IsFrom edge self.new }
        ensures fault { IfErr result (IsFaultAt self.old.until (value_at self.new.groups group)) }
    {
        self.group_table.run(group, self.until)
    }

    /// Hands the groups out. No memory is taken.
    pub fn take_groups(&mut self) -> Vec<Group>
        requires { self.old.out ≡ false }
        ensures groups { result.items ≡ self.old.groups }
        ensures state { self.new ≡ record self.old { out = true } }
        ensures from { (edge : State) → IsFrom edge self.old → IsFrom edge self.new }
    {
        self.group_table.hand_out(self.alloc)
    }

    /// Has the groups back, each after events of its own before the window's end. No memory is
    /// taken.
    pub fn put_groups(&mut self, groups: Vec<Group>)
        requires out { self.old.out ≡ true }
        requires count { length groups.items ≡ length self.old.groups }
        requires fired { (number : ℕ) → number < length groups.items → AfterFirings self.old.until (value_at self.old.groups number) (value_at groups.items number) }
        ensures state { self.new ≡ record self.old { groups = groups.items; out = false } }
        ensures from { (edge : State) → IsFrom edge self.old → IsFrom edge self.new }
    {
        self.group_table.take_back(groups);
    }
}
