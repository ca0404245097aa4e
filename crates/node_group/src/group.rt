//! A group of nodes on its way through a window.
ghost use Rattle.std.specs.Prelude.{◌≡◌, ◌≤◌, None, OnOk, IfErr};
ghost use Rattle.table_run.specs.State.{due};
ghost use Rattle.window_law.specs.Groups.{up_to};
ghost use Rattle.window_law.specs.Windows.{first_time};
ghost use Rattle.node_group.specs.Group.{state_of, AfterFirings, IsOnRun};
ghost use Rattle.node_group.specs.Faults.{IsFaultAt};

use crate::group_state::GroupState;
use sim_time::Time;
use std::marker::Model;

/// Why a group stopped before its end.
#[derive(Clone, Copy)]
pub enum GroupFault {
    /// There was no memory.
    NoMemory,
    /// As many events were run as there may be, and one more is due.
    CountFull,
}

/// The nodes of a group, on their way through a window of a scenario's run.
#[derive(Drop)]
pub struct Group {
    group_state: GroupState,
}

impl Model for Group {
    ghost use Rattle.node_group.specs.Group.{GroupValue};
    ghost use Rattle.node_group.specs.GroupCode.{group_code};

    ghost Value = { GroupValue };

    ghost coded = { group_code };

    ghost use Rattle.node_group.specs.Group.{IsOnRun};

    ghost view = { λ g. g.group_state };

    ghost invariant = { λ g. IsOnRun g.group_state };
}

impl Group {
    /// A group's state, of a net that is on a scenario's run.
    pub fn new(group_state: GroupState) -> Group
        requires { IsOnRun group_state }
        ensures { result ≡ group_state }
    {
        Group { group_state }
    }

    /// When its least event is, in nanoseconds.
    pub fn next(&self) -> Option<Time>
        ensures { result ≡ first_time (state_of self.now) }
    {
        self.group_state.next()
    }

    /// The group's state.
    pub fn into_group_state(self) -> GroupState
        ensures group_state { result ≡ self }
        ensures on_run { IsOnRun self }
    {
        self.group_state
    }
}

/// Runs a group's events below a moment, in nanoseconds, one after another in the order of their
/// keys. Where it stops before, the group stands after some whole events.
pub fn run_group(group: &mut Group, end: Time) -> Result<(), GroupFault>
    requires { end ≤ group.old.until }
    ensures after { AfterFirings end group.old group.new }
    ensures done { OnOk result (due (up_to end (state_of group.new)) ≡ None) }
    ensures fault { IfErr result (IsFaultAt end group.new) }
{
    group.group_state.run(end)
}
