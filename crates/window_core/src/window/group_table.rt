//! The groups of a window, and what is asked of all of them again and again.
ghost use Rattle.std.specs.Prelude.{◌≡◌, ◌+◌, ◌<◌, ◌≤◌, [], All, IfErr, IfOk, List, OnErr, OnOk, None, false, length, map as each, min, slice_set, true, vec_capacity};
ghost use Rattle.sim_time.specs.declared.limits.TheConstants.{MOST_EVENTS};
ghost use Rattle.table_run.specs.State.{due};
ghost use Rattle.window_law.specs.Groups.{up_to};
ghost use Rattle.node_group.specs.Group.{GroupValue, AfterFirings, Fired, IsGroup, IsOnRun, state_of};
ghost use Rattle.node_group.specs.Faults.{IsFaultAt};
ghost use Rattle.line_merge.specs.Merged.{AreApart, all_of};
ghost use Rattle.window_core.specs.GroupTables.{least_moment, nexts_of};
ghost use Rattle.line_merge.specs.Sheaves.{merged};
ghost use Rattle.window_core.specs.Turning.{AreReady, HasHanded};
ghost use Rattle.window_core.specs.Window.{states_of, value_at};
ghost use Rattle.window_law.specs.Windows.{all_done, all_lines, soonest};

use super::handing::hand_all;
use super::lending::{lend, regain};
use super::reading::{next_of, reported, reported_by, soonest};
use super::set_until;
use crate::collecting::gather;
use crate::giving::give_back;
use line_merge::Sheaf;
use net_machine::LinkEnds;
use net_partition::Partition;
use node_group::{Group, GroupFault, GroupState};
use sim_time::Time;
use std::alloc::{AllocError, Global};
use std::marker::Model;
use std::snapshot::Snapshot;

/// The groups of a window, by number, and beside them what is asked of all of them at every turn:
/// so a group with nothing to do costs a comparison.
#[derive(Drop)]
pub(crate) struct GroupTable {
    /// The groups, while they are in.
    group_states: Vec<GroupState>,
    /// When the least event of each is, in nanoseconds; the last moment there is where it has none.
    nexts: Vec<Time>,
    /// The least of these, where it was read since they changed.
    least: Option<Time>,
    /// How many lines they have told.
    reported: usize,
    /// Whether the groups are out, and how they were when they went.
    out: bool,
    lent: Snapshot<Vec<GroupState>>,
    /// Room for the groups to go out in.
    groups: Vec<Group>,
}

// Reads when the least event of each group is.
fn read_nexts(group_states: &[GroupState], nexts: &mut [Time])
    requires { length nexts.old ≡ length group_states.now }
    ensures { nexts.new ≡ nexts_of (states_of group_states.now) }
{
    for number in 0..group_states.len() {
        nexts[number] = next_of(&group_states[number]);
    }
}

// The least of these moments; where there is none, the last moment that there is.
fn least(nexts: &[Time]) -> Time
    ensures { result ≡ least_moment nexts.now }
{
    let mut least = Time::MAX;
    for next in nexts {
        least = least.min(*next);
    }
    least
}

impl Model for GroupTable {
    ghost use Rattle.window_core.specs.GroupTables.{GroupTableValue};
    ghost use Rattle.window_core.specs.GroupTableCode.{group_table_code};

    ghost Value = { GroupTableValue };

    ghost coded = { group_table_code };

    ghost use Rattle.window_core.specs.GroupTableOf.{group_table_of, IsGroupTable};

    ghost view = { group_table_of };

    ghost invariant = { IsGroupTable };
}

impl GroupTable {
    /// These groups, with memory for a moment of each, and room for them to go out in.
    pub(super) fn new(
        group_states: Vec<GroupState>,
        mut nexts: Vec<Time>,
        groups: Vec<Group>,
    ) -> GroupTable
        requires few { length group_states.items ≤ 64 }
        requires nexts { length nexts.items ≡ length group_states.items }
        requires room { (groups.items ≡ []) × (length group_states.items ≤ vec_capacity groups) }
        ensures { result ≡ record { groups = group_states.items; out = false } }
    {
        read_nexts(&group_states, &mut nexts);
        let reported = reported(&group_states);
        let lent = Snapshot::of(&group_states);
        GroupTable {
            group_states,
            nexts,
            least: None,
            reported,
            out: false,
            lent,
            groups,
        }
    }

    /// How many groups there are.
    #[inline(always)]
    pub(super) fn len(&self) -> usize
        requires { self.now.out ≡ false }
        ensures { result ≡ length self.now.groups }
    {
        self.group_states.len()
    }

    /// How many groups have an event below a moment.
    pub(super) fn busy(&self, moment: Time) -> usize {
        let mut count: usize = 0;
        for next in &self.nexts {
            count = count.saturating_add(usize::from(*next < moment));
        }
        count
    }

    /// The groups.
    pub(super) fn group_states(&self) -> &[GroupState]
        requires { self.now.out ≡ false }
        ensures { result.now ≡ self.now.groups }
    {
        &self.group_states
    }

    /// When the least event of all groups is, in nanoseconds.
    pub(super) fn soonest(&self) -> Option<Time>
        requires { self.now.out ≡ false }
        ensures { result ≡ soonest (states_of self.now.groups) }
    {
        let least = match self.least {
            Some(least) => least,
            None => least(&self.nexts),
        };
        if least < Time::MAX {
            Some(least)
        } else {
            soonest(&self.group_states)
        }
    }

    /// Has when the least event of all groups is read, for those who ask before the next change.
    pub(super) fn read_least(&mut self)
        requires { self.old.out ≡ false }
        ensures { self.new ≡ self.old }
    {
        self.least = Some(least(&self.nexts));
    }

    /// Whether no group has an event before a moment.
    pub(super) fn all_done(&self, until: Time) -> bool
        requires { self.now.out ≡ false }
        ensures { result ≡ all_done until (states_of self.now.groups) }
    {
        least(&self.nexts) >= until
    }

    /// How many lines all groups have told.
    pub(super) fn reported(&self) -> usize
        requires { self.now.out ≡ false }
        ensures count { result ≡ length (all_lines (states_of self.now.groups)) }
        ensures few { result ≤ 64000000000000000 }
        ensures are_groups { All IsGroup self.now.groups }
    {
        // The count is kept: this is for what it says of the groups.
        let _ = reported(&self.group_states);
        self.reported
    }

    /// A group runs its least event before a moment, where it has one. The answer is whether it had.
    pub(super) fn fire(&mut self, group: usize, until: Time) -> Result<bool, GroupFault>
        requires inside { self.old.out ≡ false }
        requires within { group < length self.old.groups }
        requires below { until ≤ (value_at self.old.groups group).until }
        requires on_run { IsOnRun (value_at self.old.groups group) }
        ensures state { self.new ≡ record self.old { groups = slice_set self.old.groups group (value_at self.new.groups group) } }
        ensures ok { IfOk result (λ fired. Fired until (value_at self.old.groups group) fired (value_at self.new.groups group)) }
        ensures after { AfterFirings until (value_at self.old.groups group) (value_at self.new.groups group) }
        ensures fits { (value_at self.new.groups group).position + length (value_at self.new.groups group).lines ≤ MOST_EVENTS }
        ensures fault { IfErr result (IsFaultAt until (value_at self.old.groups group)) }
        ensures err { OnErr result (self.new ≡ self.old) }
    {
        // With this many lines told, one group's more fit.
        let _ = reported(&self.group_states);
        let group_state = &mut self.group_states[group];
        let before = group_state.reported();
        let fired = group_state.fire_below(until);
        self.reported = self.reported + reported_by(group_state) - before;
        self.nexts[group] = next_of(group_state);
        self.least = None;
        fired
    }

    // A group runs its events before a moment.
    fn run_due(&mut self, group: usize, until: Time) -> Result<(), GroupFault>
        requires inside { self.old.out ≡ false }
        requires within { group < length self.old.groups }
        requires below { until ≤ (value_at self.old.groups group).until }
        requires on_run { IsOnRun (value_at self.old.groups group) }
        ensures state { self.new ≡ record self.old { groups = slice_set self.old.groups group (value_at self.new.groups group) } }
        ensures after { AfterFirings until (value_at self.old.groups group) (value_at self.new.groups group) }
        ensures done { OnOk result (due (up_to until (state_of (value_at self.new.groups group))) ≡ None) }
        ensures fault { IfErr result (IsFaultAt until (value_at self.new.groups group)) }
    {
        // With this many lines told, one group's more fit.
        let _ = reported(&self.group_states);
        let group_state = &mut self.group_states[group];
        let before = group_state.reported();
        let ran = group_state.run(until);
        self.reported = self.reported + reported_by(group_state) - before;
        self.nexts[group] = next_of(group_state);
        self.least = None;
        ran
    }

    /// A group runs its events before a moment, one after another. Where it has none, it isn't
    /// touched.
    #[inline(always)]
    pub(super) fn run(&mut self, group: usize, until: Time) -> Result<(), GroupFault>
        requires inside { self.old.out ≡ false }
        requires within { group < length self.old.groups }
        requires below { until ≤ (value_at self.old.groups group).until }
        requires on_run { IsOnRun (value_at self.old.groups group) }
        ensures state { self.new ≡ record self.old { groups = slice_set self.old.groups group (value_at self.new.groups group) } }
        ensures after { AfterFirings until (value_at self.old.groups group) (value_at self.new.groups group) }
        ensures done { OnOk result (due (up_to until (state_of (value_at self.new.groups group))) ≡ None) }
        ensures fault { IfErr result (IsFaultAt until (value_at self.new.groups group)) }
    {
        if self.nexts[group] >= until {
            return Ok(());
        }
        self.run_due(group, until)
    }

    /// The sheaf has the lines that the groups have told, so many in all, after so many events. Where
    /// memory is refused it is empty.
    pub(super) fn gather(
        &mut self,
        sheaf: &mut Sheaf,
        position: u64,
        count: usize,
    ) -> Result<(), AllocError>
        requires inside { self.old.out ≡ false }
        requires apart { AreApart (each (λ (g : GroupValue). g.lines) self.old.groups) }
        requires count { count ≡ length (all_of (each (λ (g : GroupValue). g.lines) self.old.groups)) }
        requires fits { position + count ≤ MOST_EVENTS }
        ensures sheaf { OnOk result (sheaf.new ≡ record { first = position + 1; lists = each (λ (g : GroupValue). g.lines) self.old.groups }) }
        ensures groups { OnOk result (self.new ≡ record self.old { groups = each (λ (g : GroupValue). record g { lines = []; position = position + count }) self.old.groups }) }
        ensures err { OnErr result (self.new ≡ self.old) }
    {
        gather(sheaf, &mut self.group_states, position, count)?;
        self.reported = 0;
        Ok(())
    }

    /// Has the memory of a sheaf's lines back, for groups that have told none; the sheaf is then
    /// empty.
    pub(super) fn reclaim(&mut self, sheaf: &mut Sheaf)
        requires { self.old.out ≡ false }
        ensures same { self.new ≡ self.old }
        ensures empty { (merged sheaf.new).lines ≡ [] }
    {
        give_back(sheaf, &mut self.group_states);
    }

    /// The outgoing messages of each group go to the others.
    pub(super) fn hand_all(&mut self, partition: &Partition, links: &[LinkEnds], alloc: Global)
        requires inside { self.old.out ≡ false }
        requires ready { AreReady partition.now links.now self.old.groups }
        ensures handed { HasHanded partition.now links.now self.old.groups self.new.groups }
        ensures rest { self.new ≡ record self.old { groups = self.new.groups } }
    {
        hand_all(
            &mut self.group_states,
            &mut self.nexts,
            partition,
            links,
            alloc,
        );
        self.least = None;
    }

    /// Names the moment before which each group may run events.
    pub(super) fn set_until(&mut self, until: Time)
        requires { self.old.out ≡ false }
        ensures { self.new ≡ record self.old { groups = each (λ (g : GroupValue). record g { until = until }) self.old.groups } }
    {
        set_until(&mut self.group_states, until);
    }

    /// Hands the groups out. No memory is taken.
    pub(super) fn hand_out(&mut self, alloc: Global) -> Vec<Group>
        requires inside { self.old.out ≡ false }
        requires on_run { All IsOnRun self.old.groups }
        ensures groups { result.items ≡ self.old.groups }
        ensures state { self.new ≡ record self.old { out = true } }
    {
        self.lent = Snapshot::of(&self.group_states);
        self.out = true;
        let mut groups = Vec::new(alloc);
        std::mem::swap(&mut self.groups, &mut groups);
        lend(&mut self.group_states, &mut groups);
        groups
    }

    /// Has the groups back. No memory is taken.
    pub(super) fn take_back(&mut self, groups: Vec<Group>)
        requires out { self.old.out ≡ true }
        requires count { length groups.items ≡ length self.old.groups }
        ensures { self.new ≡ record { groups = groups.items; out = false } }
    {
        self.groups = groups;
        regain(&mut self.groups, &mut self.group_states);
        read_nexts(&self.group_states, &mut self.nexts);
        self.least = None;
        self.reported = reported(&self.group_states);
        self.out = false;
    }
}
