//! Groups go out of a window and come back.
ghost use Rattle.std.specs.Prelude.{◌≡◌, ◌≤◌, [], All, length, vec_capacity};
ghost use Rattle.node_group.specs.Group.{IsOnRun};

use node_group::{Group, GroupState};

/// Makes groups of all group states, in their order. No memory is taken.
pub fn lend(group_states: &mut Vec<GroupState>, groups: &mut Vec<Group>)
    requires on_run { All IsOnRun group_states.old.items }
    requires empty { groups.old.items ≡ [] }
    requires room { length group_states.old.items ≤ vec_capacity groups.old }
    ensures groups { groups.new.items ≡ group_states.old.items }
    ensures group_states { group_states.new.items ≡ [] }
    ensures room { vec_capacity group_states.new ≡ vec_capacity group_states.old }
{
    while let Some(group_state) = group_states.pop() {
        groups.push_reserved(Group::new(group_state));
    }
    groups.reverse();
}

/// Makes group states of all groups, in their order. No memory is taken.
pub fn regain(groups: &mut Vec<Group>, group_states: &mut Vec<GroupState>)
    requires empty { group_states.old.items ≡ [] }
    requires room { length groups.old.items ≤ vec_capacity group_states.old }
    ensures group_states { group_states.new.items ≡ groups.old.items }
    ensures groups { groups.new.items ≡ [] }
    ensures room { vec_capacity groups.new ≡ vec_capacity groups.old }
{
    while let Some(group) = groups.pop() {
        group_states.push_reserved(group.into_group_state());
    }
    group_states.reverse();
}
