//! What groups have come to.
ghost use Rattle.std.specs.Prelude.{◌≡◌, ◌≤◌, All, length};
ghost use Rattle.sim_time.specs.declared.limits.TheConstants.{MOST_EVENTS};
ghost use Rattle.node_group.specs.Group.{IsGroup, state_of};
ghost use Rattle.window_law.specs.Lookahead.{lesser};
ghost use Rattle.window_core.specs.Window.{states_of};
ghost use Rattle.window_core.specs.GroupTables.{next_of_group};
ghost use Rattle.window_law.specs.Windows.{all_lines, soonest};

use node_group::GroupState;
use sim_time::Time;

/// When the least event of a group is, in nanoseconds; the last moment that there is where it has
/// none.
pub fn next_of(group_state: &GroupState) -> Time
    ensures { result ≡ next_of_group (state_of group_state.now) }
{
    match group_state.next() {
        Some(time) => time,
        None => Time::MAX,
    }
}

// The lesser of two moments, where there are such.
fn lesser_of(first: Option<Time>, second: Option<Time>) -> Option<Time>
    ensures { result ≡ lesser first second }
{
    match (first, second) {
        (Some(first), Some(second)) => Some(first.min(second)),
        (None, second) => second,
        (first, None) => first,
    }
}

/// When the least event of all groups is, in nanoseconds.
pub fn soonest(group_states: &[GroupState]) -> Option<Time>
    ensures { result ≡ soonest (states_of group_states.now) }
{
    let mut least = None;
    for group_state in group_states {
        least = lesser_of(least, group_state.next());
    }
    least
}

/// How many lines a group has told.
pub fn reported_by(group_state: &GroupState) -> usize
    ensures count { result ≡ length group_state.now.lines }
    ensures few { result ≤ MOST_EVENTS }
    ensures is_group { IsGroup group_state.now }
{
    let _ = group_state.number();
    group_state.reported()
}

/// How many lines all groups have told.
pub fn reported(group_states: &[GroupState]) -> usize
    requires { length group_states.now ≤ 64 }
    ensures count { result ≡ length (all_lines (states_of group_states.now)) }
    ensures few { result ≤ 64000000000000000 }
    ensures are_groups { All IsGroup group_states.now }
{
    let mut count = 0;
    for group_state in group_states {
        count += reported_by(group_state);
    }
    count
}
