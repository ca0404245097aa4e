//! The lines of all groups come into a sheaf.
ghost use Rattle.std.specs.Prelude.{◌≡◌, ◌+◌, ◌≤◌, [], length, map as each, OnOk, OnErr};
ghost use Rattle.sim_time.specs.declared.limits.TheConstants.{MOST_EVENTS};
ghost use Rattle.node_core.specs.TraceLine.{TraceLine};
ghost use Rattle.line_merge.specs.Merged.{AreApart, all_of};
ghost use Rattle.node_group.specs.Group.{GroupValue};

use line_merge::{Lines, Sheaf};
use node_group::GroupState;
use std::alloc::AllocError;

/// For how many lines memory is kept from window to window, over all groups. A burst takes more.
const KEPT: usize = 32_768;

/// A group keeps memory for so many times the lines that it has just told, where that is more: what is given up in a
/// window and taken again in the next costs calls of the system, and each page of it is cleared.
const OF_REPORTED: usize = 2;

// As many lists as that; what they hold has no meaning.
fn fit(lists: &mut Vec<Lines>, count: usize) -> Result<(), AllocError>
    ensures { OnOk result (length lists.new.items ≡ count) }
{
    lists.truncate(count);
    for _number in lists.len()..count {
        let lines = Lines::new(*lists.allocator());
        lists.push(lines)?;
    }
    Ok(())
}

// Has the lines that a group has told, and gives the group its memory for others: for so many lines at most, or for
// twice as many as the group has just told, whichever is more.
fn take_from(lines: &mut Lines, group_state: &mut GroupState, position: u64, most: usize)
    requires { position ≤ MOST_EVENTS }
    ensures lines { lines.new ≡ group_state.old.lines }
    ensures group_state { group_state.new ≡ record group_state.old { lines = []; position = position } }
{
    let wanted = group_state.reported().saturating_mul(OF_REPORTED);
    let mut items = lines.take_memory(most.max(wanted));
    let count = group_state.take_lines(&mut items, position);
    *lines = Lines::of(items, count);
}

// The lines of each group go into the list of its number.
fn take_lines(lists: &mut [Lines], group_states: &mut [GroupState], position: u64)
    requires size { length lists.old ≡ length group_states.old }
    requires position { position ≤ MOST_EVENTS }
    ensures lists { lists.new ≡ each (λ (g : GroupValue). g.lines) group_states.old }
    ensures group_states { group_states.new ≡ each (λ (g : GroupValue). record g { lines = []; position = position }) group_states.old }
{
    let most = KEPT / group_states.len().max(1);
    for at in 0..group_states.len() {
        take_from(&mut lists[at], &mut group_states[at], position, most);
    }
}

/// The sheaf has the lines that the groups have told, so many in all, after so many events: then the
/// groups have told none, and stand after those too. Where memory is refused the sheaf is empty.
pub(crate) fn gather(
    sheaf: &mut Sheaf,
    group_states: &mut [GroupState],
    position: u64,
    count: usize,
) -> Result<(), AllocError>
    requires few { length group_states.old ≤ 64 }
    requires apart { AreApart (each (λ (g : GroupValue). g.lines) group_states.old) }
    requires count { count ≡ length (all_of (each (λ (g : GroupValue). g.lines) group_states.old)) }
    requires fits { position + count ≤ MOST_EVENTS }
    ensures sheaf { OnOk result (sheaf.new ≡ record { first = position + 1; lists = each (λ (g : GroupValue). g.lines) group_states.old }) }
    ensures group_states { OnOk result (group_states.new ≡ each (λ (g : GroupValue). record g { lines = []; position = position + count }) group_states.old) }
    ensures err { OnErr result (group_states.new ≡ group_states.old) }
{
    let mut lists = sheaf.take_lists();
    fit(&mut lists, group_states.len())?;
    take_lines(&mut lists, group_states, position + count as u64);
    *sheaf = Sheaf::of_lists(lists, count, position + 1);
    Ok(())
}
