//! The memory of a sheaf's lines goes back to the groups.
ghost use Rattle.std.specs.Prelude.{◌≡◌, ◌≤◌, ℕ, [], length};
ghost use Rattle.line_merge.specs.Merged.{lines_of};
ghost use Rattle.line_merge.specs.Sheaves.{merged};

use line_merge::{Lines, Sheaf};
use node_group::GroupState;

// A list gives its memory to a group that has told no line, and has no line then.
fn give_one(lines: &mut Lines, group_state: &mut GroupState)
    ensures lines { lines.new ≡ [] }
    ensures group_state { group_state.new ≡ group_state.old }
{
    let reported = lines.len() > 0;
    let mut items = lines.take_memory(usize::MAX);
    if reported {
        group_state.take_memory(&mut items);
    }
    *lines = Lines::of(items, 0);
}

// Each list gives its memory to the group of its number, where that has told no line.
fn give_each(lists: &mut [Lines], group_states: &mut [GroupState])
    requires size { length lists.old ≡ length group_states.old }
    ensures none { (i : ℕ) → lines_of lists.new i ≡ [] }
    ensures group_states { group_states.new ≡ group_states.old }
{
    for at in 0..group_states.len() {
        give_one(&mut lists[at], &mut group_states[at]);
    }
}

// The same, where there is a list for each group; else the lists go.
fn give_all(lists: &mut Vec<Lines>, group_states: &mut [GroupState])
    ensures few { length lists.new.items ≤ length lists.old.items }
    ensures none { (i : ℕ) → lines_of lists.new.items i ≡ [] }
    ensures group_states { group_states.new ≡ group_states.old }
{
    if lists.len() == group_states.len() {
        give_each(lists, group_states);
    } else {
        lists.clear();
    }
}

/// Gives the memory of a sheaf's lines back to the groups that have told none, where it has a list
/// for each group. It is then empty.
pub(crate) fn give_back(sheaf: &mut Sheaf, group_states: &mut [GroupState])
    ensures empty { (merged sheaf.new).lines ≡ [] }
    ensures group_states { group_states.new ≡ group_states.old }
{
    let mut lists = sheaf.take_lists();
    give_all(&mut lists, group_states);
    *sheaf = Sheaf::of_lists(lists, 0, sheaf.first());
}
