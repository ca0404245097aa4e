//! Lines of several lists in the order of their keys, by a tournament over the lists: no line is
//! moved.
ghost use Rattle.std.specs.Prelude.{◌≡◌, ◌+◌, ◌<◌, ◌∷◌, length, map as each, replicate, All};
ghost use Rattle.line_merge.specs.Merged.{AreApart, AreNext, IsSpot, all_of, first_key, line_at, lines_at_spots, rests};
ghost use Rattle.window_law.specs.Windows.{in_order};

pub mod ahead;
pub mod spot;

use self::spot::Spot;
use crate::sheaf::lines::Lines;
use tournament::KeyTournament;

/// Has the keys of the next lines.
pub(crate) fn rank_nexts(lists: &[Lines], nexts: &[usize], tournament: &mut KeyTournament)
    requires nexts { length nexts.now ≡ length lists.now }
    requires tournament { length tournament.old ≡ length lists.now }
    ensures { AreNext lists.now nexts.now tournament.new }
{
    // Where no place has a key, a list with no line left needs no call.
    let vacant = tournament.first().is_none();
    for (number, lines) in lists.iter().enumerate() {
        let key = lines.key(nexts[number]);
        if !vacant || key.is_some() {
            tournament.set(number, key);
        }
    }
}

// The first line of each list is its next.
fn begin(lists: &[Lines], nexts: &mut [usize], tournament: &mut KeyTournament)
    requires nexts { length nexts.old ≡ length lists.now }
    requires tournament { length tournament.old ≡ length lists.now }
    ensures nexts { nexts.new ≡ replicate (length lists.now) 0 }
    ensures next { AreNext lists.now nexts.new tournament.new }
{
    nexts.fill(0);
    rank_nexts(lists, nexts, tournament);
}

// The spot of the line of the least key among those that are left; that line is then gone.
pub(crate) fn next_spot(
    lists: &[Lines],
    nexts: &mut [usize],
    tournament: &mut KeyTournament,
) -> Spot
    requires next { AreNext lists.now nexts.old tournament.old }
    requires apart { AreApart lists.now }
    requires some { 0 < length (all_of (rests lists.now nexts.old)) }
    ensures spot { IsSpot lists.now result }
    ensures order { in_order (all_of (rests lists.now nexts.old)) ≡ line_at lists.now result ∷ in_order (all_of (rests lists.now nexts.new)) }
    ensures fewer { length (all_of (rests lists.now nexts.old)) ≡ length (all_of (rests lists.now nexts.new)) + 1 }
    ensures next { AreNext lists.now nexts.new tournament.new }
{
    let Some((list, _)) = tournament.first() else {
        unreachable!()
    };
    let index = nexts[list];
    let lines = &lists[list];
    let next = lines.after(index);
    nexts[list] = next;
    tournament.set(list, lines.key(next));
    Spot { list, index }
}

/// Writes the spots of all lines, by the keys of the lines.
pub(crate) fn merge(
    lists: &[Lines],
    nexts: &mut [usize],
    tournament: &mut KeyTournament,
    order: &mut [Spot],
)
    requires nexts { length nexts.old ≡ length lists.now }
    requires tournament { length tournament.old ≡ length lists.now }
    requires order { length order.old ≡ length (all_of lists.now) }
    requires apart { AreApart lists.now }
    ensures merged { lines_at_spots lists.now order.new ≡ in_order (all_of lists.now) }
    ensures spots { All (IsSpot lists.now) order.new }
    ensures count { length (in_order (all_of lists.now)) ≡ length (all_of lists.now) }
    ensures sizes { length tournament.new ≡ length lists.now }
{
    begin(lists, nexts, tournament);
    for spot in order.iter_mut() {
        *spot = next_spot(lists, nexts, tournament);
    }
}
