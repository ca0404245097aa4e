//! Which list has the next line. Where lists are few, the least of the moments of their next lines is looked for:
//! which list that is cannot be guessed, and a tournament would wait for one game after another.
ghost use Rattle.std.specs.Prelude.{◌≡◌, ◌≢◌, ◌+◌, ◌<◌, ◌^◌, ◌∷◌, ℕ, false, length, slice_index};
ghost use Rattle.std.specs.List.{slice_get};
ghost use Rattle.std.specs.Option.{option_map};
ghost use Rattle.node_core.specs.TraceLine.{TraceLine};
ghost use Rattle.line_merge.specs.Ahead.{HasNext, IsAhead, next_moment_in};
ghost use Rattle.line_merge.specs.Merged.{AreApart, all_of, lines_of, line_in, rests};
ghost use Rattle.window_law.specs.Windows.{in_order};

use super::rank_nexts;
use crate::sheaf::lines::Lines;
use tournament::{KeyTournament, moment_of};

/// So many lists are few.
const FEW: usize = 8;

/// The moment of the line at an index of a list; past the last line a later one, which no other list has.
#[inline(always)]
fn moment_at(lines: &Lines, index: usize, list: usize) -> u64
    requires { list < 2 ^ 31 }
    ensures { result ≡ next_moment_in list (option_map (λ (line : TraceLine). line.key) (slice_get lines.now index)) }
{
    match lines.key(index) {
        Some(key) => moment_of(key.time, key.node, list as u32, true),
        None => moment_of(0, 0, list as u32, false),
    }
}

/// The place of a moment than which none is less, out of four, and whether there may be another as early: by two games
/// and a last one, so that fewer of them wait for each other.
#[inline(always)]
fn least_of_four(moments: &[u64]) -> (usize, bool)
    requires four { length moments.now ≡ 4 }
    ensures within { result.0 < 4 }
    ensures least { result.1 ≡ false → (i : ℕ) → i < 4 → i ≢ result.0 → slice_index moments.now result.0 < slice_index moments.now i }
{
    let (first, second) = (moments[0], moments[1]);
    let (third, fourth) = (moments[2], moments[3]);
    let (front, back) = (first.min(second), third.min(fourth));
    let tied = (first == second) | (third == fourth) | (front == back);
    // Which is less cannot be guessed, so it is chosen with no branch.
    let in_front = if second < first { 1 } else { 0 };
    let behind = if fourth < third { 3 } else { 2 };
    let least = if back < front { behind } else { in_front };
    (least, tied)
}

/// The place of a moment than which none is less, and whether there may be another as early.
#[inline(always)]
fn least_of(moments: &[u64]) -> (usize, bool)
    requires { 0 < length moments.now }
    ensures within { result.0 < length moments.now }
    ensures least { result.1 ≡ false → (i : ℕ) → i < length moments.now → i ≢ result.0 → slice_index moments.now result.0 < slice_index moments.now i }
{
    if moments.len() == 4 {
        return least_of_four(moments);
    }
    let mut least = 0;
    let mut moment = moments[0];
    let mut tied = false;
    for place in 1..moments.len() {
        let its = moments[place];
        tied = tied | (its == moment);
        // Which is less cannot be guessed, so it is chosen with no branch.
        least = if its < moment { place } else { least };
        moment = moment.min(its);
    }
    (least, tied)
}

/// The list whose next line has the least key, by whole keys.
#[cold]
#[inline(never)]
fn list_of_least_key(lists: &[Lines], nexts: &[usize], tournament: &mut KeyTournament) -> usize
    requires nexts { length nexts.now ≡ length lists.now }
    requires tournament { length tournament.old ≡ length lists.now }
    requires some { 0 < length (all_of (rests lists.now nexts.now)) }
    ensures next { HasNext (rests lists.now nexts.now) result }
    ensures tournament { length tournament.new ≡ length lists.now }
{
    rank_nexts(lists, nexts, tournament);
    tournament.leader().0
}

/// The list whose next line has the least key, where some list has a line left.
#[inline(always)]
pub(crate) fn next_list(
    lists: &[Lines],
    nexts: &[usize],
    moments: &[u64],
    tournament: &mut KeyTournament,
) -> usize
    requires ahead { IsAhead lists.now nexts.now moments.now tournament.old }
    requires some { 0 < length (all_of (rests lists.now nexts.now)) }
    ensures next { HasNext (rests lists.now nexts.now) result }
    ensures ahead { IsAhead lists.now nexts.now moments.now tournament.new }
{
    if lists.len() > FEW {
        return tournament.leader().0;
    }
    let (list, tied) = least_of(moments);
    if tied {
        return list_of_least_key(lists, nexts, tournament);
    }
    list
}

/// Goes behind the next line, of the list that has it.
#[inline(always)]
pub(crate) fn pass(
    lists: &[Lines],
    nexts: &mut [usize],
    moments: &mut [u64],
    tournament: &mut KeyTournament,
    list: usize,
)
    requires ahead { IsAhead lists.now nexts.old moments.old tournament.old }
    requires apart { AreApart lists.now }
    requires few { length lists.now < 2 ^ 31 }
    requires next { HasNext (rests lists.now nexts.old) list }
    ensures order { in_order (all_of (rests lists.now nexts.old)) ≡ line_in (lines_of lists.now list) (slice_index nexts.old list) ∷ in_order (all_of (rests lists.now nexts.new)) }
    ensures fewer { length (all_of (rests lists.now nexts.old)) ≡ length (all_of (rests lists.now nexts.new)) + 1 }
    ensures ahead { IsAhead lists.now nexts.new moments.new tournament.new }
{
    let index = nexts[list];
    let lines = &lists[list];
    let next = lines.after(index);
    nexts[list] = next;
    if lists.len() > FEW {
        tournament.set(list, lines.key(next));
    } else {
        moments[list] = moment_at(lines, next, list);
    }
}

/// Has the moments of the next lines.
fn date_nexts(lists: &[Lines], nexts: &[usize], moments: &mut [u64])
    requires few { length lists.now < 2 ^ 31 }
    requires nexts { length nexts.now ≡ length lists.now }
    requires moments { length moments.old ≡ length lists.now }
    ensures { (i : ℕ) → i < length lists.now → slice_index moments.new i ≡ next_moment_in i (option_map (λ (line : TraceLine). line.key) (slice_get (lines_of lists.now i) (slice_index nexts.now i))) }
{
    for (list, lines) in lists.iter().enumerate() {
        moments[list] = moment_at(lines, nexts[list], list);
    }
}

/// Looks at the next line of each list.
pub(crate) fn look_ahead(
    lists: &[Lines],
    nexts: &[usize],
    moments: &mut [u64],
    tournament: &mut KeyTournament,
)
    requires few { length lists.now < 2 ^ 31 }
    requires nexts { length nexts.now ≡ length lists.now }
    requires moments { length moments.old ≡ length lists.now }
    requires tournament { length tournament.old ≡ length lists.now }
    ensures { IsAhead lists.now nexts.now moments.new tournament.new }
{
    if lists.len() > FEW {
        rank_nexts(lists, nexts, tournament);
    } else {
        date_nexts(lists, nexts, moments);
    }
}
