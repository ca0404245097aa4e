//! A tree of winners over places, flat: node j has the first of what nodes 2j and 2j + 1 have, and
//! the last half of the nodes have the places themselves.
ghost use Rattle.std.specs.Prelude.{◌≡◌, ◌≢◌, ℕ, ◌+◌, ◌*◌, ◌/◌, ◌^◌, ◌<◌, ◌≤◌, length, IfOk, IfSome, MatchOption};
ghost use Rattle.tournament.specs.Tournament.{AllWon, AreDated, AreOwn, AreWithin, moment_at, won_below};
ghost use Rattle.tournament.specs.Replayed.{WonBut, IsRisingMatch, IsReplayed};

use crate::entry::{Entry, precedes};
use std::alloc::{AllocError, Global};

// Plays the match of a node: which place comes first below it.
#[inline]
fn winner(leaves: &[Entry], moments: &[u64], winners: &[u32], at: usize) -> u32
    requires below { 2 * at + 1 < length winners.now }
    requires within { AreWithin (length leaves.now) winners.now }
    requires dated { AreDated leaves.now moments.now }
    ensures first { result ≡ won_below leaves.now winners.now at }
    ensures within { result < length leaves.now }
{
    let left = winners[2 * at] as usize;
    let right = winners[2 * at + 1] as usize;
    // Moments mostly differ. Which comes first cannot be guessed, so it is an index and no branch.
    let second = if moments[left] == moments[right] {
        precedes(&leaves[right], &leaves[left])
    } else {
        moments[right] < moments[left]
    };
    winners[2 * at + usize::from(second)]
}

// The node that is below the same node as this one.
#[inline(always)]
pub(crate) fn beside(at: usize) -> usize
    ensures other { result ≢ at }
    ensures below { result / 2 ≡ at / 2 }
{
    at ^ 1
}

// Plays the matches from a node up to the root by whole standings, as the moments of two are equal.
#[cold]
#[inline(never)]
fn matches_from(leaves: &[Entry], moments: &[u64], winners: &mut [u32], node: usize)
    requires size { length winners.old ≡ 2 * length leaves.now }
    requires node { node < length leaves.now }
    requires within { AreWithin (length leaves.now) winners.old }
    requires own { AreOwn (length leaves.now) winners.old }
    requires dated { AreDated leaves.now moments.now }
    requires won { WonBut leaves.now winners.old node }
    ensures within { AreWithin (length leaves.now) winners.new }
    ensures own { AreOwn (length leaves.now) winners.new }
    ensures won { AllWon leaves.now winners.new }
{
    let mut at = node;
    while at > 0 {
        winners[at] = winner(leaves, moments, winners, at);
        at /= 2;
    }
}

// How far the matches above a place are played.
#[derive(Clone, Copy)]
struct Climb {
    // The node whose match was played last.
    at: usize,
    // The place that it has.
    first: u32,
    // That place's moment.
    moment: u64,
}

// The place of the lesser of two moments that differ.
#[inline(always)]
fn lesser(climb: Climb, other: u32, its: u64) -> u32
    ensures other { its < climb.moment → result ≡ other }
    ensures first { climb.moment ≤ its → result ≡ climb.first }
{
    // Which comes first cannot be guessed, so it is chosen with no branch.
    if its < climb.moment {
        other
    } else {
        climb.first
    }
}

// Plays the next match. Where two have the same moment it plays all that are left, and there is nothing to go on
// with.
#[inline(always)]
fn rise(leaves: &[Entry], moments: &[u64], winners: &mut [u32], climb: Climb) -> Option<Climb>
    requires inner { 1 < climb.at }
    requires dated { AreDated leaves.now moments.now }
    requires rising { IsRisingMatch leaves.now winners.old climb.at climb.first climb.moment }
    ensures half { IfSome result (λ next. next.at ≡ climb.at / 2) }
    ensures rising { MatchOption result (IsReplayed leaves.now winners.new) (λ next. IsRisingMatch leaves.now winners.new next.at next.first next.moment) }
{
    let other = winners[beside(climb.at)];
    let its = moments[other as usize];
    let node = climb.at / 2;
    if its == climb.moment {
        matches_from(leaves, moments, winners, node);
        return None;
    }
    let first = lesser(climb, other, its);
    winners[node] = first;
    Some(Climb {
        at: node,
        first,
        moment: climb.moment.min(its),
    })
}

// Plays the next match where the last node is not below this one.
#[inline(always)]
fn rise_below(
    leaves: &[Entry],
    moments: &[u64],
    winners: &mut [u32],
    climb: Climb,
    bound: usize,
) -> Option<Climb>
    requires bound { 1 < bound }
    requires near { climb.at < 2 * bound }
    requires dated { AreDated leaves.now moments.now }
    requires rising { IsRisingMatch leaves.now winners.old climb.at climb.first climb.moment }
    ensures below { IfSome result (λ next. next.at < bound) }
    ensures rising { MatchOption result (IsReplayed leaves.now winners.new) (λ next. IsRisingMatch leaves.now winners.new next.at next.first next.moment) }
{
    if climb.at >= bound {
        rise(leaves, moments, winners, climb)
    } else {
        Some(climb)
    }
}

// Plays matches until the last node is below 128.
#[inline(always)]
fn rise_far(leaves: &[Entry], moments: &[u64], winners: &mut [u32], start: Climb) -> Option<Climb>
    requires dated { AreDated leaves.now moments.now }
    requires rising { IsRisingMatch leaves.now winners.old start.at start.first start.moment }
    ensures below { IfSome result (λ next. next.at < 128) }
    ensures rising { MatchOption result (IsReplayed leaves.now winners.new) (λ next. IsRisingMatch leaves.now winners.new next.at next.first next.moment) }
{
    let mut climb = start;
    while climb.at >= 128 {
        climb = rise(leaves, moments, winners, climb)?;
    }
    Some(climb)
}

// Plays matches until the last node is below 16.
#[inline(always)]
fn rise_high(leaves: &[Entry], moments: &[u64], winners: &mut [u32], climb: Climb) -> Option<Climb>
    requires dated { AreDated leaves.now moments.now }
    requires rising { IsRisingMatch leaves.now winners.old climb.at climb.first climb.moment }
    ensures below { IfSome result (λ next. next.at < 16) }
    ensures rising { MatchOption result (IsReplayed leaves.now winners.new) (λ next. IsRisingMatch leaves.now winners.new next.at next.first next.moment) }
{
    if climb.at < 16 {
        return Some(climb);
    }
    let climb = rise_far(leaves, moments, winners, climb)?;
    let climb = rise_below(leaves, moments, winners, climb, 64)?;
    let climb = rise_below(leaves, moments, winners, climb, 32)?;
    rise_below(leaves, moments, winners, climb, 16)
}

// Plays all matches that are left.
#[inline(always)]
fn rise_up(leaves: &[Entry], moments: &[u64], winners: &mut [u32], climb: Climb) -> Option<Climb>
    requires dated { AreDated leaves.now moments.now }
    requires rising { IsRisingMatch leaves.now winners.old climb.at climb.first climb.moment }
    ensures below { IfSome result (λ next. next.at < 2) }
    ensures rising { MatchOption result (IsReplayed leaves.now winners.new) (λ next. IsRisingMatch leaves.now winners.new next.at next.first next.moment) }
{
    let climb = rise_high(leaves, moments, winners, climb)?;
    let climb = rise_below(leaves, moments, winners, climb, 8)?;
    let climb = rise_below(leaves, moments, winners, climb, 4)?;
    rise_below(leaves, moments, winners, climb, 2)
}

/// Plays the matches above a place, whose entry has changed, from the place, of this moment, up to
/// the root. Each of the last levels has a branch of its own, since how many there are differs from tournament to
/// tournament, and the end of one loop for all could not be guessed.
#[inline(always)]
pub(crate) fn matches_above(
    leaves: &[Entry],
    moments: &[u64],
    winners: &mut [u32],
    place: u32,
    moment: u64,
)
    requires size { length winners.old ≡ 2 * length leaves.now }
    requires place { place < length leaves.now }
    requires moment { moment ≡ moment_at leaves.now place }
    requires within { AreWithin (length leaves.now) winners.old }
    requires own { AreOwn (length leaves.now) winners.old }
    requires dated { AreDated leaves.now moments.now }
    requires won { WonBut leaves.now winners.old ((length leaves.now + place) / 2) }
    ensures within { AreWithin (length leaves.now) winners.new }
    ensures own { AreOwn (length leaves.now) winners.new }
    ensures won { AllWon leaves.now winners.new }
{
    let climb = Climb {
        at: leaves.len() + place as usize,
        first: place,
        moment,
    };
    let _root = rise_up(leaves, moments, winners, climb);
}

// A place for each node, where no match is played yet: the last half have their own.
fn unplayed(alloc: Global, places: usize) -> Result<Vec<u32>, AllocError>
    requires { places ≤ 2 ^ 31 }
    ensures size { IfOk result (λ winners. length winners.items ≡ 2 * places) }
    ensures within { IfOk result (λ winners. AreWithin places winners.items) }
    ensures own { IfOk result (λ winners. AreOwn places winners.items) }
{
    let mut winners = vec![in alloc; 0u32; places]?;
    for place in 0..places {
        winners.push(place as u32)?;
    }
    Ok(winners)
}

/// The tree of these places: each match is played after those below it.
pub(crate) fn all_matches(
    alloc: Global,
    leaves: &[Entry],
    moments: &[u64],
) -> Result<Vec<u32>, AllocError>
    requires few { length leaves.now ≤ 2 ^ 31 }
    requires dated { AreDated leaves.now moments.now }
    ensures size { IfOk result (λ winners. length winners.items ≡ 2 * length leaves.now) }
    ensures within { IfOk result (λ winners. AreWithin (length leaves.now) winners.items) }
    ensures own { IfOk result (λ winners. AreOwn (length leaves.now) winners.items) }
    ensures won { IfOk result (λ winners. AllWon leaves.now winners.items) }
{
    let mut winners = unplayed(alloc, leaves.len())?;
    play_all(leaves, moments, &mut winners);
    Ok(winners)
}

// Plays each match after those below it.
fn play_all(leaves: &[Entry], moments: &[u64], winners: &mut [u32])
    requires size { length winners.old ≡ 2 * length leaves.now }
    requires within { AreWithin (length leaves.now) winners.old }
    requires own { AreOwn (length leaves.now) winners.old }
    requires dated { AreDated leaves.now moments.now }
    ensures within { AreWithin (length leaves.now) winners.new }
    ensures own { AreOwn (length leaves.now) winners.new }
    ensures won { AllWon leaves.now winners.new }
{
    let mut at = leaves.len();
    while at > 1 {
        at -= 1;
        winners[at] = winner(leaves, moments, winners, at);
    }
}
