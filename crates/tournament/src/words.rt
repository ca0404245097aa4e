//! A tree of words, flat: a word tells a time and a place, node j has the lesser of the words of nodes 2j and
//! 2j + 1, and the last half of the nodes have those of the places themselves.
ghost use Rattle.std.specs.Prelude.{◌≡◌, ◌+◌, ◌*◌, ◌/◌, ◌^◌, ◌<◌, ◌≤◌, ℕ, length, slice_index, slice_set, IfOk};
ghost use Rattle.tournament.specs.Words.{no_time, late_time, word_of as word_is, time_by as time_is, reported_at, AreVacant, AreSameLeaves, AllLesser, IsClimbing};

use crate::matches::beside;
use sim_time::Time;
use std::alloc::{AllocError, Global};

/// How many places a word tells apart: by its lower 12 bits.
const PLACES: u64 = 4096;

/// What a word tells in the place of a time where there is none: the last that it can.
pub(crate) const NO_TIME: Time = (1 << 52) - 1;

/// What a word tells in the place of this time and of each later one, which stand apart: the last before that.
pub(crate) const LATE_TIME: Time = (1 << 52) - 2;

// The word that tells this time, or what stands in the place of one, at a place. Of two words the lesser
// tells the lesser, or of the same the lower place.
#[inline(always)]
fn word_of(reported: Time, place: usize) -> u64
    requires place { place < 4096 }
    requires reported { reported ≤ no_time }
    ensures { result ≡ word_is reported place }
{
    reported * PLACES + place as u64
}

/// What a word tells, and its place.
#[inline(always)]
pub(crate) fn reported(word: u64) -> (Time, usize)
    ensures time { result.0 ≡ word / 4096 }
    ensures place { result.0 * 4096 + result.1 ≡ word }
{
    (word / PLACES, (word % PLACES) as usize)
}

/// The time of a place, or none, by what its word tells and by the time that stands apart.
pub(crate) fn time_by(reported: Time, apart: Time) -> Option<Time>
    ensures { result ≡ time_is reported apart }
{
    if reported < LATE_TIME {
        Some(reported)
    } else if reported > LATE_TIME {
        None
    } else {
        Some(apart)
    }
}

// How far the words of the nodes above a place are chosen.
#[derive(Clone, Copy)]
struct WordClimb {
    // The node whose word was chosen last.
    at: usize,
    // The word that it has.
    word: u64,
}

// Chooses the word of the next node.
#[inline(always)]
fn rise(tree: &mut [u64], climb: WordClimb) -> WordClimb
    requires inner { 1 < climb.at }
    requires climbing { IsClimbing tree.old climb.at climb.word }
    ensures half { result.at ≡ climb.at / 2 }
    ensures leaves { AreSameLeaves tree.old tree.new }
    ensures climbing { IsClimbing tree.new result.at result.word }
{
    // Which is less cannot be guessed, so it is chosen with no branch.
    let word = climb.word.min(tree[beside(climb.at)]);
    let node = climb.at / 2;
    tree[node] = word;
    WordClimb { at: node, word }
}

// Chooses the word of the next node where the last node is not below this one.
#[inline(always)]
fn rise_below(tree: &mut [u64], climb: WordClimb, bound: usize) -> WordClimb
    requires bound { 1 < bound }
    requires near { climb.at < 2 * bound }
    requires climbing { IsClimbing tree.old climb.at climb.word }
    ensures below { result.at < bound }
    ensures leaves { AreSameLeaves tree.old tree.new }
    ensures climbing { IsClimbing tree.new result.at result.word }
{
    if climb.at >= bound {
        rise(tree, climb)
    } else {
        climb
    }
}

// Chooses words until the last node is below 128.
#[inline(always)]
fn rise_far(tree: &mut [u64], start: WordClimb) -> WordClimb
    requires climbing { IsClimbing tree.old start.at start.word }
    ensures below { result.at < 128 }
    ensures leaves { AreSameLeaves tree.old tree.new }
    ensures climbing { IsClimbing tree.new result.at result.word }
{
    let mut climb = start;
    while climb.at >= 128 {
        climb = rise(tree, climb);
    }
    climb
}

// Chooses words until the last node is below 16.
#[inline(always)]
fn rise_high(tree: &mut [u64], climb: WordClimb) -> WordClimb
    requires climbing { IsClimbing tree.old climb.at climb.word }
    ensures below { result.at < 16 }
    ensures leaves { AreSameLeaves tree.old tree.new }
    ensures climbing { IsClimbing tree.new result.at result.word }
{
    if climb.at < 16 {
        return climb;
    }
    let climb = rise_far(tree, climb);
    let climb = rise_below(tree, climb, 64);
    let climb = rise_below(tree, climb, 32);
    rise_below(tree, climb, 16)
}

// Chooses words until the last node is below 8. Most trees are small, so that is looked for first.
#[inline(always)]
fn rise_to_small(tree: &mut [u64], climb: WordClimb) -> WordClimb
    requires climbing { IsClimbing tree.old climb.at climb.word }
    ensures below { result.at < 8 }
    ensures leaves { AreSameLeaves tree.old tree.new }
    ensures climbing { IsClimbing tree.new result.at result.word }
{
    if climb.at < 8 {
        return climb;
    }
    let climb = rise_high(tree, climb);
    rise_below(tree, climb, 8)
}

// Chooses the root's word, where the last node is not the root itself. The root has its number here, which costs less
// than half of another.
#[inline(always)]
fn end_at_root(tree: &mut [u64], climb: WordClimb)
    requires near { climb.at < 4 }
    requires climbing { IsClimbing tree.old climb.at climb.word }
    ensures leaves { AreSameLeaves tree.old tree.new }
    ensures lesser { AllLesser tree.new }
{
    if climb.at >= 2 {
        tree[1] = climb.word.min(tree[beside(climb.at)]);
    }
}

// Chooses the words of all nodes above one. Each of the last levels has a branch of its own, since
// how many there are differs from timetable to timetable, and the end of one loop for all could not be guessed.
#[inline(always)]
fn rise_up(tree: &mut [u64], climb: WordClimb)
    requires climbing { IsClimbing tree.old climb.at climb.word }
    ensures leaves { AreSameLeaves tree.old tree.new }
    ensures lesser { AllLesser tree.new }
{
    let climb = rise_to_small(tree, climb);
    let climb = rise_below(tree, climb, 4);
    end_at_root(tree, climb);
}

/// Has the word of a place, of so many, tell this, and chooses the words of all nodes above it.
#[inline(always)]
pub(crate) fn change(tree: &mut [u64], places: usize, place: usize, reported: Time)
    requires place { place < places }
    requires few { places ≤ 2 ^ 12 }
    requires size { length tree.old ≡ 2 * places }
    requires reported { reported ≤ no_time }
    requires lesser { AllLesser tree.old }
    ensures leaves { AreSameLeaves (slice_set tree.old (places + place) (word_is reported place)) tree.new }
    ensures lesser { AllLesser tree.new }
{
    let word = word_of(reported, place);
    let leaf = places + place;
    tree[leaf] = word;
    rise_up(tree, WordClimb { at: leaf, word });
}

// A word for each node, where none is chosen yet: the last half tell that so many places have no time.
fn unchosen(alloc: Global, places: usize) -> Result<Vec<u64>, AllocError>
    requires few { places ≤ 2 ^ 12 }
    ensures size { IfOk result (λ tree. length tree.items ≡ 2 * places) }
    ensures words { IfOk result (λ tree. AreVacant places tree.items) }
{
    let mut tree = vec![in alloc; 0u64; places]?;
    for place in 0..places {
        tree.push(word_of(NO_TIME, place))?;
    }
    Ok(tree)
}

/// The tree of so many places with no time. It has a root even where there is no place.
pub(crate) fn no_times(alloc: Global, places: usize) -> Result<Vec<u64>, AllocError>
    requires few { places ≤ 2 ^ 12 }
    ensures rooted { IfOk result (λ tree. 1 < length tree.items) }
    ensures size { 0 < places → IfOk result (λ tree. length tree.items ≡ 2 * places) }
    ensures none { places ≡ 0 → IfOk result (λ tree. reported_at tree.items 1 ≡ no_time) }
    ensures words { IfOk result (λ tree. AreVacant places tree.items) }
    ensures lesser { IfOk result (λ tree. AllLesser tree.items) }
{
    let leaves = places.max(1);
    let mut tree = unchosen(alloc, leaves)?;
    choose_all(leaves, &mut tree);
    Ok(tree)
}

// Chooses the word of each node after those below it.
fn choose_all(places: usize, tree: &mut [u64])
    requires size { length tree.old ≡ 2 * places }
    ensures leaves { (p : ℕ) → places ≤ p → slice_index tree.new p ≡ slice_index tree.old p }
    ensures lesser { AllLesser tree.new }
{
    let mut at = places;
    while at > 1 {
        at -= 1;
        tree[at] = tree[2 * at].min(tree[2 * at + 1]);
    }
}
