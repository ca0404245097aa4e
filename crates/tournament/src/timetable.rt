//! The places with their times, and the least of them.
ghost use Rattle.std.specs.Prelude.{◌≡◌, ◌^◌, ◌<◌, ◌≤◌, ℕ, length, replicate, slice_set, IfOk, IfSome, MatchOption, Some, None, true};
ghost use Rattle.tournament.specs.Timed.{time_at, IsSoonest, IsSoonestOrPast};
ghost use Rattle.tournament.specs.Words.{late_time};

use crate::words::{LATE_TIME, NO_TIME, change, no_times, reported, time_by};
use sim_time::Time;
use std::alloc::{AllocError, Global};
use std::marker::Model;

/// A time, or none, at each of a number of places, and the least of them at hand, the lowest such
/// place: for keys that at one time stand in the order of their places.
#[derive(Drop)]
pub struct Timetable {
    /// The words that tell the times and their places, and which places have none or a late one.
    tree: Vec<u64>,
    /// The time of each place that has a late one, which no word tells, and of the others any.
    late: Vec<Time>,
}

impl Model for Timetable {
    ghost use Rattle.std.specs.Prelude.{List, Option, ℕ};
    ghost use Rattle.tournament.specs.Words.{times_reported, IsTimetable};

    ghost Value = { List (Option ℕ) };

    ghost view = { λ t. times_reported t.late.items t.tree.items };

    ghost invariant = { λ t. IsTimetable t.late.items t.tree.items };
}

// The first entry, or this one where it is sooner or there is none.
fn sooner(first: Option<(usize, Time)>, place: usize, time: Time) -> Option<(usize, Time)>
    ensures none { first ≡ None → result ≡ Some (place, time) }
    ensures less { IfSome first (λ entry. time < entry.1 → result ≡ Some (place, time)) }
    ensures most { IfSome first (λ entry. entry.1 ≤ time → result ≡ first) }
{
    match first {
        Some((_, least)) if least <= time => first,
        _ => Some((place, time)),
    }
}

impl Timetable {
    /// So many places with no time.
    pub fn new(alloc: Global, places: usize) -> Result<Timetable, AllocError>
        requires { places ≤ 2 ^ 12 }
        ensures { IfOk result (λ timetable. timetable ≡ replicate places None) }
    {
        let late = vec![in alloc; 0u64; places]?;
        let tree = no_times(alloc, places)?;
        Ok(Timetable { tree, late })
    }

    /// How many places.
    pub fn places(&self) -> usize
        ensures { result ≡ length self.now }
    {
        self.late.len()
    }

    /// Gives a place this time, or none.
    #[inline(always)]
    pub fn set(&mut self, place: usize, time: Option<Time>)
        requires { place < length self.old }
        ensures { self.new ≡ slice_set self.old place time }
    {
        match time {
            Some(time) => self.hold(place, time),
            None => self.vacate(place),
        }
    }

    // Gives a place this time.
    #[inline(never)]
    fn hold(&mut self, place: usize, time: Time)
        requires { place < length self.old }
        ensures { self.new ≡ slice_set self.old place (Some time) }
    {
        if time >= LATE_TIME {
            return self.hold_late(place, time);
        }
        change(&mut self.tree, self.late.len(), place, time);
    }

    // The same with a time that no word tells.
    #[cold]
    #[inline(never)]
    fn hold_late(&mut self, place: usize, time: Time)
        requires place { place < length self.old }
        requires late { late_time ≤ time }
        ensures { self.new ≡ slice_set self.old place (Some time) }
    {
        self.late[place] = time;
        change(&mut self.tree, self.late.len(), place, LATE_TIME);
    }

    // Takes a place's time away.
    #[inline(never)]
    fn vacate(&mut self, place: usize)
        requires { place < length self.old }
        ensures { self.new ≡ slice_set self.old place None }
    {
        change(&mut self.tree, self.late.len(), place, NO_TIME);
    }

    // The time of a place, or none.
    fn time(&self, place: usize) -> Option<Time>
        requires { place < length self.now }
        ensures { result ≡ time_at self.now place }
    {
        let (time, _place) = reported(self.tree[self.late.len() + place]);
        time_by(time, self.late[place])
    }

    // The place of the least time, the lowest such place, and the time, by a look at each; where there is
    // none, how many places there are.
    #[cold]
    #[inline(never)]
    fn search(&self) -> (usize, Time)
        ensures { IsSoonestOrPast self.now result.0 result.1 }
    {
        let mut first: Option<(usize, Time)> = None;
        for place in 0..self.places() {
            if let Some(time) = self.time(place) {
                first = sooner(first, place, time);
            }
        }
        match first {
            Some(entry) => entry,
            None => (self.places(), 0),
        }
    }

    // The place of the least time, the lowest such place, and the time, where the root's word tells them.
    #[inline(always)]
    fn at_root(&self) -> Option<(usize, Time)>
        ensures { IfSome result (λ entry. IsSoonest self.now entry.0 entry.1) }
    {
        let (time, place) = reported(self.tree[1]);
        (time < LATE_TIME).then_some((place, time))
    }

    // Whether no place has a time.
    #[inline(always)]
    fn is_empty(&self) -> bool
        ensures { result ≡ true → (place : ℕ) → time_at self.now place ≡ None }
    {
        let (time, _place) = reported(self.tree[1]);
        time > LATE_TIME
    }

    /// The place of the least time, the lowest such place, and the time.
    #[inline(always)]
    pub fn first(&self) -> Option<(usize, Time)>
        ensures { MatchOption result ((place : ℕ) → time_at self.now place ≡ None) (λ entry. IsSoonest self.now entry.0 entry.1) }
    {
        if let Some(entry) = self.at_root() {
            return Some(entry);
        }
        if self.is_empty() {
            return None;
        }
        let entry = self.search();
        if entry.0 < self.places() {
            Some(entry)
        } else {
            None
        }
    }

    /// The same where some place has a time.
    #[inline(always)]
    pub fn leader(&self) -> (usize, Time)
        requires { ¬ ((place : ℕ) → time_at self.now place ≡ None) }
        ensures { IsSoonest self.now result.0 result.1 }
    {
        match self.at_root() {
            Some(entry) => entry,
            None => self.search(),
        }
    }

    /// A timetable of its own with the same times.
    pub fn copy(&self) -> Result<Timetable, AllocError>
        ensures { IfOk result (λ timetable. timetable ≡ self.now) }
    {
        Ok(Timetable {
            tree: self.tree.clone()?,
            late: self.late.clone()?,
        })
    }
}
