//! The places with their keys, and the least of them.
ghost use Rattle.std.specs.Prelude.{◌≡◌, ℕ, ◌+◌, ◌*◌, ◌^◌, ◌<◌, ◌≤◌, length, replicate, slice_index, slice_set, false, IfOk, MatchOption, Some, None, if◌then◌else◌};
ghost use Rattle.sim_time.specs.declared.key.Key.{Key};
ghost use Rattle.tournament.specs.Leading.{rank_at, Leads};
ghost use Rattle.tournament.specs.Tournament.{moment_of, IsVacantAt};

use crate::entry::{Entry, moment_of, no_key, vacant};
use crate::matches::{all_matches, matches_above};
use sim_time::{Key, Time};
use std::alloc::{AllocError, Global};
use std::marker::Model;

/// A key, or none, at each of a number of places, and the least of them at hand.
#[derive(Drop)]
pub struct KeyTournament {
    /// What each place has.
    leaves: Vec<Entry>,
    /// The moment of each place. They stand apart from the keys, so that a match reads one word of eight bytes.
    moments: Vec<u64>,
    /// Node j has the place that comes first below it.
    winners: Vec<u32>,
}

impl Model for KeyTournament {
    ghost use Rattle.std.specs.Prelude.{List, Option};
    ghost use Rattle.sim_time.specs.declared.key.Key.{Key};
    ghost use Rattle.tournament.specs.Tournament.{ranks_of, IsTournament};

    ghost Value = { List (Option Key) };

    ghost view = { λ r. ranks_of r.leaves.items };

    ghost invariant = { λ r. IsTournament r.leaves.items r.moments.items r.winners.items };
}

// So many places with no key.
fn vacancies(alloc: Global, places: usize) -> Result<Vec<Entry>, AllocError>
    requires { places ≤ 2 ^ 31 }
    ensures size { IfOk result (λ leaves. length leaves.items ≡ places) }
    ensures vacant { IfOk result (λ leaves. (p : ℕ) → p < places → IsVacantAt leaves.items p) }
{
    let mut leaves: Vec<Entry> = Vec::new(alloc);
    for place in 0..places {
        leaves.push(vacant(place as u32))?;
    }
    Ok(leaves)
}

// The moments of so many places with no key.
fn vacant_moments(alloc: Global, places: usize) -> Result<Vec<u64>, AllocError>
    requires { places ≤ 2 ^ 31 }
    ensures size { IfOk result (λ moments. length moments.items ≡ places) }
    ensures vacant { IfOk result (λ moments. (p : ℕ) → p < places → slice_index moments.items p ≡ moment_of 18446744073709551615 0 p false) }
{
    let mut moments: Vec<u64> = Vec::new(alloc);
    for place in 0..places {
        moments.push(moment_of(u64::MAX, 0, place as u32, false))?;
    }
    Ok(moments)
}

impl KeyTournament {
    /// So many places with no key.
    pub fn new(alloc: Global, places: usize) -> Result<KeyTournament, AllocError>
        requires { places ≤ 2 ^ 31 }
        ensures { IfOk result (λ tournament. tournament ≡ replicate places None) }
    {
        let leaves = vacancies(alloc, places)?;
        let moments = vacant_moments(alloc, places)?;
        let winners = all_matches(alloc, &leaves, &moments)?;
        Ok(KeyTournament {
            leaves,
            moments,
            winners,
        })
    }

    /// How many places.
    pub fn places(&self) -> usize
        ensures { result ≡ length self.now }
    {
        self.leaves.len()
    }

    /// Gives a place this key, or none.
    #[inline(always)]
    pub fn set(&mut self, place: usize, key: Option<Key>)
        requires { place < length self.old }
        ensures { self.new ≡ slice_set self.old place key }
    {
        match key {
            Some(key) => self.hold(place, key.time, key.node, key.source, key.number),
            None => self.vacate(place),
        }
    }

    // Gives a place the key of these numbers.
    #[inline(never)]
    fn hold(&mut self, place: usize, time: Time, node: u16, source: u16, number: u64)
        requires { place < length self.old }
        ensures { self.new ≡ slice_set self.old place (Some (record { time = time; node = node; source = source; number = number })) }
    {
        let key = Key {
            time,
            node,
            source,
            number,
        };
        self.put(place, key, true);
    }

    // Takes a place's key away.
    #[inline(never)]
    fn vacate(&mut self, place: usize)
        requires { place < length self.old }
        ensures { self.new ≡ slice_set self.old place None }
    {
        self.put(place, no_key(), false);
    }

    // Gives a place this key, where it is held, and none otherwise.
    #[inline(always)]
    fn put(&mut self, place: usize, key: Key, held: bool)
        requires { place < length self.old }
        ensures { self.new ≡ slice_set self.old place (if held then Some key else None) }
    {
        let leaves: &mut [Entry] = &mut self.leaves;
        let leaf = &mut leaves[place];
        leaf.key.time = key.time;
        leaf.key.node = key.node;
        leaf.key.source = key.source;
        leaf.key.number = key.number;
        leaf.held = held;
        let moment = moment_of(key.time, key.node, place as u32, held);
        self.moments[place] = moment;
        matches_above(
            leaves,
            &self.moments,
            &mut self.winners,
            place as u32,
            moment,
        );
    }

    /// The place of the least key, the lowest such place, and the key.
    pub fn first(&self) -> Option<(usize, Key)>
        ensures { MatchOption result ((place : ℕ) → rank_at self.now place ≡ None) (λ entry. Leads self.now entry.0 entry.1) }
    {
        if self.leaves.is_empty() {
            return None;
        }
        let place = self.winners[1] as usize;
        let leaf = &self.leaves[place];
        if leaf.held {
            Some((place, leaf.key))
        } else {
            None
        }
    }

    /// The same where some place has a key.
    #[inline(always)]
    pub fn leader(&self) -> (usize, Key)
        requires { ¬ ((place : ℕ) → rank_at self.now place ≡ None) }
        ensures { Leads self.now result.0 result.1 }
    {
        let place = self.winners[1] as usize;
        let leaf = &self.leaves[place];
        (place, leaf.key)
    }

    /// A tournament of its own with the same keys.
    pub fn copy(&self) -> Result<KeyTournament, AllocError>
        ensures { IfOk result (λ tournament. tournament ≡ self.now) }
    {
        Ok(KeyTournament {
            leaves: self.leaves.clone()?,
            moments: self.moments.clone()?,
            winners: self.winners.clone()?,
        })
    }
}
