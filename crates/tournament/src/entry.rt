//! A key at its place, and which of two comes first.
ghost use Rattle.std.specs.Prelude.{◌≡◌, ◌<◌, ◌^◌, false};
ghost use Rattle.std.specs.Ordering.{is_lt};
ghost use Rattle.tournament.specs.Tournament.{entry_cmp, moment_of, vacant_key};

use sim_time::{Key, Time, key_order};

/// How many nodes a moment tells apart. Those from the last of them on are one to it.
const NODES: u64 = 4_096;

/// The first time that a moment does not tell from later ones.
const FAR: Time = 1 << 51;

/// The moment of all keys of far times, the last that a key has. Those of places with no key follow it.
const LAST_MOMENT: u64 = FAR * NODES;

/// What a place has: a key, or none.
#[derive(Clone, Copy)]
pub struct Entry {
    /// The key, where there is one. Where there is none its time is the greatest.
    pub key: Key,
    /// The place's number.
    pub place: u32,
    /// Whether there is a key.
    pub held: bool,
}

/// The key of a place that has none.
#[inline(always)]
pub(crate) fn no_key() -> Key
    ensures { result ≡ vacant_key }
{
    Key {
        time: u64::MAX,
        node: 0,
        source: 0,
        number: 0,
    }
}

/// The moment of a place: the time and the node of its key as one word, at most the last moment; where
/// there is no key, a later moment, which no other place has. Of two places the one with the lesser moment
/// comes first.
#[inline(always)]
pub fn moment_of(time: Time, node: u16, place: u32, held: bool) -> u64
    requires { place < 2 ^ 31 }
    ensures { result ≡ moment_of time node place held }
{
    if held {
        let node = (node as u64).min(NODES - 1);
        (time.min(FAR) * NODES + node).min(LAST_MOMENT)
    } else {
        LAST_MOMENT + 1 + place as u64
    }
}

/// A place with no key.
pub(crate) fn vacant(place: u32) -> Entry
    ensures place { result.place ≡ place }
    ensures held { result.held ≡ false }
{
    Entry {
        key: no_key(),
        place,
        held: false,
    }
}

/// Whether `a` comes before `b`, by all that they have: a key before none, the lesser key, the lower
/// place.
#[inline]
pub(crate) fn precedes(a: &Entry, b: &Entry) -> bool
    ensures { result ≡ is_lt (entry_cmp a.now b.now) }
{
    if a.held != b.held {
        return a.held;
    }
    if !a.held {
        return a.place < b.place;
    }
    key_order(&a.key, &b.key)
        .then(a.place.cmp(&b.place))
        .is_lt()
}
