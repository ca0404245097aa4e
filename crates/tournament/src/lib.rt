//! The least of keys that change one at a time: a tournament tree over places, each with a key or
//! none.
//!
//! Node j of the tree has the place that comes first of those that nodes 2j and 2j + 1 have, and
//! the last half of the nodes have the places themselves; node 1 is the root, and node 0 is not
//! used. A change of one place plays the matches from there up to the root again, one a level; reading
//! the least is one read. This is the tree of winners of Knuth, The Art of Computer Programming,
//! volume 3, section 5.4.1: the nodes hold numbers of places, and the keys stand once, at their
//! places.
//!
//! Which of two keys is less cannot be guessed, so most matches are played with no branch on it: each
//! place has a moment, the time and the node of its key as one word, or a later one that is its own where
//! it has none, and of two moments the lesser is chosen. Only where two are the same are the keys compared.
#![tactic(auto)]

mod entry;
mod matches;
mod timetable;
mod tournament;
mod words;

pub use entry::moment_of;
pub use timetable::Timetable;
pub use tournament::KeyTournament;
