//! Lines of the trace in memory that is used again.
ghost use Rattle.std.specs.Prelude.{◌≡◌, ◌+◌, ◌<◌, ◌≤◌, [], length, map as each, take};
ghost use Rattle.std.specs.List.{slice_get};
ghost use Rattle.std.specs.Option.{option_map};
ghost use Rattle.node_core.specs.TraceLine.{TraceLine, shown};
ghost use Rattle.line_merge.specs.Merged.{line_in};
ghost use Rattle.line_merge.specs.Sheaves.{IsCut, IsRising};

use node_core::Line;
use sim_time::{Key, Time};
use std::alloc::Global;
use std::marker::Model;
use std::mem::replace;

/// Lines in their order. Behind them are others of no meaning, to be written over.
#[derive(Drop)]
pub struct Lines {
    /// The lines, and behind them those of no meaning.
    items: Vec<Line>,
    /// How many count.
    count: usize,
}

impl Model for Lines {
    ghost use Rattle.std.specs.Prelude.{List, ◌≤◌, map as each, take, vec_len};
    ghost use Rattle.node_core.specs.TraceLine.{TraceLine, shown};

    ghost Value = { List TraceLine };

    ghost view = { λ l. each shown (take l.count l.items.items) };

    ghost invariant = { λ l. l.count ≤ vec_len l.items };
}

impl Lines {
    /// No line.
    pub fn new(alloc: Global) -> Lines
        ensures { result ≡ [] }
    {
        Lines {
            items: Vec::new(alloc),
            count: 0,
        }
    }

    /// The first of these, so many. The others are memory for the next.
    pub fn of(items: Vec<Line>, count: usize) -> Lines
        requires { count ≤ length items.items }
        ensures { result ≡ each shown (take count items.items) }
    {
        Lines { items, count }
    }

    /// Gives its memory away, for so many lines at most, and has no line then. What the memory holds
    /// has no meaning.
    pub fn take_memory(&mut self, most: usize) -> Vec<Line>
        ensures { self.new ≡ [] }
    {
        self.count = 0;
        if self.items.len() > most {
            self.items.truncate(most);
            self.items.shrink_to_fit();
        }
        let alloc = *self.items.allocator();
        replace(&mut self.items, Vec::new(alloc))
    }

    /// How many lines.
    pub fn len(&self) -> usize
        ensures { result ≡ length self.now }
    {
        self.count
    }

    /// The line at an index.
    pub(crate) fn line(&self, index: usize) -> &Line
        requires { index < length self.now }
        ensures { shown result.now ≡ line_in self.now index }
    {
        &self.items[index]
    }

    /// The index behind that of a line.
    pub(crate) fn after(&self, index: usize) -> usize
        requires { index < length self.now }
        ensures { result ≡ index + 1 }
    {
        prove!(index < self.count);
        index + 1
    }

    /// The key of the line at an index; past the last there is none.
    pub(crate) fn key(&self, index: usize) -> Option<Key>
        ensures { result ≡ option_map (λ (line : TraceLine). line.key) (slice_get self.now index) }
    {
        if index < self.count {
            Some(self.items[index].key)
        } else {
            None
        }
    }

    /// How many lines are before a moment, in nanoseconds.
    pub(crate) fn before(&self, moment: Time) -> usize
        requires { IsRising self.now }
        ensures within { result ≤ length self.now }
        ensures cut { IsCut moment result self.now }
    {
        self.items[..self.count].partition_point(|line| line.key.time < moment)
    }
}
