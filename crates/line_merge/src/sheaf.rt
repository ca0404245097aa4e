//! The lines of a window, group by group: threads can merge them in parts.
ghost use Rattle.std.specs.Prelude.{◌≡◌, ◌==◌, ◌+◌, ◌<◌, ◌≤◌, [], length, None, IfSome};
ghost use Rattle.sim_time.specs.declared.limits.TheConstants.{MOST_EVENTS};
ghost use Rattle.node_core.specs.TraceLine.{shown};
ghost use Rattle.line_merge.specs.Ahead.{HasNext};
ghost use Rattle.line_merge.specs.Merged.{AreApart, IsSpot, all_of, line_at, line_in, rests};
ghost use Rattle.line_merge.specs.Sheaves.{HasBefore, StandsIn, merged};

mod beginning;
mod cursor;
pub(crate) mod lines;
mod parting;

pub use self::cursor::Cursor;
pub use self::lines::Lines;
use crate::merge::ahead::{next_list, pass};
use crate::merge::spot::Spot;
use node_core::Line;
use sim_time::Time;
use std::alloc::Global;
use std::marker::Model;
use std::mem::replace;

/// The lines of a window, group by group as they were written, and the number of the first in the
/// run. Any number of cursors may merge parts of them at the same time.
#[derive(Drop)]
pub struct Sheaf {
    /// The lines of each group.
    pub(crate) lists: Vec<Lines>,
    /// How many lines.
    count: usize,
    /// The number of the first line in the run, from 1 on; of the next to come where there is none.
    first: u64,
}

impl Model for Sheaf {
    ghost use Rattle.line_merge.specs.Sheaves.{SheafValue};
    ghost use Rattle.line_merge.specs.SheafCode.{sheaf_code};

    ghost Value = { SheafValue };

    ghost coded = { sheaf_code };

    ghost use Rattle.line_merge.specs.SheafOf.{sheaf_of, IsSheaf};

    ghost view = { sheaf_of };

    ghost invariant = { IsSheaf };
}

impl Sheaf {
    /// No line, where the next to come has this number. No memory is taken.
    pub fn new(alloc: Global, first: u64) -> Sheaf
        ensures { result ≡ record { first = first; lists = [] } }
    {
        Sheaf {
            lists: Vec::new(alloc),
            count: 0,
            first,
        }
    }

    /// The lines of these lists, so many in all, of which the first has this number in the run.
    pub fn of_lists(lists: Vec<Lines>, count: usize, first: u64) -> Sheaf
        requires few { length lists.items ≤ 64 }
        requires apart { AreApart lists.items }
        requires count { count ≡ length (all_of lists.items) }
        requires few_lines { count ≤ MOST_EVENTS }
        ensures { result ≡ record { first = first; lists = lists.items } }
    {
        Sheaf {
            lists,
            count,
            first,
        }
    }

    /// Gives its lists away, and has no line then.
    pub fn take_lists(&mut self) -> Vec<Lines>
        ensures lists { result.items ≡ self.old.lists }
        ensures few { length result.items ≤ 64 }
        ensures empty { self.new ≡ record { first = self.old.first; lists = [] } }
    {
        let alloc = *self.lists.allocator();
        self.count = 0;
        replace(&mut self.lists, Vec::new(alloc))
    }

    /// How many lines.
    pub fn len(&self) -> usize
        ensures { result ≡ length (merged self.now).lines }
    {
        self.count
    }

    /// Whether there is no line.
    pub fn is_empty(&self) -> bool
        ensures { result ≡ (length (merged self.now).lines == 0) }
    {
        self.count == 0
    }

    /// The number of the first line in the run, from 1 on; of the next to come where there is none.
    pub fn first(&self) -> u64
        ensures { result ≡ self.now.first }
    {
        self.first
    }

    /// How many lines there are beside those of the group that has most.
    pub fn beside_most(&self) -> usize {
        let mut most = 0;
        for list in &self.lists {
            most = list.len().max(most);
        }
        self.count.saturating_sub(most)
    }

    /// The line at a spot.
    pub(crate) fn line(&self, spot: Spot) -> &Line
        requires { IsSpot self.now.lists spot }
        ensures { shown result.now ≡ line_at self.now.lists spot }
    {
        self.lists[spot.list].line(spot.index)
    }

    /// The list that has the next line.
    #[inline(always)]
    fn next_list(&self, cursor: &mut Cursor) -> usize
        requires at { StandsIn self.now cursor.old }
        requires some { cursor.old.at < length (merged self.now).lines }
        ensures next { HasNext (rests self.now.lists cursor.new.nexts) result }
        ensures at { StandsIn self.now cursor.new }
        ensures stays { cursor.new.at ≡ cursor.old.at }
    {
        next_list(
            &self.lists,
            &cursor.nexts,
            &cursor.moments,
            &mut cursor.tournament,
        )
    }

    /// The next line, in the list that has it.
    #[inline(always)]
    fn next_in(&self, cursor: &Cursor, list: usize) -> &Line
        requires at { StandsIn self.now cursor.now }
        requires next { HasNext (rests self.now.lists cursor.now.nexts) list }
        ensures { shown result.now ≡ line_in (merged self.now).lines cursor.now.at }
    {
        let lines = &self.lists[list];
        lines.line(cursor.nexts[list])
    }

    /// Puts a cursor behind the next line, in the list that has it.
    #[inline(always)]
    fn pass(&self, cursor: &mut Cursor, list: usize)
        requires at { StandsIn self.now cursor.old }
        requires next { HasNext (rests self.now.lists cursor.old.nexts) list }
        ensures at { StandsIn self.now cursor.new }
        ensures count { cursor.new.at ≡ cursor.old.at + 1 }
    {
        pass(
            &self.lists,
            &mut cursor.nexts,
            &mut cursor.moments,
            &mut cursor.tournament,
            list,
        );
        prove!(cursor.at < self.count);
        cursor.at += 1;
    }

    /// The next line in the order of the keys. The cursor is then behind it.
    #[inline(always)]
    pub fn next(&self, cursor: &mut Cursor) -> &Line
        requires at { StandsIn self.now cursor.old }
        requires some { cursor.old.at < length (merged self.now).lines }
        ensures line { shown result.now ≡ line_in (merged self.now).lines cursor.old.at }
        ensures at { StandsIn self.now cursor.new }
        ensures count { cursor.new.at ≡ cursor.old.at + 1 }
    {
        let list = self.next_list(cursor);
        let line = self.next_in(cursor, list);
        self.pass(cursor, list);
        line
    }

    /// The same where the next line is before a moment, in nanoseconds; else, or where none is left, the cursor stays.
    #[inline(always)]
    pub fn next_before(&self, cursor: &mut Cursor, moment: Time) -> Option<&Line>
        requires at { StandsIn self.now cursor.old }
        ensures line { IfSome result (λ line. shown line.now ≡ line_in (merged self.now).lines cursor.old.at) }
        ensures before { IfSome result (λ line. HasBefore self.now cursor.old moment) }
        ensures count { IfSome result (λ line. cursor.new.at ≡ cursor.old.at + 1) }
        ensures none { result ≡ None → ¬ HasBefore self.now cursor.old moment }
        ensures stays { result ≡ None → cursor.new.at ≡ cursor.old.at }
        ensures at { StandsIn self.now cursor.new }
    {
        if cursor.at >= self.count {
            return None;
        }
        let list = self.next_list(cursor);
        let line = self.next_in(cursor, list);
        if line.key.time >= moment {
            return None;
        }
        self.pass(cursor, list);
        Some(line)
    }
}
