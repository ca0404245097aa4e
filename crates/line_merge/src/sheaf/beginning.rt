//! A merge begins at a moment: each list is cut there.
ghost use Rattle.std.specs.Prelude.{◌≡◌, ◌+◌, ◌≤◌, length, replicate, OnOk, OnErr};
ghost use Rattle.sim_time.specs.declared.limits.TheConstants.{MOST_EVENTS};
ghost use Rattle.line_merge.specs.Merged.{AreApart, all_of, rests};
ghost use Rattle.line_merge.specs.Sheaves.{AreCuts, IsCut, StandsIn, merged};

use super::lines::Lines;
use super::{Cursor, Sheaf};
use crate::merge::ahead::look_ahead;
use sim_time::Time;
use std::alloc::AllocError;

// Has how many lines of each list are before a moment. The answer is how many are in all.
fn cut(lists: &[Lines], moment: Time, nexts: &mut [usize]) -> usize
    requires zeros { nexts.old ≡ replicate (length lists.now) 0 }
    requires apart { AreApart lists.now }
    requires few { length (all_of lists.now) ≤ MOST_EVENTS }
    ensures cuts { AreCuts moment lists.now nexts.new }
    ensures count { result + length (all_of (rests lists.now nexts.new)) ≡ length (all_of lists.now) }
{
    // Time begins at 0: nothing has to be looked for.
    if moment == 0 {
        return 0;
    }
    let mut at = 0;
    for (number, lines) in lists.iter().enumerate() {
        let next = lines.before(moment);
        nexts[number] = next;
        at += next;
    }
    at
}

impl Sheaf {
    /// Puts a cursor behind the lines before a moment, in nanoseconds. Where memory is refused it
    /// stays.
    pub fn begin_at(&self, cursor: &mut Cursor, moment: Time) -> Result<(), AllocError>
        ensures at { OnOk result (StandsIn self.now cursor.new) }
        ensures cut { OnOk result (IsCut moment cursor.new.at (merged self.now).lines) }
        ensures err { OnErr result (cursor.new ≡ cursor.old) }
    {
        cursor.fit(*self.lists.allocator(), self.lists.len())?;
        cursor.nexts.fill(0);
        cursor.at = cut(&self.lists, moment, &mut cursor.nexts);
        look_ahead(
            &self.lists,
            &cursor.nexts,
            &mut cursor.moments,
            &mut cursor.tournament,
        );
        Ok(())
    }
}
