//! The lines of a window, in the order of their keys.
ghost use Rattle.std.specs.Prelude.{◌≡◌, ◌==◌, ◌<◌, [], length, IfOk};
ghost use Rattle.node_core.specs.TraceLine.{shown};
ghost use Rattle.line_merge.specs.Merged.{all_of, line_in};
ghost use Rattle.line_merge.specs.Sheaves.{merged};

use crate::merge::merge;
use crate::merge::spot::Spot;
use crate::sheaf::Sheaf;
use node_core::Line;
use std::alloc::{AllocError, Global};
use std::marker::Model;
use std::mem::replace;
use tournament::KeyTournament;

/// The lines of a window in the order of their keys, and the number of the first. The lines stay
/// where they were written, group by group; their order is kept beside them.
#[derive(Drop)]
pub struct Batch {
    /// The lines of each group.
    sheaf: Sheaf,
    /// Where the lines stand.
    order: Vec<Spot>,
}

impl Model for Batch {
    ghost use Rattle.line_merge.specs.Batches.{BatchValue};
    ghost use Rattle.line_merge.specs.BatchCode.{batch_code};

    ghost Value = { BatchValue };

    ghost coded = { batch_code };

    ghost use Rattle.line_merge.specs.BatchOf.{batch_of, IsBatch};

    ghost view = { batch_of };

    ghost invariant = { IsBatch };
}

impl Batch {
    /// No line, where the next to come has this number. No memory is taken.
    pub fn new(alloc: Global, first: u64) -> Batch
        ensures { result ≡ record { first = first; lines = [] } }
    {
        Batch {
            sheaf: Sheaf::new(alloc, first),
            order: Vec::new(alloc),
        }
    }

    /// How many lines.
    pub fn len(&self) -> usize
        ensures { result ≡ length self.now.lines }
    {
        self.order.len()
    }

    /// Whether there is no line.
    pub fn is_empty(&self) -> bool
        ensures { result ≡ (length self.now.lines == 0) }
    {
        self.order.is_empty()
    }

    /// How many lines there are beside those of the group that has most.
    pub fn beside_most(&self) -> usize {
        self.sheaf.beside_most()
    }

    /// The number of the first line in the run, from 1 on; of the next to come where there is none.
    pub fn first(&self) -> u64
        ensures { result ≡ self.now.first }
    {
        self.sheaf.first()
    }

    /// The line at an index.
    pub fn line(&self, index: usize) -> &Line
        requires { index < length self.now.lines }
        ensures { shown result.now ≡ line_in self.now.lines index }
    {
        self.sheaf.line(self.order[index])
    }

    /// The lines of a sheaf. The memory for their order is given, as long as there are lines.
    pub fn of(
        sheaf: Sheaf,
        nexts: &mut [usize],
        tournament: &mut KeyTournament,
        mut order: Vec<Spot>,
    ) -> Batch
        requires nexts { length nexts.old ≡ length sheaf.lists }
        requires tournament { length tournament.old ≡ length sheaf.lists }
        requires order { length order.items ≡ length (all_of sheaf.lists) }
        ensures batch { result ≡ merged sheaf }
        ensures sizes { length tournament.new ≡ length tournament.old }
    {
        merge(&sheaf.lists, nexts, tournament, &mut order);
        Batch { sheaf, order }
    }

    /// Its memory, with room for the order of so many lines. The batch is then empty,
    /// where memory is refused too.
    pub fn take_room(&mut self, count: usize) -> Result<(Sheaf, Vec<Spot>), AllocError>
        ensures room { IfOk result (λ room. length room.1.items ≡ count) }
        ensures empty { self.new.lines ≡ [] }
    {
        self.order.clear();
        self.order.resize(count, Spot { list: 0, index: 0 })?;
        let alloc = *self.order.allocator();
        let order = replace(&mut self.order, Vec::new(alloc));
        Ok((replace(&mut self.sheaf, Sheaf::new(alloc, 0)), order))
    }
}
