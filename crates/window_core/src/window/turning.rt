//! A turn brings the groups of a window together.
ghost use Rattle.std.specs.Prelude.{◌≡◌, map as each, true, false, IfOk, OnOk, OnErr};
ghost use Rattle.table_run.specs.State.{State};
ghost use Rattle.window_core.specs.Acting.{nothing_after};
ghost use Rattle.window_core.specs.Faults.{IsTurnAnswer};
ghost use Rattle.node_group.specs.Group.{GroupValue};
ghost use Rattle.line_merge.specs.Sheaves.{merged};
ghost use Rattle.window_core.specs.Turning.{CanTurn};
ghost use Rattle.window_core.specs.Window.{IsFrom, HasGoneOn, HasTurned, states_of};
ghost use Rattle.window_law.specs.Windows.{AreBelow, none_fired};

use super::Window;
use crate::ahead::window_end;
use line_merge::{Batch, Sheaf};
use sim_time::MOST_EVENTS;
use std::mem::{replace, swap};

/// Why no turn was taken.
#[derive(Clone, Copy)]
pub enum TurnFault {
    /// A group has an event before the window's end.
    NotDone,
    /// With the groups' lines there would be more events than there may be.
    CountFull,
    /// There was no memory.
    NoMemory,
}

impl Window {
    // How many lines the groups have told, where a turn can be taken.
    fn ready(&self) -> Result<usize, TurnFault>
        requires { self.now.out ≡ false }
        ensures ok { IfOk result (λ count. CanTurn self.now count) }
        ensures reported { IsTurnAnswer self.now result }
    {
        if !self.group_table.all_done(self.until) {
            return Err(TurnFault::NotDone);
        }
        let _ = self.partition.groups();
        let count = self.group_table.reported();
        if self.position + count as u64 > MOST_EVENTS {
            return Err(TurnFault::CountFull);
        }
        Ok(count)
    }

    // The turn that can be taken, with so many lines.
    fn turn_with(&mut self, sheaf: &mut Sheaf, count: usize) -> Result<(), TurnFault>
        requires inside { self.old.out ≡ false }
        requires can { CanTurn self.old count }
        ensures ok { OnOk result (HasTurned self.old (merged sheaf.new) self.new) }
        ensures run { OnOk result ((edge : State) → IsFrom edge self.old → HasGoneOn edge (merged sheaf.new).lines self.new) }
        ensures below { OnOk result (AreBelow self.old.until (merged sheaf.new).lines) }
        ensures lists { OnOk result (sheaf.new.lists ≡ each (λ (g : GroupValue). g.lines) self.old.groups) }
        ensures reported { IsTurnAnswer self.old result }
        ensures err { OnErr result (self.new ≡ self.old) }
    {
        let _ = self.partition.groups();
        let gathered = self.group_table.gather(sheaf, self.position, count);
        if gathered.is_err() {
            return Err(TurnFault::NoMemory);
        }
        self.position += count as u64;
        self.group_table
            .hand_all(&self.partition, &self.links, self.alloc);
        self.group_table.read_least();
        self.until = window_end(self.group_table.soonest(), self.ahead, self.end);
        self.group_table.set_until(self.until);
        Ok(())
    }

    /// Brings the groups together where none has an event left before the window's end: the sheaf
    /// has the window's lines, group by group, each group has the others' messages, and the
    /// next window begins. Where no turn is taken nothing changes, but the sheaf may be empty.
    pub fn turn_apart(&mut self, sheaf: &mut Sheaf) -> Result<(), TurnFault>
        requires { self.old.out ≡ false }
        ensures ok { OnOk result (HasTurned self.old (merged sheaf.new) self.new) }
        ensures run { OnOk result ((edge : State) → IsFrom edge self.old → HasGoneOn edge (merged sheaf.new).lines self.new) }
        ensures below { OnOk result (AreBelow self.old.until (merged sheaf.new).lines) }
        ensures lists { OnOk result (sheaf.new.lists ≡ each (λ (g : GroupValue). g.lines) self.old.groups) }
        ensures reported { IsTurnAnswer self.old result }
        ensures err { OnErr result (self.new ≡ self.old) }
    {
        let count = self.ready()?;
        self.turn_with(sheaf, count)
    }

    /// Brings the groups together where none has an event left before the window's end: the batch
    /// has the window's lines, each group has the others' messages, and the next window
    /// begins. Where no turn is taken nothing changes, but the batch may be empty. What was `taken`
    /// stays.
    pub fn turn_into(&mut self, batch: &mut Batch) -> Result<(), TurnFault>
        requires { self.old.out ≡ false }
        ensures ok { OnOk result (HasTurned self.old batch.new self.new) }
        ensures run { OnOk result ((edge : State) → IsFrom edge self.old → HasGoneOn edge batch.new.lines self.new) }
        ensures below { OnOk result (AreBelow self.old.until batch.new.lines) }
        ensures reported { IsTurnAnswer self.old result }
        ensures err { OnErr result (self.new ≡ self.old) }
    {
        let count = self.ready()?;
        let Ok((mut sheaf, order)) = batch.take_room(count) else {
            return Err(TurnFault::NoMemory);
        };
        self.turn_with(&mut sheaf, count)?;
        *batch = Batch::of(sheaf, &mut self.nexts, &mut self.tournament, order);
        Ok(())
    }

    /// The same, with the batch that is then taken.
    pub(super) fn turn_over(&mut self) -> Result<(), TurnFault>
        requires { self.old.out ≡ false }
        ensures ok { OnOk result (HasTurned self.old self.new.taken (record self.new { taken = self.old.taken })) }
        ensures run { OnOk result ((edge : State) → IsFrom edge self.old → HasGoneOn edge self.new.taken.lines self.new) }
        ensures inside { self.new.out ≡ false }
        ensures reported { IsTurnAnswer self.old result }
        ensures err { OnErr result (self.new ≡ self.old) }
    {
        let mut batch = replace(&mut self.spare, Batch::new(self.alloc, 0));
        let turned = self.turn_into(&mut batch);
        if turned.is_ok() {
            swap(&mut self.taken, &mut batch);
        }
        self.spare = batch;
        turned
    }

    /// Brings the groups together where none has an event left before the window's end: the answer
    /// has the window's lines, each group has the others' messages, and the next window
    /// begins. Where no turn is taken nothing changes.
    pub fn turn(&mut self) -> Result<Batch, TurnFault>
        requires { self.old.out ≡ false }
        ensures ok { IfOk result (λ batch. HasTurned self.old batch (record self.new { taken = self.old.taken })) }
        ensures run { IfOk result (λ batch. (edge : State) → IsFrom edge self.old → HasGoneOn edge batch.lines self.new) }
        ensures taken { IfOk result (λ batch. self.new.taken ≡ nothing_after self.new.position) }
        ensures inside { self.new.out ≡ false }
        ensures unfired { IfOk result (λ batch. none_fired (states_of self.new.groups) ≡ true) }
        ensures reported { IsTurnAnswer self.old result }
        ensures err { OnErr result (self.new ≡ self.old) }
    {
        self.turn_over()?;
        let next = Batch::new(self.alloc, self.position + 1);
        Ok(replace(&mut self.taken, next))
    }
}
