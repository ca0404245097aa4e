//! Where a merge of a sheaf's lines stands.
ghost use Rattle.std.specs.Prelude.{◌≡◌, ◌≤◌, ◌^◌, [], length, IfOk, OnOk, OnErr};

use std::alloc::{AllocError, Global};
use std::marker::Model;
use tournament::KeyTournament;

/// Where a merge stands in a sheaf. Its memory is used again.
#[derive(Drop)]
pub struct Cursor {
    /// How many lines are before it.
    pub(super) at: usize,
    /// The index of the next line of each group.
    pub(super) nexts: Vec<usize>,
    /// The moments of those lines, where groups are few.
    pub(super) moments: Vec<u64>,
    /// Their keys, where groups are many.
    pub(super) tournament: KeyTournament,
}

impl Model for Cursor {
    ghost use Rattle.line_merge.specs.Sheaves.{CursorValue};
    ghost use Rattle.line_merge.specs.SheafCode.{cursor_code};

    ghost Value = { CursorValue };

    ghost coded = { cursor_code };

    ghost view = { λ c. record { at = c.at; nexts = c.nexts.items; moments = c.moments.items; ranks = c.tournament } };
}

impl Cursor {
    /// A cursor that stands in no sheaf of any group yet.
    pub fn new(alloc: Global) -> Result<Cursor, AllocError>
        ensures { IfOk result (λ cursor. cursor ≡ record { at = 0; nexts = []; moments = []; ranks = [] }) }
    {
        Ok(Cursor {
            at: 0,
            nexts: Vec::new(alloc),
            moments: Vec::new(alloc),
            tournament: KeyTournament::new(alloc, 0)?,
        })
    }

    /// A cursor behind so many lines, with room for so many groups.
    fn with_room(alloc: Global, at: usize, places: usize) -> Result<Cursor, AllocError>
        requires { places ≤ 2 ^ 31 }
        ensures nexts { IfOk result (λ cursor. length cursor.nexts ≡ places) }
        ensures moments { IfOk result (λ cursor. length cursor.moments ≡ places) }
        ensures ranks { IfOk result (λ cursor. length cursor.ranks ≡ places) }
    {
        Ok(Cursor {
            at,
            nexts: vec![in alloc; 0usize; places]?,
            moments: vec![in alloc; 0u64; places]?,
            tournament: KeyTournament::new(alloc, places)?,
        })
    }

    /// Has room for so many groups. Where memory is refused it stays.
    pub(super) fn fit(&mut self, alloc: Global, places: usize) -> Result<(), AllocError>
        requires { places ≤ 2 ^ 31 }
        ensures nexts { OnOk result (length self.new.nexts ≡ places) }
        ensures moments { OnOk result (length self.new.moments ≡ places) }
        ensures ranks { OnOk result (length self.new.ranks ≡ places) }
        ensures err { OnErr result (self.new ≡ self.old) }
    {
        if self.nexts.len() != places
            || self.moments.len() != places
            || self.tournament.places() != places
        {
            *self = Cursor::with_room(alloc, self.at, places)?;
        }
        Ok(())
    }

    /// How many lines are before it.
    pub fn at(&self) -> usize
        ensures { result ≡ self.now.at }
    {
        self.at
    }
}
