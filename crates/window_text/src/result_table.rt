//! Where the threads of a window lay down what they made of its text.
ghost use Rattle.std.specs.Prelude.{◌≡◌, IfOk};
ghost use Rattle.window_text.specs.ResultTables.{IsTicketOf};
ghost use Rattle.window_text.specs.Parts.{AreRight, IsRight};

mod rule;
mod ticket;

use self::rule::{Lay, ResultTableCut, ResultTableRule, Take};
pub use self::ticket::Ticket;
use crate::formatter::TextFormatter;
use atomic_table::Table;
use line_merge::Sheaf;
use std::alloc::{AllocError, Global};
use std::marker::Model;
use std::snapshot::Snapshot;

/// The word of a place that a thread has taken, and where it has laid nothing down yet. The word of a free place is 0.
const TAKEN: u64 = 1;

/// The bit that is set in the word of a place where a thread has laid something down.
const LAID: u64 = 2;

/// Where the threads of a window lay down what they made of its text. What lies there is right.
#[derive(Drop)]
pub struct ResultTable {
    /// A word and a slot for each place: at least one.
    table: Table<Option<TextFormatter>, (), Snapshot<Sheaf>, ResultTableRule, Global>,
}

impl Model for ResultTable {
    ghost use Rattle.std.specs.Prelude.{◌≡◌, ◌<◌};
    ghost use Rattle.window_text.specs.ResultTables.{ResultTableState, result_table_code};

    ghost Value = { ResultTableState };

    ghost coded = { result_table_code };

    ghost view = { λ d. record { table = d.table.shared.table_id; sheaf = d.table.shared.key.value } };

    ghost invariant = { λ d. (d.table.shared.table_id.words ≡ d.table.shared.table_id.slots) × (0 < d.table.shared.table_id.words) };
}

impl ResultTable {
    /// A result table for what is made of a sheaf's text, and the first ticket. It has so many places, and at least one: none of
    /// them is taken.
    pub fn new(
        alloc: Global,
        sheaf: &Sheaf,
        places: usize,
    ) -> Result<(ResultTable, Ticket), AllocError>
        ensures sheaf { IfOk result (λ r. r.0.sheaf ≡ sheaf.now) }
        ensures ticket { IfOk result (λ r. IsTicketOf r.0 r.1) }
    {
        let places = places.max(1);
        let words = vec![in alloc; 0u64; places]?;
        let about = Snapshot::of(sheaf);
        let (table, seat) = Table::vacant(alloc, words.as_slice(), places, &about)?;
        Ok((ResultTable { table }, Ticket { seat }))
    }

    /// A second ticket. It takes no memory.
    pub fn split(&self, ticket: Ticket) -> (Ticket, Ticket)
        requires { IsTicketOf self.now ticket }
        ensures first { IsTicketOf self.now result.0 }
        ensures second { IsTicketOf self.now result.1 }
    {
        let Ticket { mut seat } = ticket;
        let other = self.table.shared.split_seat::<ResultTableCut>(&mut seat);
        (Ticket { seat }, Ticket { seat: other })
    }

    /// Lays down what a thread made, at a place that nobody has taken. Where it is taken, or there is no such place, it
    /// is given up. It takes no memory.
    pub fn lay_down(&self, ticket: Ticket, place: usize, formatter: TextFormatter)
        requires ticket { IsTicketOf self.now ticket }
        requires right { IsRight self.now.sheaf formatter }
    {
        if place >= self.table.word_count() {
            return;
        }
        let Ticket { mut seat } = ticket;
        if self.table.shared.fetch_or::<Take>(&mut seat, place, TAKEN) != 0 {
            return;
        }
        self.table
            .shared
            .exchange(&mut seat, place, Some(formatter));
        self.table.shared.fetch_or::<Lay>(&mut seat, place, LAID);
    }

    /// Ends the result table, and gives what was laid down behind others. Where there is no memory for one it is given up.
    pub fn clear(self, formatters: &mut Vec<TextFormatter>)
        requires { AreRight self.sheaf formatters.old.items }
        ensures { AreRight self.sheaf formatters.new.items }
    {
        let ResultTable { table } = self;
        let mut closed = table.close();
        for place in 0..closed.slot_count() {
            let word = closed.word(place);
            let laid = closed.take(place);
            if word != TAKEN
                && let Some(formatter) = laid
            {
                let _ = formatters.push(formatter);
            }
        }
        closed.free();
    }
}
