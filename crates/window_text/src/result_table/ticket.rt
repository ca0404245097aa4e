//! Who may lay something down.
use crate::formatter::TextFormatter;
use std::marker::Model;

/// The right to lay something down at one result table. It takes no memory.
#[derive(Drop)]
pub struct Ticket {
    /// The table's own token for it. It has taken no place.
    pub(crate) seat: atomic_table::Seat<Option<TextFormatter>, ()>,
}

impl Model for Ticket {
    ghost use Rattle.std.specs.Prelude.{◌≡◌, []};
    ghost use Rattle.atomic_table.specs.Seated.{TableId, table_id_coded};

    ghost Value = { TableId };

    ghost coded = { table_id_coded };

    ghost view = { λ p. p.seat.table_id };

    ghost invariant = { λ p. p.seat.me.1 ≡ [] };
}
