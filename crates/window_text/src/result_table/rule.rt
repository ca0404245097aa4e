//! The rule of the result table, and its kinds of step.
ghost use Rattle.window_text.specs.ResultTables.{IsResultTable, place_taken};

use crate::formatter::TextFormatter;
use atomic_table::{Play, Split, TableRule};
use line_merge::Sheaf;
use std::snapshot::Snapshot;

/// What holds of a result table between any two steps. A ticket knows nothing of it.
#[derive(Clone, Copy)]
pub struct ResultTableRule;

impl TableRule<Option<TextFormatter>, (), Snapshot<Sheaf>> for ResultTableRule {
    ghost holds = { λ about. IsResultTable about.value };

    ghost first = { λ _. tt };
}

/// A ticket is split in two.
pub struct ResultTableCut;

impl Split<()> for ResultTableCut {
    ghost left = { λ v. v };

    ghost right = { λ v. v };
}

/// A place is taken, where nobody has taken it.
pub struct Take;

impl Play<Option<TextFormatter>, ()> for Take {
    ghost then = { place_taken };
}

/// What lies at a place is there for others, and stays. Nothing is told of it.
pub struct Lay;

impl Play<Option<TextFormatter>, ()> for Lay {
    ghost use Rattle.std.specs.Prelude.{⊤};

    ghost then = { λ _ _ _ _. ⊤ };
}
