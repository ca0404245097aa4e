//! What a session is done with.

use command_line::subcommand::{OptionalWord, Wishes};
use std::alloc::Global;
use window_engine::Gate;

/// What a session is done with, beside its reader and its writer.
#[derive(Drop)]
pub(crate) struct Means<'m> {
    /// Where memory is taken.
    pub alloc: Global,
    /// Who is told of the workers.
    pub gate: &'m Gate,
    /// What is wished beside the output.
    pub wishes: Wishes,
    /// The file that has the input, where that is not the reader's own.
    pub file: OptionalWord<'m>,
}

/// What a session is done with, and by whom its windows are run.
#[derive(Drop)]
pub(crate) struct SessionTools<'m, H> {
    /// What it is done with.
    pub means: &'m Means<'m>,
    /// Who runs windows.
    pub hands: &'m H,
}
