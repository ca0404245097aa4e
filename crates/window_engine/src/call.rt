//! A call that has windows run and their lines written: how it began, and how far it is.
ghost use Rattle.std.specs.Prelude.{◌≡◌, [], None, IfOk};

use crate::run_state::RunState;
use crate::slice::FIRST_SLICE;
use sim_time::Time;
use std::alloc::{AllocError, Global};
use std::snapshot::Snapshot;
use window_core::Window;
use window_workers::{TextState, WindowWorkers};

/// How a call began.
#[derive(Drop)]
pub(crate) struct Call<'a, S> {
    /// Who runs windows.
    pub workers: WindowWorkers<'a>,
    /// Events before this moment are run, in nanoseconds.
    pub until: Time,
    /// The net on its way as the call began, for clauses alone.
    pub began: Snapshot<RunState>,
    /// The sink as the call began, for clauses alone.
    pub known: Snapshot<S>,
}

/// How far a call is.
#[derive(Drop)]
pub(crate) struct Writing<S> {
    /// The text of its windows.
    pub texts: TextState<S>,
    /// How long the next window may be, in nanoseconds.
    pub slice: Time,
    /// How many bytes were written.
    pub written: u128,
    /// The window before it is run, for clauses alone.
    pub window: Snapshot<Window>,
}

impl<S> Writing<S> {
    /// Nothing was written yet.
    pub(crate) fn new(alloc: Global, window: &Window, sink: &S) -> Result<Writing<S>, AllocError>
        ensures empty { IfOk result (λ writing. writing.texts.pending_text.text.places.items ≡ []) }
        ensures lines { IfOk result (λ writing. writing.texts.pending_text.lines ≡ 0) }
        ensures waits { IfOk result (λ writing. writing.texts.pending_text.put ≡ None) }
        ensures written { IfOk result (λ writing. writing.written ≡ 0) }
        ensures before { IfOk result (λ writing. writing.texts.before.value ≡ sink.now) }
    {
        Ok(Writing {
            texts: TextState::new(alloc, sink)?,
            slice: FIRST_SLICE,
            written: 0,
            window: Snapshot::of(window),
        })
    }
}
