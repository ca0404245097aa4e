//! The text of a call's windows.
ghost use Rattle.std.specs.Prelude.{◌≡◌, [], None, IfOk};

use std::alloc::{AllocError, Global};
use std::snapshot::Snapshot;
use window_text::{PendingText, Text};

/// The text of a call's windows: workers make that of the last one's lines, and that of the window before is written
/// meanwhile.
#[derive(Drop)]
pub struct TextState<S> {
    /// Memory for the text of the last window's lines.
    pub text: Text,
    /// The text of the window before the last.
    pub pending_text: PendingText,
    /// The sink before any of the pending text was written, for clauses alone.
    pub before: Snapshot<S>,
}

impl<S> TextState<S> {
    /// No text is made, and none is pending.
    pub fn new(alloc: Global, sink: &S) -> Result<TextState<S>, AllocError>
        ensures empty { IfOk result (λ texts. texts.pending_text.text.places.items ≡ []) }
        ensures lines { IfOk result (λ texts. texts.pending_text.lines ≡ 0) }
        ensures waits { IfOk result (λ texts. texts.pending_text.put ≡ None) }
        ensures before { IfOk result (λ texts. texts.before.value ≡ sink.now) }
    {
        Ok(TextState {
            text: Text::new(alloc)?,
            pending_text: PendingText::new(alloc)?,
            before: Snapshot::of(sink),
        })
    }
}
