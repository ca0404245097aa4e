//! The text of a window that is made, and is written while the next one runs.
ghost use Rattle.std.specs.Prelude.{◌≡◌, [], Some, None, Ok, Err, IfOk, IfErr};
ghost use Rattle.window_text.specs.PendingText.{Fares, Owes, text_pending};

use crate::sink::Sink;
use crate::text::Text;
use std::alloc::{AllocError, Global};
use std::snapshot::Snapshot;

/// The text of a window that is made, and is written while the next one runs.
#[derive(Drop)]
pub struct PendingText {
    /// The text.
    pub text: Text,
    /// How many lines it has.
    pub lines: u64,
    /// How many bytes went out, where it was written: all of them, or those before the sink failed.
    pub put: Option<Result<u128, u128>>,
}

impl PendingText {
    /// No text yet, of no line.
    pub fn new(alloc: Global) -> Result<PendingText, AllocError>
        ensures empty { IfOk result (λ pending_text. pending_text.text.places.items ≡ []) }
        ensures lines { IfOk result (λ pending_text. pending_text.lines ≡ 0) }
        ensures waits { IfOk result (λ pending_text. pending_text.put ≡ None) }
    {
        Ok(PendingText {
            text: Text::new(alloc)?,
            lines: 0,
            put: None,
        })
    }

    /// Forgets the text, and has none, of no line. Its memory is used again.
    pub fn forget(&mut self)
        ensures empty { self.new.text.places.items ≡ [] }
        ensures lines { self.new.lines ≡ 0 }
        ensures waits { self.new.put ≡ None }
    {
        self.text.places.clear();
        self.lines = 0;
        self.put = None;
    }

    /// Writes the text, where that was not done yet. The answer is how many bytes went out: all of them, or those
    /// before the sink failed. How the sink was before that is for clauses alone.
    pub fn put<S: Sink>(&mut self, _before: &Snapshot<S>, sink: &mut S) -> Result<u128, u128>
        requires owes { Owes self.old (S.contents _before.now.value) (S.contents sink.old) (S.failures _before.now.value) (S.failures sink.old) }
        ensures owes { Owes self.new (S.contents _before.now.value) (S.contents sink.new) (S.failures _before.now.value) (S.failures sink.new) }
        ensures ok { IfOk result (λ count. Fares (text_pending self.old) (S.contents _before.now.value) (S.contents sink.new) (S.failures _before.now.value) (S.failures sink.new) (Some (Ok count))) }
        ensures err { IfErr result (λ count. Fares (text_pending self.old) (S.contents _before.now.value) (S.contents sink.new) (S.failures _before.now.value) (S.failures sink.new) (Some (Err count))) }
        ensures same { self.new ≡ record self.old { put = self.new.put } }
    {
        let put = match self.put {
            Some(put) => put,
            None => self.text.put(sink),
        };
        self.put = Some(put);
        put
    }
}
