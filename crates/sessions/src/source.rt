//! Where bytes come from, with a count of what failed.

ghost use Rattle.std.specs.Prelude.{◌≡◌};
ghost use Rattle.sessions.specs.Over.{read_through, read_failures};
ghost use Rattle.window_engine.specs.Failures.{counted};

use crate::typed::read_line;
use std::io::{ErrorKind, Read};
use window_engine::Sink;

/// A source did not give what it was asked for.
#[derive(Clone, Copy, Drop)]
pub struct SourceFail;

/// Where bytes come from. It counts its failures, in 64 bits; at its greatest value the count
/// stays.
pub trait Source {
    ghost use Rattle.std.specs.Prelude.{◌≡◌, ◌≤◌, ℕ, List, length, Option, None, IfOk, IfSome, OnOk};
    ghost use Rattle.std.specs.Io.KnownBytes.{ReadConsumes};
    ghost use Rattle.window_engine.specs.Failures.{failures_after};
    ghost use Rattle.debug_session.specs.Prompt.{Typing};
    ghost use Rattle.sessions.specs.Typed.{TypesLine};

    // The bytes that it will give from here on, where they are known.
    ghost remaining: { Self → Option (List ℕ) } = { λ _. None };

    // The bytes of the file of this name, where they are known.
    ghost bytes_of: { Self → List ℕ → Option (List ℕ) } = { λ _ _. None };

    // The lines that were asked for, each with what was shown by then, and those that are still to
    // be typed, where they are known.
    ghost typed: { Self → Option Typing } = { λ _. None };

    // How often it has failed.
    ghost failures: { Self → ℕ };

    /// Turns to the file of this name: what it gives from here on are the bytes of that file.
    fn open(&mut self, file: &str) -> Result<(), SourceFail>
        ensures opened { OnOk result (remaining self.new ≡ bytes_of self.old file.now) }
        ensures typed { typed self.new ≡ typed self.old }
        ensures failures { failures self.new ≡ failures_after result (failures self.old) };

    /// Puts the next bytes at the start of the room and answers how many: 0 at the end, or where
    /// there is no room. A refusal gives none.
    fn get(&mut self, room: &mut [u8]) -> Result<usize, SourceFail>
        ensures within { IfOk result (λ count. count ≤ length room.new) }
        ensures given { ReadConsumes (remaining self.old) (remaining self.new) result room.new }
        ensures typed { typed self.new ≡ typed self.old }
        ensures failures { failures self.new ≡ failures_after result (failures self.old) };

    /// Puts the next line that is typed at the start of the room, without what ends it, and answers
    /// how many bytes it has there: of a line that is longer than the room only the first ones are
    /// put. None where no line is left. Lines are typed beside the files that were opened, and who
    /// types sees what is shown.
    fn next_line<S: Sink>(
        &mut self,
        shown: &S,
        room: &mut [u8],
    ) -> Result<Option<usize>, SourceFail>
        ensures within { IfOk result (λ found. IfSome found (λ count. count ≤ length room.new)) }
        ensures line { TypesLine (typed self.old) (typed self.new) result room.new (S.contents shown.now) }
        ensures failures { failures self.new ≡ failures_after result (failures self.old) };

    /// What sort of failure the last one was, where that is known.
    fn last_error(&self) -> Option<ErrorKind> {
        None
    }
}

/// A reader as a source, which has no files. Each error of the reader is a failure, an interruption
/// too; nothing is tried again.
#[derive(Drop)]
pub struct OverRead<R> {
    reader: R,
    /// How often the reader failed.
    failures: u64,
}

impl<R> OverRead<R> {
    /// The reader, which has not failed yet.
    pub fn new(reader: R) -> OverRead<R>
        ensures through { read_through result ≡ reader }
        ensures failures { read_failures result ≡ 0 }
    {
        OverRead {
            reader,
            failures: 0,
        }
    }

    /// Counts a failure.
    fn fail(&mut self) -> SourceFail
        ensures { self.new ≡ record self.old { failures = counted self.old.failures } }
    {
        self.failures = self.failures.saturating_add(1);
        SourceFail
    }
}

impl<R: Read> Source for OverRead<R> {
    ghost remaining = { λ s. R.remaining (read_through s) };

    ghost failures = { λ s. read_failures s };

    fn open(&mut self, _file: &str) -> Result<(), SourceFail> {
        Err(self.fail())
    }

    fn get(&mut self, room: &mut [u8]) -> Result<usize, SourceFail> {
        match self.reader.read(room) {
            Ok(count) => Ok(count),
            Err(_) => Err(self.fail()),
        }
    }

    fn next_line<S: Sink>(
        &mut self,
        _shown: &S,
        room: &mut [u8],
    ) -> Result<Option<usize>, SourceFail> {
        match read_line(&mut self.reader, room) {
            Ok(Some(count)) => Ok(Some(count)),
            Ok(None) => Ok(None),
            Err(_) => Err(self.fail()),
        }
    }
}
