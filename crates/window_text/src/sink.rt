//! Where bytes go, with a count of what failed.

ghost use Rattle.std.specs.Prelude.{◌≡◌};
ghost use Rattle.window_text.specs.Failures.{counted};
ghost use Rattle.window_text.specs.Over.{written_through, write_failures};

use std::io::Write;

/// A sink did not take what it was given.
#[derive(Clone, Copy, Drop)]
pub struct SinkFail;

/// Where bytes go. It counts its failures, in 64 bits; at its greatest value the count stays.
pub trait Sink {
    ghost use Rattle.std.specs.Prelude.{◌≡◌, ◌≤◌, ℕ, List, [], length, Option, None, IfOk};
    ghost use Rattle.std.specs.Io.KnownBytes.{WriteAppends};
    ghost use Rattle.window_text.specs.Failures.{failures_after};

    // The bytes that it holds, where they are known.
    ghost contents: { Self → Option (List ℕ) } = { λ _. None };

    // How often it has failed.
    ghost failures: { Self → ℕ };

    /// Takes some of the bytes, from the first on, and answers how many: at least one where there
    /// are any. A refusal takes none.
    fn put(&mut self, bytes: &[u8]) -> Result<usize, SinkFail>
        ensures within { IfOk result (λ count. count ≤ length bytes.now) }
        ensures some { IfOk result (λ count. count ≡ 0 → bytes.now ≡ []) }
        ensures taken { WriteAppends (contents self.old) (contents self.new) result bytes.now }
        ensures failures { failures self.new ≡ failures_after result (failures self.old) };
}

/// A writer as a sink. Each error of the writer is a failure, an interruption too, and so is an
/// answer of 0 for bytes that are not empty; nothing is tried again.
#[derive(Drop)]
pub struct OverWrite<W> {
    writer: W,
    /// How often the writer failed.
    failures: u64,
}

impl<W> OverWrite<W> {
    /// The writer, which has not failed yet.
    pub fn new(writer: W) -> OverWrite<W>
        ensures through { written_through result ≡ writer }
        ensures failures { write_failures result ≡ 0 }
    {
        OverWrite {
            writer,
            failures: 0,
        }
    }

    /// Counts a failure.
    fn fail(&mut self) -> SinkFail
        ensures { self.new ≡ record self.old { failures = counted self.old.failures } }
    {
        self.failures = self.failures.saturating_add(1);
        SinkFail
    }
}

impl<W: Write> Sink for OverWrite<W> {
    ghost contents = { λ s. W.contents (written_through s) };

    ghost failures = { λ s. write_failures s };

    fn put(&mut self, bytes: &[u8]) -> Result<usize, SinkFail> {
        match self.writer.write(bytes) {
            Ok(0) if !bytes.is_empty() => Err(self.fail()),
            Ok(count) => Ok(count),
            Err(_) => Err(self.fail()),
        }
    }
}

/// A sink that keeps nothing of what it takes, and it takes all.
#[derive(Drop)]
pub struct Nowhere;

impl Sink for Nowhere {
    ghost failures = { λ _. 0 };

    fn put(&mut self, bytes: &[u8]) -> Result<usize, SinkFail> {
        Ok(bytes.len())
    }
}
