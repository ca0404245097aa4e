//! The process's input: standard input, or a file that was opened in its place.
ghost use Rattle.window_engine.specs.Failures.{counted};
ghost use Rattle.std.specs.Prelude.{◌≡◌};

use sessions::source::{Source, SourceFail};
use sessions::typed::read_line;
use std::fs::{File, Files};
use std::io::{self, ErrorKind, Read};
use window_engine::Sink;

/// A reader, or a file that was opened in its place. Each error of either is a failure, an
/// interruption too; nothing is tried again.
#[derive(Drop)]
pub struct Input<'f, R, F: Files> {
    reader: R,
    files: &'f F,
    /// The file that is read, once one was opened.
    file: Option<F::File>,
    /// How often opening or reading failed.
    failures: u64,
    /// What sort of failure the last one was.
    error: Option<ErrorKind>,
}

impl<'f, R, F: Files> Input<'f, R, F> {
    /// The reader, which has not failed yet, and the files that may be opened in its place.
    pub fn new(reader: R, files: &'f F) -> Input<'f, R, F> {
        Input {
            reader,
            files,
            file: None,
            failures: 0,
            error: None,
        }
    }

    /// Counts a failure, and keeps of what sort it is.
    fn fail(&mut self, error: io::Error) -> SourceFail
        ensures { self.new.failures ≡ counted self.old.failures }
    {
        self.error = Some(error.kind());
        self.failures = self.failures.saturating_add(1);
        SourceFail
    }
}

impl<'f, R: Read, F: Files> Source for Input<'f, R, F> {
    ghost failures = { λ s. s.failures };

    fn open(&mut self, file: &str) -> Result<(), SourceFail> {
        match File::open(self.files, file) {
            Ok(file) => {
                self.file = Some(file);
                Ok(())
            }
            Err(error) => Err(self.fail(error)),
        }
    }

    fn get(&mut self, room: &mut [u8]) -> Result<usize, SourceFail> {
        let count: io::Result<usize> = match &mut self.file {
            Some(file) => file.read(room),
            None => self.reader.read(room),
        };
        match count {
            Ok(count) => Ok(count),
            Err(error) => Err(self.fail(error)),
        }
    }

    fn next_line<S: Sink>(
        &mut self,
        _shown: &S,
        room: &mut [u8],
    ) -> Result<Option<usize>, SourceFail> {
        match read_line(&mut self.reader, room) {
            Ok(Some(count)) => Ok(Some(count)),
            Ok(None) => Ok(None),
            Err(error) => Err(self.fail(error)),
        }
    }

    fn last_error(&self) -> Option<ErrorKind> {
        self.error
    }
}
