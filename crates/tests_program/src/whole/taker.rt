//! A writer that breaks at one of its calls.

use std::alloc::Global;
use std::io;
use std::io::Write;

/// What a writer does at one of its calls.
#[derive(Clone, Copy, Drop)]
pub(super) enum BreaksAt {
    /// It answers an error of this kind.
    Fails(io::ErrorKind),
    /// It answers 0.
    GivesNothing,
    /// It does as at every other call.
    Never,
}

impl BreaksAt {
    fn answer(self, usual: usize) -> io::Result<usize> {
        match self {
            BreaksAt::Fails(kind) => Err(io::Error::from(kind)),
            BreaksAt::GivesNothing => Ok(0),
            BreaksAt::Never => Ok(usual),
        }
    }
}

/// Takes so many bytes a call, and breaks at one call. Asked again, it would go on.
#[derive(Drop)]
pub(super) struct Taker {
    pub(super) taken: Vec<u8>,
    /// How many bytes it had taken when it was asked, for each of its calls.
    pub(super) places: Vec<usize>,
    /// The most bytes of a call.
    most: usize,
    /// The call at which it breaks, counted from 1.
    broken_call: usize,
    broken: BreaksAt,
}

impl Taker {
    pub(super) fn new(alloc: Global, most: usize, broken_call: usize, broken: BreaksAt) -> Taker {
        Taker {
            taken: Vec::new(alloc),
            places: Vec::new(alloc),
            most,
            broken_call,
            broken,
        }
    }
}

impl Write for Taker {
    fn write(&mut self, buf: &[u8]) -> io::Result<usize> {
        self.places.push(self.taken.len())?;
        let usual = buf.len().min(self.most);
        let count = if self.places.len() == self.broken_call {
            self.broken.answer(usual)?.min(usual)
        } else {
            usual
        };
        self.taken.extend_from_slice(&buf[..count])?;
        Ok(count)
    }

    fn flush(&mut self) -> io::Result<()> {
        Ok(())
    }
}
