//! Standard streams that are closed when the program begins. What is opened then takes the lowest
//! number that is free, so that the file of a scenario would be read for commands, or a text for
//! standard output go to it.

use std::fs::{File, OpenOptions};
use std::io;
use std::os::fd::AsRawFd;

/// The file that is opened in the place of a stream.
const NOTHING: &str = "/dev/null";

/// What is open in the place of standard input, output and error, where they were closed.
#[derive(Drop)]
pub struct HeldFiles {
    input: Option<File>,
    output: Option<File>,
    error: Option<File>,
}

/// What is opened at a descriptor, so that none else is: none where another number is free first.
fn held_at(descriptor: i32, opened: io::Result<File>) -> Option<File> {
    match opened {
        Ok(file) if file.as_raw_fd() == descriptor => Some(file),
        Ok(_) | Err(_) => None,
    }
}

impl HeldFiles {
    /// Opens a file in the place of each stream that is closed: standard input for writing alone, and
    /// the others for reading alone, so that their use fails as before. Keep it while they are used.
    pub fn new(rt: &HostRuntime) -> HeldFiles {
        let mut writing = OpenOptions::new();
        writing.write(true);
        HeldFiles {
            input: held_at(0, writing.open(rt, NOTHING)),
            output: held_at(1, File::open(rt, NOTHING)),
            error: held_at(2, File::open(rt, NOTHING)),
        }
    }
}
