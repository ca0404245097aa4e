//! The program: a session with the process's own words, input and output.
#![tactic(auto)]

mod closed;
mod input;
mod notes;

use crate::closed::HeldFiles;
use crate::input::Input;
use crate::notes::ErrorNotes;
use sessions::fault::SessionFault;
use sessions::outcome::Outcome;
use sessions::session::run_noted;
use std::env;
use std::io::ErrorKind;
use std::process::ExitCode;
use window_engine::{Gate, OverWrite};

/// The process's own words.
fn process_words(rt: &HostRuntime) -> Result<Vec<String>, SessionFault> {
    match env::args(rt) {
        Ok(words) => Ok(words.collect(rt.alloc())?),
        Err(error) if error.kind() == ErrorKind::OutOfMemory => Err(SessionFault::NoMemory),
        Err(_) => Err(SessionFault::WordsNotUtf8),
    }
}

/// A session with the process's own words, input and output.
fn main(rt: HostRuntime) -> ExitCode {
    let _held = HeldFiles::new(&rt);
    let mut notes = ErrorNotes::new(&rt);
    let outcome = match process_words(&rt) {
        Ok(words) => {
            let mut input = Input::new(rt.stdin(), &rt);
            let mut output = OverWrite::new(rt.stdout());
            run_noted(
                &rt,
                &mut input,
                &mut output,
                words.as_slice(),
                &Gate::open(),
                &mut notes,
            )
        }
        Err(fault) => Outcome::from(Err(fault)),
    };
    if let Some(note) = &outcome.note {
        let _ = eprint!(rt; "{note}");
    }
    if let Some(why) = &notes.why {
        let _ = eprint!(rt; "{why}");
    }
    ExitCode::from(outcome.status)
}
