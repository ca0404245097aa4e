//! What is told on standard error, beside the note.

use command_line::notes::{HowFar, Notes, Numbers};
use command_line::subcommand::Task;
use std::io::{IsTerminal, Write};

/// What is said where standard input is a terminal, and commands are asked for without a file.
const WANTS_FILE: &str =
    "tcpsim: debug wants a file, as tcpsim debug FILE; without one it waits for a scenario, a line --- and commands, up to Ctrl-D\n";

/// What is said where it is, and anything else is asked for without a file.
const WANTS_SCENARIO: &str =
    "tcpsim: waiting for a scenario on standard input, up to Ctrl-D; to read a file, name it behind the command\n";

/// Tells on standard error what is awaited of a terminal, how far a run is, on one line, and at a
/// prompt, that a line is asked for, that one is refused, what that means, the nearest command where it
/// names none, and which numbers there are; keeps why an input is refused, which it asks for where
/// standard error is a terminal. That it fails there is ignored.
#[derive(Drop)]
pub struct ErrorNotes<'r> {
    /// The process.
    rt: &'r HostRuntime,
    /// Why the input is refused, to be shown behind the note.
    pub why: Option<String>,
}

impl<'r> ErrorNotes<'r> {
    /// On the standard error of this process.
    pub fn new(rt: &'r HostRuntime) -> ErrorNotes<'r> {
        ErrorNotes { rt, why: None }
    }
}

impl<'r> Notes for ErrorNotes<'r> {
    fn input_is_awaited(&mut self, task: &Task) {
        if self.rt.stdin().is_terminal() {
            let wanted = match task {
                Task::Debug(_) => WANTS_FILE,
                Task::Scenario(_) => WANTS_SCENARIO,
            };
            let _ = eprint!(self.rt; "{wanted}");
        }
    }

    fn explains(&self) -> bool {
        self.rt.stderr().is_terminal()
    }

    fn progress(&mut self, far: &HowFar) {
        let _ = eprint!(self.rt; "\r{far}");
    }

    fn progress_ends(&mut self) {
        let _ = eprint!(self.rt; "\n");
    }

    fn refused(&mut self, why: String) {
        self.why = Some(why);
    }

    fn prompt(&mut self) {
        let _ = eprint!(self.rt; "(tcpsim) ");
    }

    fn line_refused(&mut self, refusal: &[u8]) {
        let _ = self.rt.stderr().write_all(refusal);
    }

    fn refusal_means(&mut self, meaning: &str) {
        let _ = eprint!(self.rt; "{meaning}\n");
    }

    fn numbers(&mut self, numbers: &Numbers) {
        let _ = eprint!(self.rt; "tcpsim: there are {numbers}: see help numbers\n");
    }

    fn no_command(&mut self, word: &str, nearest: &str) {
        let _ = eprint!(self.rt; "tcpsim: no command {word}; the nearest is {nearest}\n");
    }
}
