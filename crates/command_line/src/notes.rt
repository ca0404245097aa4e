//! Who is told how far a run is, and why an input is refused.

use crate::subcommand::Task;
use sim_time::Time;
use std::fmt;

/// How many nanoseconds a second has.
const SECOND: u64 = 1_000_000_000;

/// How far a run is. Its `Display` is `NN % of D s simulated, E events`, with D in seconds and no
/// more decimals than it has.
#[derive(Clone, Copy, Drop)]
pub struct HowFar {
    /// So many hundredths of its time are simulated.
    pub percent: u64,
    /// The moment by which it ends, in nanoseconds.
    pub end: Time,
    /// How many events are done.
    pub events: u64,
}

impl fmt::Display for HowFar {
    fn fmt<W: fmt::Write>(&self, f: &mut fmt::Formatter<W>) -> fmt::Result {
        write!(f, "{} % of {}", self.percent, self.end / SECOND)?;
        let mut rest = self.end % SECOND;
        let mut worth = SECOND;
        if rest != 0 {
            f.write_str(".")?;
        }
        for _ in 0..9 {
            if rest == 0 {
                break;
            }
            worth = (worth / 10).max(1);
            write!(f, "{}", rest / worth)?;
            rest %= worth;
        }
        write!(f, " s simulated, {} events", self.events)
    }
}

/// How many nodes, links and flows a scenario has. Its `Display` is the numbers that they have, as
/// `nodes 0 to 5, links 0 to 9, flows 0 to 1`.
#[derive(Clone, Copy, Drop)]
pub struct Numbers {
    /// How many nodes.
    pub nodes: u16,
    /// How many links.
    pub links: u16,
    /// How many flows.
    pub flows: u16,
}

impl fmt::Display for Numbers {
    fn fmt<W: fmt::Write>(&self, f: &mut fmt::Formatter<W>) -> fmt::Result {
        let nodes = self.nodes.saturating_sub(1);
        let links = self.links.saturating_sub(1);
        let flows = self.flows.saturating_sub(1);
        write!(
            f,
            "nodes 0 to {nodes}, links 0 to {links}, flows 0 to {flows}"
        )
    }
}

/// Is told that standard input is awaited, how far a run is, while it goes on, why an input is
/// refused, and at a prompt, when a line is asked for, that it is refused, what that means, the nearest command where it names none, and
/// which numbers there are where it may have one that is none. What it does with that changes nothing
/// of a session.
pub trait Notes {
    /// The words name no file for a task, so that standard input is read for it from here on.
    fn input_is_awaited(&mut self, task: &Task);

    /// Whether a refusal is explained though the words do not wish it.
    fn explains(&self) -> bool;

    /// The run is so far.
    fn progress(&mut self, far: &HowFar);

    /// The run that it was told of has ended, whether done or not.
    fn progress_ends(&mut self);

    /// The input is refused, and this is to be shown behind the note: some lines.
    fn refused(&mut self, why: String);

    /// A line is asked for.
    fn prompt(&mut self);

    /// The line that was typed is refused: this is the refusal, a line.
    fn line_refused(&mut self, refusal: &[u8]);

    /// What that means: a line without its end.
    fn refusal_means(&mut self, meaning: &str);

    /// A number of the line that was refused may be none of the scenario's: it has these.
    fn numbers(&mut self, numbers: &Numbers);

    /// The first word of the line that was refused begins no command's name, and this is the nearest of
    /// the names. The word has no byte that is not printable.
    fn no_command(&mut self, word: &str, nearest: &str);
}

/// Tells nobody.
#[derive(Clone, Copy)]
pub struct NoNotes;

impl Notes for NoNotes {
    fn input_is_awaited(&mut self, _task: &Task) {}

    fn explains(&self) -> bool {
        false
    }

    fn progress(&mut self, _far: &HowFar) {}

    fn progress_ends(&mut self) {}

    fn refused(&mut self, _why: String) {}

    fn prompt(&mut self) {}

    fn line_refused(&mut self, _refusal: &[u8]) {}

    fn refusal_means(&mut self, _meaning: &str) {}

    fn numbers(&mut self, _numbers: &Numbers) {}

    fn no_command(&mut self, _word: &str, _nearest: &str) {}
}
