//! What the program can be asked to do.

ghost use Rattle.std.specs.Prelude.{◌≡◌};
ghost use Rattle.std.specs.Option.{option_map};

use crate::sharing::Sharing;
use std::marker::Model;

/// A subcommand that makes something of a scenario, which it reads from an image or a text.
#[derive(Drop)]
pub enum Subcommand<'a> {
    /// Writes the scenario's image.
    Asm,
    /// Writes the scenario's canonical text.
    Dis,
    /// Runs the scenario and writes its trace.
    Run(Sharing<'a>),
    /// Runs the scenario and writes the figures of its run.
    Figures(Counting<'a>),
}

/// Which figures of a run are written.
#[derive(Drop)]
pub struct Counting<'a> {
    /// The moment from which on is counted, where one is named.
    pub from: OptionalWord<'a>,
    /// How long a step is, where rows by time are wished.
    pub every: OptionalWord<'a>,
    /// To have these rows without the table.
    pub series: bool,
    /// To have the names of the text's flows and links too.
    pub names: bool,
}

/// What a session over an input does.
#[derive(Drop)]
pub enum Task<'a> {
    /// To make something of a scenario.
    Scenario(Subcommand<'a>),
    /// To answer the commands that stand behind a scenario text.
    Debug(Sharing<'a>),
}

/// A word of the command line that may be left out.
#[derive(Drop)]
pub struct OptionalWord<'a> {
    word: Option<&'a str>,
}

impl<'a> Model for OptionalWord<'a> {
    ghost use Rattle.std.specs.Prelude.{List, ℕ, Option};
    ghost use Rattle.std.specs.Option.{option_map};

    ghost Value = { Option (List ℕ) };

    ghost view = { λ s. option_map (λ w. w.now) s.word };
}

impl<'a> OptionalWord<'a> {
    /// This word, or none.
    pub fn new(word: Option<&'a str>) -> OptionalWord<'a>
        ensures { result ≡ option_map (λ w. w.now) word.entry }
    {
        OptionalWord { word }
    }

    /// The word, where it is there.
    pub fn get(&self) -> Option<&'a str>
        ensures { option_map (λ w. w.now) result ≡ self.now }
    {
        self.word
    }
}

/// What is wished beside the output.
#[derive(Clone, Copy, Drop)]
pub struct Wishes {
    /// To be told how far a run is.
    pub progress: bool,
    /// To be shown why an input is refused.
    pub explain: bool,
}

impl Wishes {
    /// Nothing.
    pub const NONE: Wishes = Wishes {
        progress: false,
        explain: false,
    };
}

/// What the words of the command line ask for.
#[derive(Drop)]
pub enum Asked<'a> {
    /// A session over an input: that of the file that is named, or the standard input where none is,
    /// or `-`.
    Session(Task<'a>, OptionalWord<'a>, Wishes),
    /// What this code means, or a list of all codes.
    Explanation(OptionalWord<'a>),
}
