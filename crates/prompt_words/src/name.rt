//! The names of the commands that are typed at a prompt.
ghost use Rattle.std.specs.Prelude.{◌≡◌};
ghost use Rattle.prompt_words.specs.Entries.{begins};

/// The name of a command.
#[derive(Clone, Copy, PartialEq, Eq)]
pub enum CommandName {
    /// Events are run.
    Step,
    /// Events are taken back.
    Back,
    /// A breakpoint is set.
    Break,
    /// The breakpoints are shown.
    Breaks,
    /// Events are run until a breakpoint matches.
    Run,
    /// Events are taken back until a breakpoint matches.
    Reverse,
    /// Events are run until a moment.
    Until,
    /// The state is shown.
    State,
    /// Lines of the trace are shown.
    Lines,
    /// A breakpoint is taken away.
    Delete,
    /// All breakpoints are taken away.
    Clear,
    /// What can be typed is shown.
    Help,
    /// The session ends.
    Quit,
    /// What a flow waits for is shown.
    Why,
    /// A position is gone to.
    Goto,
    /// Where the session stands is shown.
    Where,
    /// The names of nodes, links and flows are shown.
    Names,
    /// Something is shown after each move.
    Display,
    /// It is shown no more.
    Undisplay,
    /// All stalls of the run are shown.
    Stalls,
}

/// Whether a word is the beginning of a name, or all of it.
pub(crate) fn begins(word: &[u8], name: &[u8]) -> bool
    ensures { result ≡ begins word.now name.now }
{
    name.starts_with(word)
}
