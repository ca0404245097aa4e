//! What can be asked of a session.
ghost use Rattle.std.specs.Prelude.{◌≡◌};
ghost use Rattle.prompt_words.specs.Namings.{limits_of};

use crate::display::DisplayCommand;
use crate::memo::Extent;
use breakpoints::Break;
use scenario_image::Scenario;
use sim_time::Time;
use trace_text::DumpPart;

/// A move through the run.
#[derive(Clone, Copy)]
pub enum Move {
    /// So many events on.
    Step(u64),
    /// So many events back.
    Back(u64),
    /// On until a breakpoint matches.
    Run,
    /// Back until a breakpoint matches.
    Reverse,
    /// On until all events before a moment are run, in nanoseconds.
    Until(Time),
    /// To this position.
    Goto(u64),
    /// To where all events before a moment are run, in nanoseconds.
    Moment(Time),
}

/// What is asked of a session.
#[derive(Clone, Copy)]
pub enum Command {
    /// A move.
    Go(Move),
    /// Nothing but to see the state.
    State,
    /// To stop there too.
    SetBreak(Break),
    /// To stop nowhere.
    Clear,
}

/// What is shown, which changes nothing.
#[derive(Clone, Copy)]
pub enum Shown {
    /// A part of the state.
    Part(DumpPart),
    /// What a flow waits for.
    Why(u16),
    /// All stalls of the run.
    Stalls,
    /// The last so many lines of the trace.
    Lines(u64),
    /// Where the session stands, and how far the run is known to go.
    Where(Extent),
    /// The names of nodes, links and flows.
    Names,
    /// What can be typed.
    Help,
    /// What there is to say of the entry at this place in the table.
    HelpOn(usize),
}

/// What is asked of a session at a prompt.
#[derive(Clone, Copy)]
pub enum Typed {
    /// A move.
    Go(Move),
    /// Nothing but to see the state.
    State,
    /// To stop there too.
    SetBreak(Break),
    /// To take away the breakpoint of this number.
    Delete(u64),
    /// To stop nowhere.
    Clear,
    /// Nothing but to see the breakpoints.
    Breaks,
    /// Nothing but to see this.
    Show(Shown),
}

/// What a line that is typed asks for.
#[derive(Clone, Copy)]
pub enum Request {
    /// A command to the debugger.
    Command(Typed),
    /// A command on what is displayed after each move.
    Display(DisplayCommand),
}

/// The numbers of a scenario's nodes, links and flows are below these.
#[derive(Clone, Copy)]
pub struct Limits {
    /// How many nodes there are.
    pub nodes: u16,
    /// How many links there are.
    pub links: u16,
    /// How many flows there are.
    pub flows: u16,
}

impl Limits {
    /// Those of a scenario.
    pub fn of(scenario: &Scenario) -> Limits
        ensures { result ≡ limits_of scenario.now }
    {
        let parts = scenario.parts();
        Limits {
            nodes: parts.nodes.len() as u16,
            links: parts.links.len() as u16,
            flows: parts.flows.len() as u16,
        }
    }
}
