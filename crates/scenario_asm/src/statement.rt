//! Statements: what a line says.
ghost use Rattle.std.specs.Prelude.{◌≡◌, ◌<◌, length, take, IfErr};
ghost use Rattle.std.specs.Str.{bytes_eq};
ghost use Rattle.scenario_asm.specs.Lines.{words_of};
ghost use Rattle.scenario_asm.specs.Places.{sim_word, statement_word, line_word};
ghost use Rattle.scenario_asm.specs.Refusals.{fault_in, word_in, as_fault};
ghost use Rattle.scenario_asm.specs.Statements.{nth, sim_at, statement_at, line_at};
ghost use Rattle.scenario_asm.specs.Table.{known_in};

/// What a word gives, which is the word at this place, counted from 0; its fault ends the reading.
macro_rules! judge {
    ($place:literal, $read:expr) => {
        match $read {
            Ok(value) => value,
            Err(fault) => return Err(StatementFault::Word($place, fault)),
        }
    };
}

mod flow;
mod link;
mod lose;
mod node;
mod route;
mod variant;

use crate::fault::Fault;
use crate::lexer::{Word, is_clean};
use crate::name::Name;
use crate::number::number_in;
use crate::table::Table;
use scenario_image::limits::LATEST_END;
use scenario_image::{FlowPart, NodeKind, QueueKind, RoutePart};
use sim_time::Time;

/// What a `link` statement says of its link.
#[derive(Clone, Copy)]
pub struct LinkLine {
    /// The node that sends.
    pub from: u16,
    /// The node that receives.
    pub to: u16,
    /// Bits a second.
    pub rate: u64,
    /// Propagation delay in nanoseconds.
    pub delay: Time,
    /// How the queue drops.
    pub queue: QueueKind,
    /// The most packets that the queue holds.
    pub capacity: u16,
}

/// What a `lose` statement says: which packet of a link is lost.
#[derive(Clone, Copy)]
pub struct LoseLine {
    /// The link's number.
    pub link: u16,
    /// Which of the packets offered to the link, counted from 1.
    pub number: u32,
}

/// What a line says.
#[derive(Drop)]
pub enum Statement<'a> {
    /// Events before this moment are run, in nanoseconds.
    Sim(Time),
    /// A node of this name does this.
    Node(Name<'a>, NodeKind),
    /// A link of this name.
    Link(Name<'a>, LinkLine),
    /// A flow of this name.
    Flow(Name<'a>, FlowPart),
    /// Where a router sends packets for a destination.
    Route(RoutePart),
    /// A packet of a link is lost.
    Lose(LoseLine),
}

/// What is wrong with a line.
#[derive(Clone, Copy)]
pub enum StatementFault {
    /// This is wrong with the line as a whole.
    Line(Fault),
    /// This is wrong with the word at this place, counted from 0.
    Word(usize, Fault),
}

impl StatementFault {
    /// What is wrong.
    pub fn fault(self) -> Fault
        ensures { result ≡ fault_in self }
    {
        match self {
            StatementFault::Line(fault) | StatementFault::Word(_, fault) => fault,
        }
    }

    /// Which word is faulty, counted from 0.
    pub fn word(self) -> Option<usize>
        ensures { result ≡ word_in self }
    {
        match self {
            StatementFault::Line(_) => None,
            StatementFault::Word(place, _) => Some(place),
        }
    }
}

/// Whether the word at a place, counted from 0, is this one.
fn has_word(words: &[Word<'_>], place: usize, word: &[u8]) -> bool
    requires { 0 < length word.now }
    ensures { result ≡ bytes_eq (nth words.now place) word.now }
{
    words.get(place).is_some_and(|other| other.is(word))
}

/// `sim END`
fn sim<'a>(words: &[Word<'a>]) -> Result<Statement<'a>, StatementFault>
    ensures said { as_fault result ≡ sim_at words.now }
    ensures word { IfErr result (λ refusal. word_in refusal ≡ sim_word words.now) }
{
    let [_sim, end] = words else {
        return Err(StatementFault::Line(Fault::E3));
    };
    let end = judge!(1, number_in(end, 1, LATEST_END));
    Ok(Statement::Sim(end))
}

/// What a line's words say.
fn read<'a>(table: &Table<'a>, words: &[Word<'a>]) -> Result<Statement<'a>, StatementFault>
    ensures said { as_fault result ≡ statement_at (known_in table.now) words.now }
    ensures word { IfErr result (λ refusal. word_in refusal ≡ statement_word (known_in table.now) words.now) }
{
    if has_word(words, 0, b"sim") {
        sim(words)
    } else if has_word(words, 0, b"node") {
        node::read(table, words)
    } else if has_word(words, 0, b"link") {
        link::read(table, words)
    } else if has_word(words, 0, b"flow") {
        flow::read(table, words)
    } else if has_word(words, 0, b"route") {
        route::read(table, words)
    } else if has_word(words, 0, b"lose") {
        lose::read(table, words)
    } else {
        Err(StatementFault::Word(0, Fault::E2))
    }
}

/// What a line says, of which these are the first words, at most twelve: nothing, a statement, or
/// its first fault.
#[tactic(auto, unfolding(crate::specs::Statements::line_at, crate::specs::Places::line_word))]
pub fn read_line<'a>(
    table: &Table<'a>,
    line: &'a [u8],
    words: &[Word<'a>],
) -> Result<Option<Statement<'a>>, StatementFault>
    requires { words.now ≡ take 12 (words_of line.now) }
    ensures said { as_fault result ≡ line_at (known_in table.now) line.now }
    ensures word { IfErr result (λ refusal. word_in refusal ≡ line_word (known_in table.now) line.now) }
{
    if !is_clean(line) {
        return Err(StatementFault::Line(Fault::E1));
    }
    if words.is_empty() {
        return Ok(None);
    }
    let statement = read(table, words)?;
    Ok(Some(statement))
}
