//! From a line that is typed to a command.
ghost use Rattle.std.specs.Prelude.{◌≡◌, ◌<◌, ◌≤◌, ◌^◌, ◌-◌, IfOk};
ghost use Rattle.prompt_words.specs.Input.{words_in};
ghost use Rattle.prompt_words.specs.Refusals.{by_code, line_by_code};
ghost use Rattle.prompt_words.specs.TypedGrammar.{number_or, one_moment, target, one_target, break_number, one_break_number, goes, shows, part_asked, state_asked, typed_alone, help_asked, plain_typed, command_typed, typed_reading};

use crate::command::{Move, Request, Shown, Typed};
use crate::conditions::break_asked;
use crate::cut::next_word;
use crate::display::{DisplayCommand, display_asked};
use crate::entries::{name_of, topic_of};
use crate::grammar::{AMOUNTS, is, is_numeral, number_below, one_number, one_word};
use crate::memo::Extent;
use crate::moment::moment_in;
use crate::name::CommandName;
use crate::naming::{Naming, PartSort};
use crate::refusal::{Refusal, Refused};
use breakpoints::breaks::MOST_BREAKS;
use trace_text::DumpPart;

/// How many lines are shown where no number is given.
const USUAL_LINES: u64 = 10;

/// The most lines that can be asked for.
const MOST_LINES: u64 = 1_000;

/// The greatest number that a breakpoint or a display can have.
const GREATEST_NUMBER: u64 = MOST_BREAKS as u64;

/// The number below a bound that is the only word of a line, or the usual one where there is none.
fn number_or(usual: u64, line: &[u8], bound: u64) -> Result<u64, Refusal>
    requires { bound ≤ 2 ^ 64 - 1 }
    ensures { result ≡ number_or usual bound (words_in line.now) }
{
    match next_word(line) {
        None => Ok(usual),
        Some(_) => one_number(line, bound),
    }
}

/// The moment that is the only word of a line.
fn one_moment(line: &[u8]) -> Result<u64, Refusal>
    ensures { result ≡ one_moment (words_in line.now) }
{
    match one_word(line) {
        None => Err(Refusal::B2),
        Some(word) => moment_in(word).ok_or(Refusal::B3),
    }
}

/// The number of a breakpoint or a display that is the only word of a line.
fn one_break_number(line: &[u8]) -> Result<u64, Refusal>
    ensures { result ≡ one_break_number (words_in line.now) }
{
    match one_word(line) {
        None => Err(Refusal::B2),
        Some(word) => break_number(word),
    }
}

/// The number of a breakpoint that a word is.
fn break_number(word: &[u8]) -> Result<u64, Refusal>
    ensures { result ≡ break_number word.now }
{
    if is_numeral(word) {
        number_below(word, GREATEST_NUMBER + 1).ok_or(Refusal::B5)
    } else {
        Err(Refusal::B3)
    }
}

/// A move is asked for.
fn goes(asked: Move) -> Request
    ensures { result ≡ goes asked }
{
    Request::Command(Typed::Go(asked))
}

/// Something is asked to be shown.
fn shows(what: Shown) -> Request
    ensures { result ≡ shows what }
{
    Request::Command(Typed::Show(what))
}

/// What is asked, where a line has no word.
fn typed_alone(asked: Typed, line: &[u8]) -> Result<Request, Refusal>
    ensures { result ≡ typed_alone asked (words_in line.now) }
{
    match next_word(line) {
        None => Ok(Request::Command(asked)),
        Some(_) => Err(Refusal::B2),
    }
}

/// What is asked by the words behind `help`.
fn help_asked(line: &[u8]) -> Result<Request, Refusal>
    ensures { result ≡ help_asked (words_in line.now) }
{
    match next_word(line) {
        None => Ok(shows(Shown::Help)),
        Some((word, rest)) => match topic_of(word) {
            None => Err(Refusal::B1),
            Some(place) => typed_alone(Typed::Show(Shown::HelpOn(place)), rest),
        },
    }
}

/// The part of a state of a sort, with the words behind that.
fn part_asked<'a>(naming: &Naming, sort: &[u8], line: &'a [u8]) -> Result<DumpPart, Refused<'a>>
    ensures { by_code result ≡ part_asked naming.now sort.now (words_in line.now) }
{
    if is(sort, b"node") {
        Ok(DumpPart::Node(naming.one_part(PartSort::Node, line)?))
    } else if is(sort, b"link") {
        Ok(DumpPart::Link(naming.one_part(PartSort::Link, line)?))
    } else if is(sort, b"flow") {
        Ok(DumpPart::Flow(naming.one_part(PartSort::Flow, line)?))
    } else {
        Err(Refused::from(Refusal::B1))
    }
}

/// What is asked by the words behind `state`.
fn state_asked<'a>(naming: &Naming, line: &'a [u8]) -> Result<Request, Refused<'a>>
    ensures { by_code result ≡ state_asked naming.now (words_in line.now) }
{
    match next_word(line) {
        None => Ok(Request::Command(Typed::State)),
        Some((sort, rest)) => {
            let part = part_asked(naming, sort, rest)?;
            Ok(shows(Shown::Part(part)))
        }
    }
}

/// The position or the moment that a word is.
fn target(word: &[u8]) -> Result<Move, Refusal>
    ensures { result ≡ target word.now }
{
    if is_numeral(word) {
        let position = number_below(word, AMOUNTS).ok_or(Refusal::B3)?;
        Ok(Move::Goto(position))
    } else {
        let time = moment_in(word).ok_or(Refusal::B3)?;
        Ok(Move::Moment(time))
    }
}

/// The position or the moment that is gone to.
fn one_target(line: &[u8]) -> Result<Move, Refusal>
    ensures { result ≡ one_target (words_in line.now) }
{
    match one_word(line) {
        None => Err(Refusal::B2),
        Some(word) => target(word),
    }
}

/// How many events are asked for.
fn count_typed(line: &[u8]) -> Result<u64, Refusal>
    ensures { result ≡ number_or 1 1000000000000001 (words_in line.now) }
{
    number_or(1, line, AMOUNTS)
}

/// The command of a name, with the words behind it, where those name no node, link or flow.
fn plain_typed(name: CommandName, rest: &[u8]) -> Result<Request, Refusal>
    ensures { result ≡ plain_typed name (words_in rest.now) }
{
    match name {
        CommandName::Step => Ok(goes(Move::Step(count_typed(rest)?))),
        CommandName::Back => Ok(goes(Move::Back(count_typed(rest)?))),
        CommandName::Breaks => typed_alone(Typed::Breaks, rest),
        CommandName::Run => typed_alone(Typed::Go(Move::Run), rest),
        CommandName::Reverse => typed_alone(Typed::Go(Move::Reverse), rest),
        CommandName::Until => Ok(goes(Move::Until(one_moment(rest)?))),
        CommandName::Lines => {
            let count = number_or(USUAL_LINES, rest, MOST_LINES + 1)?;
            Ok(shows(Shown::Lines(count)))
        }
        CommandName::Delete => Ok(Request::Command(Typed::Delete(one_break_number(rest)?))),
        CommandName::Clear => typed_alone(Typed::Clear, rest),
        CommandName::Help => help_asked(rest),
        CommandName::Quit => Err(Refusal::B2),
        CommandName::Goto => Ok(goes(one_target(rest)?)),
        CommandName::Where => typed_alone(Typed::Show(Shown::Where(Extent::nothing())), rest),
        CommandName::Names => typed_alone(Typed::Show(Shown::Names), rest),
        CommandName::Undisplay => {
            let number = one_break_number(rest)?;
            Ok(Request::Display(DisplayCommand::TakeAway(number)))
        }
        CommandName::Stalls => typed_alone(Typed::Show(Shown::Stalls), rest),
        CommandName::Break | CommandName::State | CommandName::Why | CommandName::Display => {
            Err(Refusal::B1)
        }
    }
}

/// What came of a line, with nothing to say of a word where it is a refusal.
pub fn with_code<'a, T>(read: Result<T, Refusal>) -> Result<T, Refused<'a>>
    ensures { by_code result ≡ read }
{
    match read {
        Ok(value) => Ok(value),
        Err(code) => Err(Refused::from(code)),
    }
}

/// The command of a name, with the words behind it.
fn command_typed<'a>(
    naming: &Naming,
    name: Option<CommandName>,
    rest: &'a [u8],
) -> Result<Request, Refused<'a>>
    ensures { by_code result ≡ command_typed naming.now name (words_in rest.now) }
{
    match name {
        None => Err(Refused::from(Refusal::B1)),
        Some(CommandName::Break) => {
            let b = break_asked(naming, rest)?;
            Ok(Request::Command(Typed::SetBreak(b)))
        }
        Some(CommandName::State) => state_asked(naming, rest),
        Some(CommandName::Why) => Ok(shows(Shown::Why(naming.one_part(PartSort::Flow, rest)?))),
        Some(CommandName::Display) => Ok(Request::Display(display_asked(naming, rest)?)),
        Some(name) => with_code(plain_typed(name, rest)),
    }
}

/// The command that a line says, or why it is refused; nothing where the line has no words.
pub fn read_typed<'a>(naming: &Naming, line: &'a [u8]) -> Option<Result<Request, Refused<'a>>>
    ensures { line_by_code result ≡ typed_reading naming.now line.now }
{
    let (word, rest) = next_word(line)?;
    Some(command_typed(naming, name_of(word), rest))
}
