//! From a line to a command.
ghost use Rattle.std.specs.Prelude.{◌≡◌, ◌≢◌, ◌<◌, ◌≤◌, ◌^◌, ◌-◌, [], ◌∷◌, min, length, IsTrue, IfOk, MatchOption, IfSome};
ghost use Rattle.std.specs.List.{list_all};
ghost use Rattle.std.specs.Str.{bytes_eq};
ghost use Rattle.std.specs.Str.Parse.{digits_value};
ghost use Rattle.scenario_asm.specs.Numbers.{is_numeral, is_digit};
ghost use Rattle.prompt_words.specs.Input.{words_in};
ghost use Rattle.prompt_words.specs.Grammar.{number_below, one_number, no_word_left, kind_named, sets, one_kind, breakpoint, command_named, reading};

use crate::command::{Command, Limits, Move};
use crate::cut::next_word;
use crate::refusal::Refusal;
use breakpoints::{Break, Condition, EventKind};

/// One more than the greatest number of events or nanoseconds that can be asked for.
pub(crate) const AMOUNTS: u64 = 1_000_000_000_000_001;

/// Whether a word is this one.
pub fn is(word: &[u8], other: &[u8]) -> bool
    ensures { result ≡ bytes_eq word.now other.now }
{
    word == other
}

/// Whether a byte is from `0` to `9`.
pub(crate) fn is_digit(byte: u8) -> bool
    ensures { result ≡ is_digit byte }
{
    matches!(byte, b'0'..=b'9')
}

/// Whether all bytes are digits.
fn are_digits(bytes: &[u8]) -> bool
    ensures { result ≡ list_all is_digit bytes.now }
{
    bytes.iter().all(|byte| is_digit(*byte))
}

/// Whether a word is decimal digits, with no 0 before others.
pub(crate) fn is_numeral(word: &[u8]) -> bool
    ensures { result ≡ is_numeral word.now }
{
    match word.split_first() {
        Some((first, rest)) => is_digit(*first)
            && (rest.is_empty() || *first != b'0' && are_digits(rest)),
        None => false,
    }
}

/// The number that digits mean, or the greatest `u64` where it is above that.
pub(crate) fn value(digits: &[u8]) -> u64
    requires { IsTrue (list_all is_digit digits.now) }
    ensures { result ≡ min (digits_value 10 digits.now) (2 ^ 64 - 1) }
{
    let mut value = 0u64;
    for digit in digits {
        value = value
            .saturating_mul(10)
            .saturating_add(u64::from(*digit - b'0'));
    }
    value
}

/// The number below a bound that a word is, in decimal digits with no 0 before others.
pub fn number_below(word: &[u8], bound: u64) -> Option<u64>
    requires { bound ≤ 2 ^ 64 - 1 }
    ensures value { result ≡ number_below bound word.now }
    ensures below { IfSome result (λ n. n < bound) }
{
    if !is_numeral(word) {
        return None;
    }
    let n = value(word);
    if n < bound { Some(n) } else { None }
}

/// The only word of a line.
pub(crate) fn one_word(line: &[u8]) -> Option<&[u8]>
    ensures { MatchOption result (length (words_in line.now) ≢ 1) (λ word. words_in line.now ≡ word.now ∷ []) }
{
    let (word, rest) = next_word(line)?;
    match next_word(rest) {
        None => Some(word),
        Some(_) => None,
    }
}

/// The number below a bound that is the only word of a line.
pub(crate) fn one_number(line: &[u8], bound: u64) -> Result<u64, Refusal>
    requires { bound ≤ 2 ^ 64 - 1 }
    ensures number { result ≡ one_number bound (words_in line.now) }
    ensures below { IfOk result (λ n. n < bound) }
{
    match one_word(line) {
        None => Err(Refusal::B2),
        Some(word) => number_below(word, bound).ok_or(Refusal::B3),
    }
}

/// The kind of events that a word names.
pub(crate) fn kind_named(word: &[u8]) -> Option<EventKind>
    ensures { result ≡ kind_named word.now }
{
    if is(word, b"start") {
        Some(EventKind::Start)
    } else if is(word, b"rto") {
        Some(EventKind::Rto)
    } else if is(word, b"delack") {
        Some(EventKind::DelAck)
    } else if is(word, b"free") {
        Some(EventKind::Free)
    } else if is(word, b"data") {
        Some(EventKind::Data)
    } else if is(word, b"ack") {
        Some(EventKind::Ack)
    } else {
        None
    }
}

/// The command that sets a breakpoint of one condition.
fn sets(condition: Condition) -> Command
    ensures { result ≡ sets condition }
{
    Command::SetBreak(Break::of(condition))
}

/// A breakpoint on the kind that is the only word of a line.
fn one_kind(line: &[u8]) -> Result<Command, Refusal>
    ensures { result ≡ one_kind (words_in line.now) }
{
    match one_word(line) {
        None => Err(Refusal::B2),
        Some(word) => match kind_named(word) {
            Some(kind) => Ok(sets(Condition::Kind(kind))),
            None => Err(Refusal::B3),
        },
    }
}

/// A command, where a line has no word.
fn alone(command: Command, line: &[u8]) -> Result<Command, Refusal>
    ensures { result ≡ no_word_left command (words_in line.now) }
{
    match next_word(line) {
        None => Ok(command),
        Some(_) => Err(Refusal::B2),
    }
}

/// The breakpoint of one condition that the words behind `break` name.
fn breakpoint(limits: Limits, line: &[u8]) -> Result<Command, Refusal>
    ensures { result ≡ breakpoint limits (words_in line.now) }
{
    let Some((sort, rest)) = next_word(line) else {
        return Err(Refusal::B2);
    };
    if is(sort, b"node") {
        let node = one_number(rest, u64::from(limits.nodes))?;
        Ok(sets(Condition::Node(node as u16)))
    } else if is(sort, b"flow") {
        let flow = one_number(rest, u64::from(limits.flows))?;
        Ok(sets(Condition::Flow(flow as u16)))
    } else if is(sort, b"kind") {
        one_kind(rest)
    } else if is(sort, b"drop") {
        alone(sets(Condition::Drop), rest)
    } else {
        Err(Refusal::B1)
    }
}

/// The command of a name, with the words behind it.
fn command_named(limits: Limits, name: &[u8], rest: &[u8]) -> Result<Command, Refusal>
    ensures { result ≡ command_named limits name.now (words_in rest.now) }
{
    if is(name, b"step") {
        Ok(Command::Go(Move::Step(one_number(rest, AMOUNTS)?)))
    } else if is(name, b"back") {
        Ok(Command::Go(Move::Back(one_number(rest, AMOUNTS)?)))
    } else if is(name, b"until") {
        Ok(Command::Go(Move::Until(one_number(rest, AMOUNTS)?)))
    } else if is(name, b"run") {
        alone(Command::Go(Move::Run), rest)
    } else if is(name, b"state") {
        alone(Command::State, rest)
    } else if is(name, b"break") {
        breakpoint(limits, rest)
    } else if is(name, b"clear") {
        alone(Command::Clear, rest)
    } else {
        Err(Refusal::B1)
    }
}

/// The command that a line says, or why it is refused; nothing where the line has no words.
pub fn read_line(limits: Limits, line: &[u8]) -> Option<Result<Command, Refusal>>
    ensures { result ≡ reading limits line.now }
{
    let (name, rest) = next_word(line)?;
    Some(command_named(limits, name, rest))
}
