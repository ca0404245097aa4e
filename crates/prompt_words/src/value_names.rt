//! The names of the values that a breakpoint can have a condition on, and of what they are compared with.
ghost use Rattle.std.specs.Prelude.{◌≡◌};
ghost use Rattle.prompt_words.specs.ValueNames.{all_values, value_among, value_named, phase_named, phase_word, value_name, is_time, value_unit, may_change, is_phase, bound_named};

use crate::grammar::{AMOUNTS, is, number_below};
use crate::moment::moment_in;
use breakpoints::{Owner, Phase, VALUES, Value};

/// All values, by their indices.
static ALL_VALUES: [Value; VALUES] = [
    Value::Cwnd,
    Value::Flight,
    Value::Ssthresh,
    Value::Una,
    Value::Nxt,
    Value::Rto,
    Value::Dups,
    Value::Phase,
    Value::Next,
    Value::Queue,
    Value::Wait,
    Value::Count,
    Value::Time,
];

/// All values, by their indices.
#[tactic(auto, unfolding(crate::specs::ValueNames::all_values))]
pub(crate) fn all_values() -> &'static [Value]
    ensures { result.now ≡ all_values }
{
    &ALL_VALUES
}

/// The name of a value.
pub fn value_name(value: Value) -> &'static [u8]
    ensures { result.now ≡ value_name value }
{
    match value {
        Value::Cwnd => b"cwnd",
        Value::Flight => b"flight",
        Value::Ssthresh => b"ssthresh",
        Value::Una => b"una",
        Value::Nxt => b"nxt",
        Value::Rto => b"rto",
        Value::Dups => b"dups",
        Value::Phase => b"phase",
        Value::Next => b"next",
        Value::Queue => b"queue",
        Value::Wait => b"wait",
        Value::Count => b"count",
        Value::Time => b"time",
    }
}

/// The first of these values that a word names.
fn value_among(values: &[Value], word: &[u8]) -> Option<Value>
    ensures { result ≡ value_among values.now word.now }
{
    for value in values {
        if is(word, value_name(*value)) {
            return Some(*value);
        }
    }
    None
}

/// The value that a word names.
pub(crate) fn value_named(word: &[u8]) -> Option<Value>
    ensures { result ≡ value_named word.now }
{
    value_among(all_values(), word)
}

/// Whether a value is a time, in nanoseconds.
pub(crate) fn is_time(value: Value) -> bool
    ensures { result ≡ is_time value }
{
    matches!(value, Value::Rto | Value::Wait | Value::Time)
}

/// The unit of a value, where it has one.
pub fn value_unit(value: Value) -> &'static [u8]
    ensures { result.now ≡ value_unit value }
{
    if is_time(value) { b"ns" } else { b"" }
}

/// Whether a value is a phase.
pub(crate) fn is_phase(value: Value) -> bool
    ensures { result ≡ is_phase value }
{
    matches!(value, Value::Phase)
}

/// Whether a breakpoint can ask that a value changes.
pub(crate) fn may_change(value: Value) -> bool
    ensures { result ≡ may_change value }
{
    matches!(value.owner(), Owner::Flow) && !is_phase(value)
}

/// The word of a phase.
pub fn phase_word(phase: Phase) -> &'static [u8]
    ensures { result.now ≡ phase_word phase }
{
    match phase {
        Phase::SlowStart => b"ss",
        Phase::CongestionAvoidance => b"ca",
        Phase::FastRecovery => b"fr",
    }
}

/// The phase of a sender that a word names.
pub(crate) fn phase_named(word: &[u8]) -> Option<Phase>
    ensures { result ≡ phase_named word.now }
{
    if is(word, b"ss") {
        Some(Phase::SlowStart)
    } else if is(word, b"ca") {
        Some(Phase::CongestionAvoidance)
    } else if is(word, b"fr") {
        Some(Phase::FastRecovery)
    } else {
        None
    }
}

/// What a word says that a value is compared with: a time, or a number.
pub(crate) fn bound_named(value: Value, word: &[u8]) -> Option<u64>
    ensures { result ≡ bound_named value word.now }
{
    if is_time(value) {
        moment_in(word)
    } else {
        number_below(word, AMOUNTS)
    }
}
