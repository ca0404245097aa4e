//! Moments as they are typed: nanoseconds, or a number with a unit.
ghost use Rattle.std.specs.Prelude.{◌≡◌, ◌≤◌, ◌-◌, ◌^◌, min, length, IsTrue, IfSome, not};
ghost use Rattle.std.specs.List.{list_all, position};
ghost use Rattle.scenario_asm.specs.Numbers.{is_digit};
ghost use Rattle.prompt_words.specs.Times.{first_digits, behind_digits, places_of, nanoseconds, moment, in_unit, with_part, moment_of_words, moment_in};

use crate::grammar::{AMOUNTS, is, is_digit, is_numeral, value};

/// Where a byte first stands that is no digit.
fn end_of_digits(word: &[u8]) -> Option<usize>
    ensures { result ≡ position (λ b. not (is_digit b)) word.now }
{
    word.iter().position(|b| !is_digit(*b))
}

/// A word in two, before its first byte that is no digit.
fn cut_digits(word: &[u8]) -> (&[u8], &[u8])
    ensures first { result.0.now ≡ first_digits word.now }
    ensures behind { result.1.now ≡ behind_digits word.now }
{
    match end_of_digits(word) {
        Some(end) => (&word[..end], &word[end..]),
        None => (word, &[]),
    }
}

/// The digits at the start of a word, and what stands behind them.
fn split_digits(word: &[u8]) -> (&[u8], &[u8])
    ensures first { result.0.now ≡ first_digits word.now }
    ensures behind { result.1.now ≡ behind_digits word.now }
    ensures digits { IsTrue (list_all is_digit result.0.now) }
{
    cut_digits(word)
}

/// How many digits may stand behind the point where a unit follows.
fn places_of(unit: &[u8]) -> Option<usize>
    ensures value { result ≡ places_of unit.now }
    ensures few { IfSome result (λ places. places ≤ 9) }
{
    if is(unit, b"ns") {
        Some(0)
    } else if is(unit, b"us") {
        Some(3)
    } else if is(unit, b"ms") {
        Some(6)
    } else if is(unit, b"s") {
        Some(9)
    } else {
        None
    }
}

/// 10 to a small power.
fn power_of_ten(places: usize) -> u64
    requires { places ≤ 9 }
    ensures { result ≡ 10 ^ places }
{
    10u64.pow(places as u32)
}

/// The nanoseconds of whole units and of a fraction of one, or the greatest `u64` where they are
/// above that.
fn nanoseconds(places: usize, whole: &[u8], part: &[u8]) -> u64
    requires places { places ≤ 9 }
    requires fits { length part.now ≤ places }
    requires whole { IsTrue (list_all is_digit whole.now) }
    requires part { IsTrue (list_all is_digit part.now) }
    ensures { result ≡ min (nanoseconds places whole.now part.now) (2 ^ 64 - 1) }
{
    let units = value(whole).saturating_mul(power_of_ten(places));
    let fraction = value(part).saturating_mul(power_of_ten(places - part.len()));
    units.saturating_add(fraction)
}

/// A moment of at most 10^15 nanoseconds.
fn moment(time: u64) -> Option<u64>
    ensures { result ≡ moment time }
{
    if time < AMOUNTS { Some(time) } else { None }
}

/// The moment of whole units and of a fraction of one.
fn in_unit(whole: &[u8], part: &[u8], unit: &[u8]) -> Option<u64>
    requires whole { IsTrue (list_all is_digit whole.now) }
    requires part { IsTrue (list_all is_digit part.now) }
    ensures { result ≡ in_unit whole.now part.now (places_of unit.now) }
{
    let places = places_of(unit)?;
    if part.len() <= places {
        moment(nanoseconds(places, whole, part))
    } else {
        None
    }
}

/// The moment of whole units and of what stands behind a point.
fn with_part(whole: &[u8], behind: &[u8]) -> Option<u64>
    requires { IsTrue (list_all is_digit whole.now) }
    ensures { result ≡ with_part whole.now (first_digits behind.now) (behind_digits behind.now) }
{
    let (part, unit) = split_digits(behind);
    if part.is_empty() {
        return None;
    }
    in_unit(whole, part, unit)
}

/// The moment of a whole number and of what stands behind it.
fn moment_of(whole: &[u8], behind: &[u8]) -> Option<u64>
    requires { IsTrue (list_all is_digit whole.now) }
    ensures { result ≡ moment_of_words whole.now behind.now }
{
    match behind.split_first() {
        None => moment(value(whole)),
        Some((first, rest)) => {
            if *first == b'.' {
                with_part(whole, rest)
            } else {
                in_unit(whole, &[], behind)
            }
        }
    }
}

/// The moment that a word is, in nanoseconds.
pub fn moment_in(word: &[u8]) -> Option<u64>
    ensures { result ≡ moment_in word.now }
{
    let (whole, behind) = split_digits(word);
    if is_numeral(whole) {
        moment_of(whole, behind)
    } else {
        None
    }
}
