//! Numbers.
ghost use Rattle.std.specs.Prelude.{◌≡◌, ◌<◌, ◌^◌, ◌-◌, min, IsTrue, IfOk, ◌≤◌};
ghost use Rattle.std.specs.List.{list_all};
ghost use Rattle.std.specs.Str.Parse.{digits_value};
ghost use Rattle.scenario_asm.specs.Numbers.{number, number_verdict, is_numeral, is_digit};
ghost use Rattle.scenario_asm.specs.Verdicts.{Judges};

use crate::fault::Fault;
use crate::lexer::Word;

/// Whether a byte is from `0` to `9`.
fn is_digit(byte: u8) -> bool
    ensures { result ≡ is_digit byte }
{
    matches!(byte, b'0'..=b'9')
}

/// Whether all bytes are digits.
fn are_digits(bytes: &[u8]) -> bool
    ensures { result ≡ list_all is_digit bytes.now }
{
    bytes.iter().all(|byte| is_digit(*byte))
}

/// Whether a word is decimal digits, with no 0 before others.
fn is_numeral(word: &[u8]) -> bool
    ensures { result ≡ is_numeral word.now }
{
    match word.split_first() {
        Some((first, rest)) => is_digit(*first)
            && (rest.is_empty() || *first != b'0' && are_digits(rest)),
        None => false,
    }
}

/// The number that digits mean, or the greatest `u64` where it is above that.
fn value(digits: &[u8]) -> u64
    requires { IsTrue (list_all is_digit digits.now) }
    ensures { result ≡ min (digits_value 10 digits.now) (2 ^ 64 - 1) }
{
    let mut value = 0u64;
    for digit in digits {
        value = value
            .saturating_mul(10)
            .saturating_add(u64::from(*digit - b'0'));
    }
    value
}

/// The number that a word means, from the least to the greatest.
pub fn number_in(word: &Word<'_>, least: u64, greatest: u64) -> Result<u64, Fault>
    requires { greatest < 2 ^ 64 - 1 }
    ensures judges { Judges (number_verdict least greatest word.now) (number word.now) result }
    ensures within { IfOk result (λ n. (least ≤ n) × (n ≤ greatest)) }
{
    let digits = word.bytes();
    if !is_numeral(digits) {
        return Err(Fault::E4);
    }
    let value = value(digits);
    if value < least || greatest < value {
        return Err(Fault::E5);
    }
    Ok(value)
}
