//! Names.
ghost use Rattle.std.specs.Prelude.{◌≡◌, if◌then◌else◌};
ghost use Rattle.std.specs.List.{list_all};
ghost use Rattle.scenario_asm.specs.Numbers.{is_name, is_small_letter, is_letter_or_digit};

use crate::lexer::Word;
use std::marker::Model;

/// Whether a byte is from `a` to `z`.
fn is_small_letter(byte: u8) -> bool
    ensures { result ≡ is_small_letter byte }
{
    matches!(byte, b'a'..=b'z')
}

/// Whether a byte may stand in a name after its first.
fn is_letter_or_digit(byte: u8) -> bool
    ensures { result ≡ is_letter_or_digit byte }
{
    matches!(byte, b'a'..=b'z' | b'0'..=b'9')
}

/// Whether all bytes may stand in a name after its first.
fn is_tail(bytes: &[u8]) -> bool
    ensures { result ≡ list_all is_letter_or_digit bytes.now }
{
    bytes.iter().all(|byte| is_letter_or_digit(*byte))
}

/// Whether a word is a small letter and then up to 14 small letters or digits.
fn is_name(word: &[u8]) -> bool
    ensures { result ≡ is_name word.now }
{
    match word.split_first() {
        Some((first, tail)) => is_small_letter(*first) && tail.len() <= 14 && is_tail(tail),
        None => false,
    }
}

/// A name: a small letter, then up to 14 small letters or digits.
#[derive(Drop)]
pub struct Name<'a> {
    bytes: &'a [u8],
}

impl<'a> Model for Name<'a> {
    ghost use Rattle.std.specs.Prelude.{ℕ, List};

    ghost Value = { List ℕ };

    ghost view = { λ n. n.bytes.now };
}

impl<'a> Name<'a> {
    /// The name that a word is.
    pub fn of(word: &Word<'a>) -> Option<Name<'a>>
        ensures { result ≡ (if is_name word.now then Some word.now else None) }
    {
        let bytes = word.bytes();
        if is_name(bytes) {
            Some(Name { bytes })
        } else {
            None
        }
    }

    /// The name's bytes.
    pub fn bytes(&self) -> &'a [u8]
        ensures { result.now ≡ self.now }
    {
        self.bytes
    }
}
