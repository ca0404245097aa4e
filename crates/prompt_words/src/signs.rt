//! Signs of conditions on values, at which the words behind `break` are parted.
ghost use Rattle.std.specs.Prelude.{◌≡◌, ◌<◌, ◌≤◌, ◌+◌, ◌∷◌, [], length, MatchOption};
ghost use Rattle.std.specs.List.{position, position_or_len};
ghost use Rattle.prompt_words.specs.Input.{words_in};
ghost use Rattle.prompt_words.specs.Signs.{is_sign, parts_of_word, parts_from, sign_length, first_length, sign_named};

use crate::cut::next_word;
use crate::grammar::is;
use breakpoints::Sign;

/// Whether a byte is `<`, `=` or `>`.
fn is_sign(byte: u8) -> bool
    ensures { result ≡ is_sign byte }
{
    matches!(byte, b'<' | b'=' | b'>')
}

/// Where a sign first stands.
fn place_of_sign(word: &[u8]) -> Option<usize>
    ensures { result ≡ position is_sign word.now }
{
    word.iter().position(|b| is_sign(*b))
}

/// How many bytes stand before the first sign.
fn plain_length(word: &[u8]) -> usize
    ensures value { result ≡ position_or_len is_sign word.now }
    ensures within { result ≤ length word.now }
{
    match place_of_sign(word) {
        Some(place) => place,
        None => word.len(),
    }
}

/// How many bytes a sign has, of which this is the first.
fn sign_length(first: u8, rest: &[u8]) -> usize
    ensures value { result ≡ sign_length first rest.now }
    ensures within { result ≤ 1 + length rest.now }
{
    match rest.split_first() {
        None => 1,
        Some((second, _)) => {
            if first != b'=' && *second == b'=' {
                2
            } else {
                1
            }
        }
    }
}

/// How many bytes the first part of a word has.
fn first_length(word: &[u8]) -> usize
    ensures value { result ≡ first_length word.now }
    ensures within { result ≤ length word.now }
{
    match word.split_first() {
        None => 0,
        Some((first, rest)) => {
            if is_sign(*first) {
                sign_length(*first, rest)
            } else {
                1 + plain_length(rest)
            }
        }
    }
}

/// The first part of a word, and what stands behind it.
fn first_part(word: &[u8]) -> (&[u8], &[u8])
    requires { 0 < length word.now }
    ensures { parts_of_word word.now ≡ result.0.now ∷ parts_of_word result.1.now }
{
    let end = first_length(word);
    (&word[..end], &word[end..])
}

/// The first part of a word and of the words of a line behind it, and what stands behind that.
pub(crate) fn next_part<'a>(
    word: &'a [u8],
    line: &'a [u8],
) -> Option<(&'a [u8], &'a [u8], &'a [u8])>
    ensures { MatchOption result (parts_from word.now (words_in line.now) ≡ []) (λ found. parts_from word.now (words_in line.now) ≡ found.0.now ∷ parts_from found.1.now (words_in found.2.now)) }
{
    if word.is_empty() {
        let (first, after) = next_word(line)?;
        let (part, behind) = first_part(first);
        Some((part, behind, after))
    } else {
        let (part, behind) = first_part(word);
        Some((part, behind, line))
    }
}

/// The sign that a word is.
pub(crate) fn sign_named(word: &[u8]) -> Option<Sign>
    ensures { result ≡ sign_named word.now }
{
    if is(word, b"<") {
        Some(Sign::Less)
    } else if is(word, b"<=") {
        Some(Sign::AtMost)
    } else if is(word, b">") {
        Some(Sign::Greater)
    } else if is(word, b">=") {
        Some(Sign::AtLeast)
    } else if is(word, b"=") {
        Some(Sign::Equal)
    } else {
        None
    }
}
