//! Lines that are typed: how long one may be, and which ends a session.
ghost use Rattle.std.specs.Prelude.{◌≡◌};
ghost use Rattle.prompt_words.specs.Input.{words_in};
ghost use Rattle.prompt_words.specs.TypedGrammar as typed;

use crate::grammar::one_word;
use crate::name::begins;

/// The most bytes of a line.
pub const MOST_LINE: usize = 65_536;

/// Whether a line has more bytes than a line may have.
pub fn is_long(line: &[u8]) -> bool
    ensures { result ≡ typed.is_long line.now }
{
    line.len() > MOST_LINE
}

/// Whether the only word of a line is `quit`, or begins it.
fn quits(line: &[u8]) -> bool
    ensures { result ≡ typed.quits (words_in line.now) }
{
    match one_word(line) {
        Some(word) => begins(word, b"quit"),
        None => false,
    }
}

/// Whether a line ends a session at a prompt.
pub fn is_quit(line: &[u8]) -> bool
    ensures { result ≡ typed.is_quit line.now }
{
    !is_long(line) && quits(line)
}
