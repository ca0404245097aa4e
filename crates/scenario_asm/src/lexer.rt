//! Lines, comments and words.
ghost use Rattle.std.specs.Prelude.{◌≡◌, ◌==◌, not, OnOk, take};
ghost use Rattle.std.specs.Iterator.{YieldsFirstRef, item_count};
ghost use Rattle.std.specs.List.{before_first, after_first, list_all, position};
ghost use Rattle.std.specs.Str.{bytes_eq};
ghost use Rattle.scenario_asm.specs.Lines.{pieces, words_of, without_comment, is_printable, is_word};
ghost use Rattle.scenario_asm.specs.Places.{IsWord};

use std::alloc::AllocError;
use std::marker::Model;

/// Where a byte first stands.
fn place_of(bytes: &[u8], byte: u8) -> Option<usize>
    ensures { result ≡ position (λ b. b == byte) bytes.now }
{
    bytes.iter().position(|other| *other == byte)
}

/// What stands before the first such byte, and what stands after it.
fn cut(bytes: &[u8], byte: u8) -> (&[u8], &[u8])
    ensures before { result.0.now ≡ before_first (λ b. b == byte) bytes.now }
    ensures after { result.1.now ≡ after_first (λ b. b == byte) bytes.now }
{
    match place_of(bytes, byte) {
        Some(place) => (&bytes[..place], &bytes[place + 1..]),
        None => (bytes, &[]),
    }
}

/// The pieces that a byte ends. The last piece may lack it.
#[derive(Drop)]
pub struct Pieces<'a> {
    rest: &'a [u8],
    end: u8,
}

impl<'a> Model for Pieces<'a> {
    ghost use Rattle.std.specs.Prelude.{ℕ, List};
    ghost use Rattle.scenario_asm.specs.Lines.{pieces};

    ghost Value = { List (List ℕ) };

    ghost view = { λ p. pieces p.end p.rest.now };
}

impl<'a> Pieces<'a> {
    /// The pieces of these bytes.
    pub fn new(bytes: &'a [u8], end: u8) -> Pieces<'a>
        ensures { result ≡ pieces end bytes.now }
    {
        Pieces { rest: bytes, end }
    }
}

impl<'a> Iterator for Pieces<'a> {
    type Item = &'a [u8];

    ghost next_gives = { YieldsFirstRef (λ s. s) };

    ghost remaining = { item_count (λ s. s) };

    #[tactic(auto, using(crate::proofs::Pieces::pieces_first, crate::proofs::Pieces::pieces_none))]
    fn next(&mut self) -> Option<&'a [u8]> {
        if self.rest.is_empty() {
            return None;
        }
        let (piece, rest) = cut(self.rest, self.end);
        self.rest = rest;
        Some(piece)
    }
}

/// A word of a line.
#[derive(Drop)]
pub struct Word<'a> {
    bytes: &'a [u8],
}

impl<'a> Model for Word<'a> {
    ghost use Rattle.std.specs.Prelude.{ℕ, List};

    ghost Value = { List ℕ };

    ghost view = { λ w. w.bytes.now };
}

impl<'a> Word<'a> {
    /// The word's bytes.
    pub fn bytes(&self) -> &'a [u8]
        ensures { result.now ≡ self.now }
    {
        self.bytes
    }

    /// Whether the word is this one.
    pub fn is(&self, other: &[u8]) -> bool
        ensures { result ≡ bytes_eq self.now other.now }
    {
        self.bytes == other
    }
}

/// Whether a byte is printable ASCII.
fn is_printable(byte: u8) -> bool
    ensures { result ≡ is_printable byte }
{
    matches!(byte, 0x20..=0x7e)
}

/// Whether every byte of a line is printable ASCII.
pub fn is_clean(line: &[u8]) -> bool
    ensures { result ≡ list_all is_printable line.now }
{
    line.iter().all(|byte| is_printable(*byte))
}

/// Where the first byte of a line stands that is not printable ASCII.
pub fn first_unprintable(line: &[u8]) -> Option<usize>
    ensures { result ≡ position (λ byte. not (is_printable byte)) line.now }
{
    line.iter().position(|byte| !is_printable(*byte))
}

/// One more than the most words of a statement: of a longer line no more words are kept.
const MOST_WORDS: usize = 12;

/// The first words of a line, its comment left out: at most twelve. They take the place of what was in
/// the vector, so that one vector does for all lines.
pub fn first_words<'a>(line: &'a [u8], words: &mut Vec<Word<'a>>) -> Result<(), AllocError>
    ensures { OnOk result (words.new.items ≡ take 12 (words_of line.now)) }
{
    let (content, _comment) = cut(line, b'#');
    words.clear();
    for bytes in Pieces::new(content, b' ') {
        if words.len() == MOST_WORDS {
            return Ok(());
        }
        if !bytes.is_empty() {
            words.push(Word { bytes })?;
        }
    }
    Ok(())
}

/// Where in a line a word begins, and one more than where it ends; with fewer words twice the end of
/// what stands before the comment.
pub fn word_range(line: &[u8], number: usize) -> (usize, usize)
    ensures { IsWord line.now number result.0 result.1 }
{
    let (content, _comment) = cut(line, b'#');
    let mut start = 0;
    let mut before = 0;
    for bytes in Pieces::new(content, b' ') {
        let end = start + bytes.len();
        if !bytes.is_empty() {
            if before == number {
                return (start, end);
            }
            before += 1;
        }
        // The last piece may have no space after it.
        start = end.saturating_add(1);
    }
    (content.len(), content.len())
}
