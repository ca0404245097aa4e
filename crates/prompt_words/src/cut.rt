//! Lines of a text, and words of a line.
ghost use Rattle.std.specs.Prelude.{◌≡◌, ◌==◌, ◌<◌, ◌∷◌, [], length, MatchOption, IfSome, IsTrue};
ghost use Rattle.std.specs.List.{before_first, after_first, position};
ghost use Rattle.prompt_words.specs.Input.{words_in};

/// Where a byte first stands.
fn place_of(bytes: &[u8], byte: u8) -> Option<usize>
    ensures { result ≡ position (λ b. b == byte) bytes.now }
{
    bytes.iter().position(|other| *other == byte)
}

/// What stands before the first such byte, and what stands after it.
pub fn cut(bytes: &[u8], byte: u8) -> (&[u8], &[u8])
    ensures before { result.0.now ≡ before_first (λ b. b == byte) bytes.now }
    ensures after { result.1.now ≡ after_first (λ b. b == byte) bytes.now }
{
    match place_of(bytes, byte) {
        Some(place) => (&bytes[..place], &bytes[place + 1..]),
        None => (bytes, &[]),
    }
}

/// The first word of a line, and what stands behind it.
pub(crate) fn next_word(line: &[u8]) -> Option<(&[u8], &[u8])>
    ensures full { IfSome result (λ found. 0 < length found.0.now) }
    ensures first { MatchOption result (words_in line.now ≡ []) (λ found. words_in line.now ≡ found.0.now ∷ words_in found.1.now) }
{
    let mut rest = line;
    while !rest.is_empty() {
        let (word, after) = cut(rest, b' ');
        rest = after;
        if !word.is_empty() {
            return Some((word, rest));
        }
    }
    None
}
