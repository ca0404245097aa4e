//! The two parts of a session's input.
ghost use Rattle.std.specs.Prelude.{◌≡◌};
ghost use Rattle.scenario_asm.specs.Lines.{lines_of_text};
ghost use Rattle.prompt_words.specs.Input.{is_marker, text_lines, command_lines};

use crate::cut::cut;

/// Whether a line ends the scenario text.
fn is_marker(line: &[u8]) -> bool
    ensures { result ≡ is_marker line.now }
{
    line == b"---".as_slice()
}

/// The scenario text, up to the first line that is exactly `---`, and the commands behind that
/// line. Where there is no such line, there are no commands.
pub fn split(input: &[u8]) -> (&[u8], &[u8])
    ensures text { lines_of_text result.0.now ≡ text_lines input.now }
    ensures commands { lines_of_text result.1.now ≡ command_lines input.now }
{
    let mut rest = input;
    while !rest.is_empty() {
        let (line, after) = cut(rest, b'\n');
        if is_marker(line) {
            let before = input.len() - rest.len();
            return (&input[..before], after);
        }
        rest = after;
    }
    (input, &[])
}
