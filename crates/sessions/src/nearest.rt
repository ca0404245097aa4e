//! The nearest name of a command, for a word that begins none.
ghost use Rattle.std.specs.Prelude.{◌≡◌, [], IfOk, MatchOption};
ghost use Rattle.sessions.specs.Nearest.{IsNearest, nearer, spelling, with_edits};

use command_line::notes::Notes;
use command_line::reasons::shown_bytes;
use prompt_words::CommandName;
use std::alloc::{AllocError, Global};
use strsim::generic_levenshtein;

/// The most bytes of a word whose nearest name is told.
const MOST_WORD: usize = 32;

/// The names, in the order in which a word that begins several of them is read.
const NAMES: [CommandName; 20] = [
    CommandName::Step,
    CommandName::Back,
    CommandName::Break,
    CommandName::Breaks,
    CommandName::Run,
    CommandName::Reverse,
    CommandName::Until,
    CommandName::State,
    CommandName::Lines,
    CommandName::Delete,
    CommandName::Clear,
    CommandName::Help,
    CommandName::Quit,
    CommandName::Why,
    CommandName::Goto,
    CommandName::Where,
    CommandName::Names,
    CommandName::Display,
    CommandName::Undisplay,
    CommandName::Stalls,
];

/// How a name is spelled.
fn spelling(name: CommandName) -> &'static str
    ensures { result.now ≡ spelling name }
{
    match name {
        CommandName::Step => "step",
        CommandName::Back => "back",
        CommandName::Break => "break",
        CommandName::Breaks => "breaks",
        CommandName::Run => "run",
        CommandName::Reverse => "reverse",
        CommandName::Until => "until",
        CommandName::State => "state",
        CommandName::Lines => "lines",
        CommandName::Delete => "delete",
        CommandName::Clear => "clear",
        CommandName::Help => "help",
        CommandName::Quit => "quit",
        CommandName::Why => "why",
        CommandName::Goto => "goto",
        CommandName::Where => "where",
        CommandName::Names => "names",
        CommandName::Display => "display",
        CommandName::Undisplay => "undisplay",
        CommandName::Stalls => "stalls",
    }
}

/// A name, and how many edits lead to it from a word.
#[derive(Clone, Copy)]
struct Near {
    name: CommandName,
    edits: usize,
}

/// A name, with the edits that lead to it from a word.
fn with_edits(alloc: Global, word: &[u8], name: CommandName) -> Result<Near, AllocError>
    ensures { IfOk result (λ found. found ≡ with_edits word.now name) }
{
    let edits = generic_levenshtein(alloc, word, spelling(name).as_bytes())?;
    Ok(Near { name, edits })
}

/// The nearer of two names, the first of them where they are as near.
fn nearer(best: Option<Near>, next: Near) -> Near
    ensures { result ≡ nearer best next }
{
    match best {
        None => next,
        Some(found) => {
            if next.edits < found.edits {
                next
            } else {
                found
            }
        }
    }
}

/// The nearest of names to a word, the first of those that are as near.
fn nearest(alloc: Global, names: &[CommandName], word: &[u8]) -> Result<Option<Near>, AllocError>
    ensures { IfOk result (λ found. MatchOption found (names.now ≡ []) (IsNearest word.now names.now)) }
{
    let mut best = None;
    for name in names {
        let next = with_edits(alloc, word, *name)?;
        best = Some(nearer(best, next));
    }
    Ok(best)
}

/// The first word of a line; no byte where it has none.
pub(crate) fn first_word(line: &[u8]) -> &[u8] {
    let start = line
        .iter()
        .position(|byte| *byte != b' ')
        .unwrap_or(line.len());
    let rest = &line[start..];
    let end = rest
        .iter()
        .position(|byte| *byte == b' ')
        .unwrap_or(rest.len());
    &rest[..end]
}

/// The first name that a word begins.
fn name_begun(word: &[u8]) -> Option<CommandName> {
    for name in &NAMES {
        if spelling(*name).as_bytes().starts_with(word) {
            return Some(*name);
        }
    }
    None
}

/// Whether a word is the whole name of a command.
pub(crate) fn is_name(word: &[u8]) -> bool {
    NAMES.iter().any(|name| spelling(*name).as_bytes() == word)
}

/// The command whose name the first word of a line begins.
pub(crate) fn command_begun(line: &[u8]) -> Option<CommandName> {
    name_begun(first_word(line))
}

/// Tells the nearest name to the first word of a line, where that begins no name, is short, and there
/// is memory to say it.
pub(crate) fn tell_nearest<N: Notes>(alloc: Global, line: &[u8], notes: &mut N) {
    let word = first_word(line);
    if word.len() > MOST_WORD || name_begun(word).is_some() {
        return;
    }
    if let (Ok(Some(found)), Ok(shown)) = (nearest(alloc, &NAMES, word), shown_bytes(alloc, word)) {
        notes.no_command(shown.as_str(), spelling(found.name));
    }
}
