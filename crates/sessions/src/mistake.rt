//! What is told of a word of the command line that is no subcommand.

use crate::nearest::is_name;
use clap::error::ErrorKind;
use command_line::notes::Notes;
use std::alloc::{AllocError, Global};
use std::convert::AsStr;
use strsim::generic_levenshtein;

const SUBCOMMANDS: [&str; 6] = ["asm", "dis", "run", "figures", "debug", "explain"];

/// So many edits lead to a subcommand from a word that is told of it, at most.
const MOST_EDITS: usize = 2;

/// The nearest subcommand to a word, the first of those that are as near, if one is near.
fn nearest_subcommand(alloc: Global, word: &[u8]) -> Result<Option<&'static str>, AllocError> {
    let mut best = None;
    let mut bound = word.len().min(MOST_EDITS + 1);
    for name in &SUBCOMMANDS {
        let edits = generic_levenshtein(alloc, word, name.as_bytes())?;
        if edits < bound {
            bound = edits;
            best = Some(*name);
        }
    }
    Ok(best)
}

/// What is told of a word that is no subcommand, a line: that it is a command of the prompt, or the nearest subcommand.
fn mistake(alloc: Global, word: &str) -> Result<Option<String>, AllocError> {
    let mut told = String::new(alloc);
    if is_name(word.as_bytes()) {
        write!(
            told,
            "tcpsim: {word} is a command of the prompt: tcpsim debug FILE\n"
        )?;
        return Ok(Some(told));
    }
    let Some(nearest) = nearest_subcommand(alloc, word.as_bytes())? else {
        return Ok(None);
    };
    write!(
        told,
        "tcpsim: no command {word}; the nearest is {nearest}\n"
    )?;
    Ok(Some(told))
}

/// Tells of the first word behind the program's name, where that is no subcommand, the notes explain, and there is memory
/// to say it.
pub(crate) fn tell_mistake<S: AsStr, N: Notes>(
    alloc: Global,
    words: &[S],
    kind: ErrorKind,
    notes: &mut N,
) {
    if kind != ErrorKind::InvalidSubcommand || !notes.explains() {
        return;
    }
    if let Some(word) = words.get(1) {
        if let Ok(Some(told)) = mistake(alloc, word.as_str()) {
            notes.refused(told);
        }
    }
}
