//! The name of a file, as a note shows it.
ghost use Rattle.std.specs.Prelude.{◌≡◌, IfOk, encode_utf8, string_bytes};
ghost use Rattle.sessions.specs.FileName as shown;

use std::alloc::{AllocError, Global};

/// A character as a note shows it: a control character as a question mark.
fn shown_char(c: char) -> char
    ensures { encode_utf8 result ≡ shown.shown_char c }
{
    if c.is_control() { '?' } else { c }
}

/// The name of a file as a note shows it, in as much memory as the name takes.
pub(crate) fn shown_name(alloc: Global, file: &str) -> Result<String, AllocError>
    ensures { IfOk result (λ name. string_bytes name ≡ shown.shown_name file.now) }
{
    let mut name = String::with_capacity(alloc, file.len())?;
    for c in file.chars() {
        name.push(shown_char(c))?;
    }
    Ok(name)
}
