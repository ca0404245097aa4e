//! The texts by their codes.

use crate::texts::all_texts;
use std::alloc::{AllocError, Global};

/// What a code means, in some lines: the first is the code, a colon and why it comes. None where there
/// is no such code.
pub fn text_of(code: &str) -> Option<&'static str> {
    for text in all_texts() {
        if text.split(':').next() == Some(code) {
            return Some(*text);
        }
    }
    None
}

/// The first line of each code's text, in the order of docs/FORMATS.md.
pub fn list_codes(alloc: Global) -> Result<Vec<u8>, AllocError> {
    let mut list = Vec::new(alloc);
    for text in all_texts() {
        if let Some(line) = text.lines().next() {
            list.extend_from_slice(line.as_bytes())?;
            list.push(b'\n')?;
        }
    }
    Ok(list)
}
