//! Who is shown why an input is refused, and when.

use crate::fault::SessionFault;
use crate::means::Means;
use command_line::notes::Notes;
use command_line::reasons::{code_reason, image_reason, text_reason};
use std::alloc::{AllocError, Global};
use std::io::ErrorKind;

/// What is shown of a refused input behind its note; nothing where the input is not refused.
fn why(alloc: Global, input: &[u8], fault: &SessionFault) -> Result<Option<String>, AllocError> {
    let shown = match fault {
        SessionFault::TooLong => code_reason(alloc, "I1")?,
        SessionFault::Refused { fault, .. } => text_reason(alloc, input, fault.code())?,
        SessionFault::RefusedImage(fault) => {
            let code = fault.to_string(alloc)?;
            image_reason(alloc, input, code.as_str())?
        }
        _ => return Ok(None),
    };
    Ok(Some(shown))
}

/// Tells why an input is refused, where that is wished and there is memory to say it.
pub(crate) fn tell_why<N: Notes>(means: &Means, input: &[u8], fault: &SessionFault, notes: &mut N) {
    if means.wishes.explain {
        if let Ok(Some(shown)) = why(means.alloc, input, fault) {
            notes.refused(shown);
        }
    }
}

/// What the system calls a failure to read a file, where it is of these sorts. The page has no system to ask.
fn system_word(kind: ErrorKind) -> Option<&'static str> {
    match kind {
        ErrorKind::NotFound => Some("No such file or directory\n"),
        ErrorKind::PermissionDenied => Some("Permission denied\n"),
        ErrorKind::IsADirectory => Some("Is a directory\n"),
        ErrorKind::NotADirectory => Some("Not a directory\n"),
        _ => None,
    }
}

/// Tells why a file could not be read, where that is known, and there is memory to say it.
fn tell_system_word<N: Notes>(alloc: Global, kind: ErrorKind, notes: &mut N) {
    if let Some(word) = system_word(kind) {
        let mut told = String::new(alloc);
        if told.push_str(word).is_ok() {
            notes.refused(told);
        }
    }
}

/// Tells why an input could not be read, where that is wished.
pub(crate) fn tell_unread<N: Notes>(
    means: &Means,
    fault: &SessionFault,
    error: Option<ErrorKind>,
    notes: &mut N,
) {
    match (fault, error) {
        (SessionFault::CannotRead(_), Some(kind)) if means.wishes.explain => {
            tell_system_word(means.alloc, kind, notes)
        }
        _ => tell_why(means, &[], fault, notes),
    }
}
