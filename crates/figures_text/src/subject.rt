//! What a line of the table is about.
ghost use Rattle.std.specs.Prelude.{◌≡◌, ◌++◌, decimal, OnOk};
ghost use Rattle.figures_text.specs.Table.{subject_text};

use itoa::Buffer;
use std::alloc::AllocError;

/// What a line of the table is about.
#[derive(Clone, Copy)]
pub(crate) enum Subject {
    /// The flow of a number.
    Flow(u64),
    /// The link of a number.
    Link(u64),
    /// The run as a whole.
    Run,
}

/// Appends the first two words of a line. After an `Err` a part of them may stand there.
pub(crate) fn append_subject(subject: Subject, text: &mut Vec<u8>) -> Result<(), AllocError>
    ensures { OnOk result (text.new.items ≡ text.old.items ++ subject_text subject) }
{
    match subject {
        Subject::Flow(number) => append_numbered(b"flow,", number, text),
        Subject::Link(number) => append_numbered(b"link,", number, text),
        Subject::Run => text.extend_from_slice(b"run,"),
    }
}

fn append_numbered(before: &[u8], number: u64, text: &mut Vec<u8>) -> Result<(), AllocError>
    ensures { OnOk result (text.new.items ≡ text.old.items ++ (before.now ++ decimal number)) }
{
    let mut digits = Buffer::new();
    text.extend_from_slice(before)?;
    text.extend_from_slice(digits.format(number).as_bytes())
}
