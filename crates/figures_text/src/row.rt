//! A line of the table.
ghost use Rattle.std.specs.Prelude.{◌≡◌, ◌++◌, decimal, OnOk};
ghost use Rattle.figures_text.specs.Table.{value_text, last_text, row_line, rows_text};

use crate::column::NameColumn;
use crate::figure::{Figure, append_figure};
use crate::subject::{Subject, append_subject};
use itoa::Buffer;
use std::alloc::AllocError;

/// What a line of the table says.
#[derive(Clone, Copy)]
pub(crate) struct Row {
    /// The figure.
    pub figure: Figure,
    /// Its value; none where there is none.
    pub value: Option<u128>,
}

/// Appends a line for each row. After an `Err` a part of them may stand there.
pub(crate) fn append_rows(
    column: &NameColumn,
    subject: Subject,
    rows: &[Row],
    text: &mut Vec<u8>,
) -> Result<(), AllocError>
    ensures { OnOk result (text.new.items ≡ text.old.items ++ rows_text column.now subject rows.now) }
{
    for row in rows {
        append_row(column, subject, row, text)?;
    }
    Ok(())
}

/// Appends a line. After an `Err` a part of it may stand there.
pub(crate) fn append_row(
    column: &NameColumn,
    subject: Subject,
    row: &Row,
    text: &mut Vec<u8>,
) -> Result<(), AllocError>
    ensures { OnOk result (text.new.items ≡ text.old.items ++ row_line column.now subject row.now) }
{
    append_subject(subject, text)?;
    append_figure(row.figure, text)?;
    append_last(column, subject, row.value, text)
}

/// Appends the end of a line. After an `Err` a part of it may stand there.
fn append_last(
    column: &NameColumn,
    subject: Subject,
    value: Option<u128>,
    text: &mut Vec<u8>,
) -> Result<(), AllocError>
    ensures { OnOk result (text.new.items ≡ text.old.items ++ last_text column.now subject value) }
{
    append_value(value, text)?;
    column.append_name(subject, text)?;
    text.extend_from_slice(b"\n")
}

/// Appends a value, or a dash where there is none; nothing where memory is refused.
fn append_value(value: Option<u128>, text: &mut Vec<u8>) -> Result<(), AllocError>
    ensures { OnOk result (text.new.items ≡ text.old.items ++ value_text value) }
{
    match value {
        None => text.extend_from_slice(b"-"),
        Some(value) => append_number(value, text),
    }
}

/// Appends a number, or nothing where memory is refused. Most fit a word, whose digits cost much less.
fn append_number(value: u128, text: &mut Vec<u8>) -> Result<(), AllocError>
    ensures { OnOk result (text.new.items ≡ text.old.items ++ decimal value) }
{
    let mut digits = Buffer::new();
    match u64::try_from(value) {
        Ok(small) => text.extend_from_slice(digits.format(small).as_bytes()),
        Err(_) => text.extend_from_slice(digits.format(value).as_bytes()),
    }
}
