//! What one thread makes of a window's text: the next part of the lines, again and again, until all
//! parts are taken.
ghost use Rattle.std.specs.Prelude.{◌≡◌, ◌+◌, ◌-◌, ◌<◌, ◌≤◌, ◌^◌, ◌++◌, [], length, take, drop, IfOk, IfSome, OnOk};
ghost use Rattle.line_merge.specs.Sheaves.{StandsIn, merged};
ghost use Rattle.window_text.specs.Parts.{HasText, IsRight};
ghost use Rattle.window_text.specs.Text.{text_from};

use crate::parts::{LINE_BYTES, PartRange, Parts};
use crate::text_buffer::TextBuffer;
use line_merge::{Cursor, Sheaf};
use sim_time::Time;
use std::alloc::{AllocError, Global};

/// Lines whose text a thread made, one after another.
#[derive(Clone, Copy, Drop)]
pub struct TextPart {
    /// The index of the first line.
    pub from: usize,
    /// How many lines.
    pub count: usize,
    /// Where their text begins in the thread's text.
    pub start: usize,
    /// Where it ends.
    pub end: usize,
}

/// What one thread made of a window's text.
#[derive(Drop)]
pub struct TextFormatter {
    /// How many groups of the next window the thread ran, before it made text.
    pub ran: usize,
    /// The text of its parts, one after another.
    pub(crate) text: TextBuffer,
    /// Its parts.
    pub(crate) parts: Vec<TextPart>,
}

/// Appends the text of the lines that a cursor comes to next, so many. Where memory is refused, some
/// may have been appended.
fn append_lines(
    sheaf: &Sheaf,
    cursor: &mut Cursor,
    count: usize,
    text: &mut TextBuffer,
) -> Result<(), AllocError>
    requires stands { StandsIn sheaf.now cursor.old }
    requires within { cursor.old.at + count ≤ length (merged sheaf.now).lines }
    requires fits { sheaf.now.first + length (merged sheaf.now).lines < 2 ^ 63 }
    ensures { OnOk result (text.new ≡ text.old ++ text_from (sheaf.now.first + cursor.old.at) (take count (drop cursor.old.at (merged sheaf.now).lines))) }
{
    for _ in 0..count {
        let number = sheaf.first() + cursor.at() as u64;
        text.put_line(number, sheaf.next(cursor))?;
    }
    Ok(())
}

/// Appends the text of the lines that a cursor comes to next and that are before a moment, in nanoseconds.
/// Where memory is refused, some may have been appended.
fn append_before(
    sheaf: &Sheaf,
    cursor: &mut Cursor,
    moment: Time,
    text: &mut TextBuffer,
) -> Result<(), AllocError>
    requires stands { StandsIn sheaf.now cursor.old }
    requires fits { sheaf.now.first + length (merged sheaf.now).lines < 2 ^ 63 }
    ensures on { OnOk result (cursor.old.at ≤ cursor.new.at) }
    ensures within { OnOk result (cursor.new.at ≤ length (merged sheaf.now).lines) }
    ensures text { OnOk result (text.new ≡ text.old ++ text_from (sheaf.now.first + cursor.old.at) (take (cursor.new.at - cursor.old.at) (drop cursor.old.at (merged sheaf.now).lines))) }
{
    for _ in 0..sheaf.len() {
        let number = sheaf.first() + cursor.at() as u64;
        let Some(line) = sheaf.next_before(cursor, moment) else {
            break;
        };
        text.put_line(number, line)?;
    }
    Ok(())
}

impl TextFormatter {
    /// Nothing yet. No memory is taken.
    pub fn new(alloc: Global) -> TextFormatter
        ensures { result.parts.items ≡ [] }
    {
        TextFormatter {
            ran: 0,
            text: TextBuffer::new(alloc),
            parts: Vec::new(alloc),
        }
    }

    /// How many parts it made.
    pub fn parts(&self) -> usize {
        self.parts.len()
    }

    /// Forgets what it made. Its memory is used again.
    pub fn clear(&mut self)
        ensures text { self.new.text ≡ [] }
        ensures parts { self.new.parts.items ≡ [] }
    {
        self.ran = 0;
        self.text.clear();
        self.parts.clear();
    }

    /// Makes the text of so many lines from where a cursor stands, and of no others.
    fn make_lines(
        &mut self,
        sheaf: &Sheaf,
        cursor: &mut Cursor,
        count: usize,
    ) -> Result<TextPart, AllocError>
        requires stands { StandsIn sheaf.now cursor.old }
        requires within { cursor.old.at + count ≤ length (merged sheaf.now).lines }
        requires fits { sheaf.now.first + length (merged sheaf.now).lines < 2 ^ 63 }
        ensures part { IfOk result (HasText sheaf.now self.new.text) }
        ensures from { IfOk result (λ part. part.from ≡ cursor.old.at) }
        ensures count { IfOk result (λ part. part.count ≡ count) }
        ensures kept { IsRight sheaf.now self.old → OnOk result (IsRight sheaf.now self.new) }
    {
        let from = cursor.at();
        let start = self.text.len();
        append_lines(sheaf, cursor, count, &mut self.text)?;
        Ok(TextPart {
            from,
            count,
            start,
            end: self.text.len(),
        })
    }

    /// Makes the text of all lines, and of nothing else. Its memory is used again.
    pub(crate) fn make_all(
        &mut self,
        sheaf: &Sheaf,
        cursor: &mut Cursor,
    ) -> Result<TextPart, AllocError>
        requires fits { sheaf.now.first + length (merged sheaf.now).lines < 2 ^ 63 }
        ensures part { IfOk result (HasText sheaf.now self.new.text) }
        ensures from { IfOk result (λ part. part.from ≡ 0) }
        ensures count { IfOk result (λ part. part.count ≡ length (merged sheaf.now).lines) }
    {
        self.clear();
        self.text.make_room(sheaf.len().saturating_mul(LINE_BYTES))?;
        sheaf.begin_at(cursor, 0)?;
        self.make_lines(sheaf, cursor, sheaf.len())
    }

    /// Makes the text of the lines from where a cursor stands that are before a moment, in nanoseconds.
    fn make_before(
        &mut self,
        sheaf: &Sheaf,
        cursor: &mut Cursor,
        moment: Time,
    ) -> Result<TextPart, AllocError>
        requires stands { StandsIn sheaf.now cursor.old }
        requires fits { sheaf.now.first + length (merged sheaf.now).lines < 2 ^ 63 }
        ensures part { IfOk result (HasText sheaf.now self.new.text) }
        ensures kept { IsRight sheaf.now self.old → OnOk result (IsRight sheaf.now self.new) }
    {
        let from = cursor.at();
        let start = self.text.len();
        append_before(sheaf, cursor, moment, &mut self.text)?;
        Ok(TextPart {
            from,
            count: cursor.at() - from,
            start,
            end: self.text.len(),
        })
    }

    /// Makes the text of a part.
    fn make_part(
        &mut self,
        sheaf: &Sheaf,
        cursor: &mut Cursor,
        stretch: PartRange,
        parts: &Parts,
    ) -> Result<(), AllocError>
        requires fits { sheaf.now.first + length (merged sheaf.now).lines < 2 ^ 63 }
        requires right { IsRight sheaf.now self.old }
        ensures right { OnOk result (IsRight sheaf.now self.new) }
    {
        self.text.make_room(parts.room(sheaf))?;
        sheaf.begin_at(cursor, parts.moment(stretch.from))?;
        let part = self.make_before(sheaf, cursor, parts.moment(stretch.to))?;
        self.parts.push(part)?;
        Ok(())
    }

    /// Makes the text of parts until all are taken. Where memory is refused, some may be made.
    fn make_next(&mut self, sheaf: &Sheaf, parts: &Parts) -> Result<(), AllocError>
        requires fits { sheaf.now.first + length (merged sheaf.now).lines < 2 ^ 63 }
        requires right { IsRight sheaf.now self.old }
        ensures right { OnOk result (IsRight sheaf.now self.new) }
    {
        let mut cursor = Cursor::new(self.text.allocator())?;
        parts.cut(sheaf);
        for _ in 0..parts.shares {
            let Some(stretch) = parts.take() else {
                break;
            };
            self.make_part(sheaf, &mut cursor, stretch, parts)?;
        }
        Ok(())
    }

    /// Makes the text of parts that no other thread has taken, until all are taken. Where memory is
    /// refused it has made none.
    pub fn make_parts(&mut self, sheaf: &Sheaf, parts: &Parts)
        requires fits { sheaf.now.first + length (merged sheaf.now).lines < 2 ^ 63 }
        requires right { IsRight sheaf.now self.old }
        ensures { IsRight sheaf.now self.new }
    {
        if self.make_next(sheaf, parts).is_err() {
            self.clear();
        }
    }
}
