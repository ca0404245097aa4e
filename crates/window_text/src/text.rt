//! A window's text, as threads made it.
ghost use Rattle.std.specs.Prelude.{◌≡◌, ◌+◌, ◌<◌, ◌≤◌, ◌^◌, All, [], length, IfOk, IfErr, IfSome, OnOk, true};
ghost use Rattle.std.specs.Io.KnownBytes.{Appends};
ghost use Rattle.line_merge.specs.Sheaves.{merged};
ghost use Rattle.window_text.specs.Failures.{failures_after};
ghost use Rattle.window_text.specs.Parts.{IsInside, AreRight, HasText, IsPlaceAt, IsReady, IsRight, IsWhole, bytes_at, text_of};
ghost use Rattle.window_text.specs.Puts.{TakesFirst};

use crate::formatter::{TextFormatter, TextPart};
use crate::parts::MOST_PARTS;
use crate::put::put_all;
use crate::sink::Sink;
use line_merge::{Cursor, Sheaf};
use std::alloc::{AllocError, Global};

/// Where a part's text is.
#[derive(Clone, Copy, Drop)]
pub struct TextPlace {
    /// The number of the thread's text.
    pub formatter: usize,
    /// The part.
    pub part: TextPart,
}

/// A window's text.
#[derive(Drop)]
pub struct Text {
    /// What each thread made of it.
    pub formatters: Vec<TextFormatter>,
    /// The places of the parts, in the order of their lines.
    pub places: Vec<TextPlace>,
    /// Where the merge of the lines stands, on the calling thread.
    cursor: Cursor,
}

/// The part of a thread's that begins with a line, where it made one and has a line.
fn part_from(sheaf: &Sheaf, formatter: &TextFormatter, at: usize) -> Option<TextPart>
    requires { IsRight sheaf.now formatter.now }
    ensures text { IfSome result (HasText sheaf.now formatter.now.text) }
    ensures from { IfSome result (λ part. part.from ≡ at) }
    ensures some { IfSome result (λ part. 0 < part.count) }
{
    for part in formatter.parts.as_slice() {
        if part.from == at && part.count > 0 {
            return Some(*part);
        }
    }
    None
}

/// The place of the part that begins with a line, where one was made.
fn place_from(sheaf: &Sheaf, formatters: &[TextFormatter], at: usize) -> Option<TextPlace>
    requires { AreRight sheaf.now formatters.now }
    ensures { IfSome result (IsPlaceAt sheaf.now formatters.now at) }
{
    for formatter in 0..formatters.len() {
        if let Some(part) = part_from(sheaf, &formatters[formatter], at) {
            return Some(TextPlace { formatter, part });
        }
    }
    None
}

/// The bytes at a place.
fn bytes_of(formatters: &[TextFormatter], place: TextPlace) -> &[u8]
    requires { IsInside formatters.now place }
    ensures { result.now ≡ bytes_at formatters.now place }
{
    let text = formatters[place.formatter].text.as_slice();
    &text[place.part.start..place.part.end]
}

/// Sees that there is a formatter.
fn need_one(formatters: &mut Vec<TextFormatter>) -> Result<(), AllocError>
    ensures { OnOk result (0 < length formatters.new.items) }
{
    if formatters.is_empty() {
        let alloc = *formatters.allocator();
        formatters.push(TextFormatter::new(alloc))?;
    }
    Ok(())
}

/// Forgets what each made.
fn clear_all(sheaf: &Sheaf, formatters: &mut [TextFormatter])
    ensures { AreRight sheaf.now formatters.new }
{
    for formatter in formatters.iter_mut() {
        formatter.clear();
    }
}

impl Text {
    /// No text yet.
    pub fn new(alloc: Global) -> Result<Text, AllocError>
        ensures { IfOk result (λ text. text.places.items ≡ []) }
    {
        Ok(Text {
            formatters: Vec::new(alloc),
            places: Vec::new(alloc),
            cursor: Cursor::new(alloc)?,
        })
    }

    /// Forgets what threads made. Their memory is used again.
    pub fn clear(&mut self, sheaf: &Sheaf)
        ensures { AreRight sheaf.now self.new.formatters.items }
    {
        clear_all(sheaf, self.formatters.as_mut_slice());
    }

    /// Puts the parts in the order of their lines. The answer is whether all lines are there.
    fn put_in_order(&mut self, sheaf: &Sheaf) -> Result<bool, AllocError>
        requires right { AreRight sheaf.now self.old.formatters.items }
        ensures { IfOk result (λ all. all ≡ true → IsWhole sheaf.now self.new) }
    {
        let lines = sheaf.len();
        self.places.clear();
        let mut at = 0;
        for _ in 0..MOST_PARTS {
            let Some(place) = place_from(sheaf, self.formatters.as_slice(), at) else {
                break;
            };
            self.places.push(place)?;
            at += place.part.count;
        }
        Ok(at == lines)
    }

    /// Makes the text of all lines on the calling thread.
    pub fn make_all(&mut self, sheaf: &Sheaf) -> Result<(), AllocError>
        requires fits { sheaf.now.first + length (merged sheaf.now).lines < 2 ^ 63 }
        ensures { OnOk result (IsWhole sheaf.now self.new) }
    {
        need_one(&mut self.formatters)?;
        let part = self.formatters[0].make_all(sheaf, &mut self.cursor)?;
        self.places.clear();
        self.places.push(TextPlace { formatter: 0, part })?;
        Ok(())
    }

    /// Puts the parts that threads made in order. Where one is not there, since memory was refused or
    /// too few threads could be started, the calling thread makes the text.
    pub fn complete(&mut self, sheaf: &Sheaf) -> Result<(), AllocError>
        requires right { AreRight sheaf.now self.old.formatters.items }
        requires fits { sheaf.now.first + length (merged sheaf.now).lines < 2 ^ 63 }
        ensures { OnOk result (IsWhole sheaf.now self.new) }
    {
        match self.put_in_order(sheaf) {
            Ok(true) => Ok(()),
            _ => self.make_all(sheaf),
        }
    }

    /// Writes the text. The answer is how many bytes went out: all of them, or those before the sink
    /// failed.
    pub fn put<S: Sink>(&self, sink: &mut S) -> Result<u128, u128>
        requires { IsReady self.now }
        ensures ok { OnOk result (Appends (S.contents sink.old) (S.contents sink.new) (text_of self.now.formatters.items self.now.places.items)) }
        ensures count { IfOk result (λ count. count ≡ length (text_of self.now.formatters.items self.now.places.items)) }
        ensures few { IfOk result (λ count. count < 2 ^ 71) }
        ensures err { IfErr result (λ written. TakesFirst written (text_of self.now.formatters.items self.now.places.items) (S.contents sink.old) (S.contents sink.new)) }
        ensures few_before { IfErr result (λ written. written < 2 ^ 71) }
        ensures failures { S.failures sink.new ≡ failures_after result (S.failures sink.old) }
    {
        let mut done: u128 = 0;
        for place in self.places.as_slice() {
            let bytes = bytes_of(self.formatters.as_slice(), *place);
            match put_all(sink, bytes) {
                Ok(()) => done += bytes.len() as u128,
                Err(count) => return Err(done + count as u128),
            }
        }
        Ok(done)
    }
}
