//! Bytes on their way to a writer.
ghost use Rattle.std.specs.Prelude.{◌≡◌, ◌<◌, [], OnOk, OnErr, length};
ghost use Rattle.std.specs.Io.KnownBytes.{Appends};
ghost use Rattle.sessions.specs.Written.{Writes, WritesBefore, IsBeginningOf};
ghost use Rattle.window_engine.specs.Failures.{failures_after};

use trace_text::Page;
use window_engine::{Sink, SinkFail};

/// The room for lines that wait to be written, in bytes.
pub(crate) const PAGE: usize = 65_536;

/// With so many bytes of lines a page is full. The rest of the room is for one line more.
const FULL: usize = PAGE - 1_024;

/// Writes all bytes, in as few pieces as the writer takes.
pub(crate) fn put_all<W: Sink>(writer: &mut W, bytes: &[u8]) -> Result<(), SinkFail>
    ensures ok { OnOk result (Appends (W.contents writer.old) (W.contents writer.new) bytes.now) }
    ensures err { OnErr result (Writes (IsBeginningOf (λ all. all ≡ bytes.now)) (W.contents writer.old) (W.contents writer.new)) }
    ensures failures { W.failures writer.new ≡ failures_after result (W.failures writer.old) }
{
    match window_engine::put_all(writer, bytes) {
        Ok(()) => Ok(()),
        Err(_) => Err(SinkFail),
    }
}

/// Writes a page of whole lines, and empties it.
pub(crate) fn put_page<W: Sink>(page: &mut Page, writer: &mut W) -> Result<(), SinkFail>
    ensures ok { OnOk result (Appends (W.contents writer.old) (W.contents writer.new) page.old) }
    ensures emptied { OnOk result (page.new ≡ []) }
    ensures err { OnErr result (Writes (IsBeginningOf (λ all. all ≡ page.old)) (W.contents writer.old) (W.contents writer.new)) }
    ensures failures { W.failures writer.new ≡ failures_after result (W.failures writer.old) }
{
    put_all(writer, page.as_slice())?;
    page.clear();
    Ok(())
}

/// Writes a page that is full. What waits then is less than a full page.
pub(crate) fn put_full_page<W: Sink>(page: &mut Page, writer: &mut W) -> Result<(), SinkFail>
    ensures ok { OnOk result (WritesBefore page.new (λ all. all ≡ page.old) (W.contents writer.old) (W.contents writer.new)) }
    ensures short { OnOk result (length page.new < FULL) }
    ensures err { OnErr result (Writes (IsBeginningOf (λ all. all ≡ page.old)) (W.contents writer.old) (W.contents writer.new)) }
    ensures failures { W.failures writer.new ≡ failures_after result (W.failures writer.old) }
{
    if page.len() < FULL {
        return Ok(());
    }
    put_page(page, writer)
}
