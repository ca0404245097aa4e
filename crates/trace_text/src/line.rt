//! A whole line of the trace.
ghost use Rattle.std.specs.Prelude.{◌≡◌, ◌+◌, ◌≤◌, ◌++◌, take, decimal, codes, length, map, vec_len, OnOk, OnErr};
ghost use Rattle.node_core.specs.TraceLine.{shown};
ghost use Rattle.trace_text.specs.Words.{spaced_words};
ghost use Rattle.trace_text.specs.Line.{act_word, line_bytes, place_text, key_words, event_words, after_words};

use crate::act::{append_acts, write_acts};
use crate::after::write_after;
use crate::event::{write_event, write_key, write_place};
use crate::forward::{write_field, write_number, write_text};
use crate::kept::Kept;
use node_core::Line;
use std::alloc::AllocError;

/// No less than the greatest length of a line of one act.
pub(crate) const LINE_ROOM: usize = 272;

/// Appends the line of the trace for the `n`-th event, with its LF, or nothing.
#[inline(always)]
pub fn line_text(n: u64, line: &Line, out: &mut Vec<u8>) -> Result<(), AllocError>
    ensures ok { OnOk result (out.new.items ≡ out.old.items ++ line_bytes n (shown line.now)) }
    ensures err { OnErr result (out.new.items ≡ out.old.items) }
{
    let length_before = out.len();
    let appended = append_line(n, line, out);
    if appended.is_err() {
        out.truncate(length_before);
    }
    appended
}

/// Appends the line. Where memory is refused, a part of it may have been appended.
#[inline(always)]
fn append_line(n: u64, line: &Line, out: &mut Vec<u8>) -> Result<(), AllocError>
    ensures ok { OnOk result (out.new.items ≡ out.old.items ++ line_bytes n (shown line.now)) }
    ensures err { OnErr result (take (vec_len out.old) out.new.items ≡ out.old.items) }
{
    if line.acts.as_slice().len() <= 1 {
        return append_short(n, line, out);
    }
    append_long(n, line, out)
}

/// Appends a line of at most one act, as nearly all are, or nothing.
#[inline(always)]
fn append_short(n: u64, line: &Line, out: &mut Vec<u8>) -> Result<(), AllocError>
    requires few { length line.now.acts.acts ≤ 1 }
    ensures ok { OnOk result (out.new.items ≡ out.old.items ++ line_bytes n (shown line.now)) }
    ensures err { OnErr result (out.new.items ≡ out.old.items) }
{
    let mut bytes = [0; LINE_ROOM];
    let at = write_number(&mut bytes, 0, n);
    let at = write_field(&mut bytes, at, b" ", line.key.time);
    let end = write_behind_time(&mut bytes, at, line);
    out.extend_from_slice(&bytes[..end])
}

/// Writes a line of at most one act, with its LF.
#[inline(always)]
pub(crate) fn write_line(kept: &mut Kept, bytes: &mut [u8], at: usize, n: u64, line: &Line) -> usize
    requires few { length line.now.acts.acts ≤ 1 }
    requires room { at + LINE_ROOM ≤ length bytes.old }
    ensures written { take result bytes.new ≡ take at bytes.old ++ line_bytes n (shown line.now) }
    ensures short { result ≤ at + LINE_ROOM }
{
    let at = kept.count.write(bytes, at, n);
    let at = write_text(bytes, at, b" ");
    let at = kept.time.write(bytes, at, line.key.time);
    write_behind_time(bytes, at, line)
}

/// Writes what stands behind the time in a line of at most one act.
#[inline(always)]
fn write_behind_time(bytes: &mut [u8], at: usize, line: &Line) -> usize
    requires few { length line.now.acts.acts ≤ 1 }
    requires room { at + 224 ≤ length bytes.old }
    ensures written { take result bytes.new ≡ take at bytes.old ++ (place_text line.now.key
        ++ spaced_words (event_words line.now.event) ++ spaced_words (after_words line.now.after)
        ++ spaced_words (map act_word line.now.acts.acts) ++ codes "\n") }
    ensures short { result ≤ at + 224 }
{
    let at = write_place(bytes, at, &line.key);
    let at = write_event(bytes, at, &line.event);
    let at = write_after(bytes, at, &line.after);
    let at = write_acts(bytes, at, line.acts.as_slice());
    write_text(bytes, at, b"\n")
}

/// Appends a line of any length. Where memory is refused, a part of it may have been appended.
#[inline(never)]
fn append_long(n: u64, line: &Line, out: &mut Vec<u8>) -> Result<(), AllocError>
    ensures ok { OnOk result (out.new.items ≡ out.old.items ++ line_bytes n (shown line.now)) }
    ensures err { OnErr result (take (vec_len out.old) out.new.items ≡ out.old.items) }
{
    append_head(n, line, out)?;
    append_acts(line.acts.as_slice(), out)?;
    out.push(b'\n')?;
    Ok(())
}

/// Appends what stands before the acts, or nothing.
#[inline(always)]
fn append_head(n: u64, line: &Line, out: &mut Vec<u8>) -> Result<(), AllocError>
    ensures ok { OnOk result (out.new.items ≡ out.old.items ++ (decimal n
        ++ spaced_words (key_words line.now.key) ++ spaced_words (event_words line.now.event)
        ++ spaced_words (after_words line.now.after))) }
    ensures err { OnErr result (out.new.items ≡ out.old.items) }
{
    let mut bytes = [0; LINE_ROOM];
    let at = write_number(&mut bytes, 0, n);
    let at = write_key(&mut bytes, at, &line.key);
    let at = write_event(&mut bytes, at, &line.event);
    let end = write_after(&mut bytes, at, &line.after);
    out.extend_from_slice(&bytes[..end])
}
