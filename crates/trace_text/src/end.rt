//! The last line of a trace.
ghost use Rattle.std.specs.Prelude.{◌≡◌, ◌++◌, OnOk, OnErr};
ghost use Rattle.trace_text.specs.End.{end_bytes};

use crate::forward::{write_number, write_text};
use std::alloc::AllocError;

/// No less than the greatest length of that line, in bytes.
const ROOM: usize = 26;

/// Appends the line that ends a trace of `n` events, with its LF, or nothing.
pub fn end_text(n: u64, out: &mut Vec<u8>) -> Result<(), AllocError>
    ensures ok { OnOk result (out.new.items ≡ out.old.items ++ end_bytes n) }
    ensures err { OnErr result (out.new.items ≡ out.old.items) }
{
    let mut bytes = [0; ROOM];
    let at = write_text(&mut bytes, 0, b"end ");
    let at = write_number(&mut bytes, at, n);
    let end = write_text(&mut bytes, at, b"\n");
    out.extend_from_slice(&bytes[..end])
}
