//! Lines that wait to be written.
ghost use Rattle.std.specs.Prelude.{◌≡◌, ◌+◌, ◌≤◌, ◌++◌, [], take, length, vec_len, OnOk, OnErr, IfOk};
ghost use Rattle.node_core.specs.TraceLine.{shown};
ghost use Rattle.trace_text.specs.Line.{line_bytes};
ghost use Rattle.trace_text.specs.End.{end_bytes};

use crate::end::end_text;
use crate::kept::Kept;
use crate::line::{LINE_ROOM, line_text, write_line};
use node_core::Line;
use std::alloc::{AllocError, Global};
use std::marker::Model;

/// Lines of a trace, one after another. A line is written where it stands, and nowhere before.
#[derive(Drop)]
pub struct Page {
    /// The lines, and behind them what is to be written over.
    bytes: Vec<u8>,
    /// How many bytes the lines have.
    used: usize,
    /// Room for a line of more than one act.
    long: Vec<u8>,
    /// What the next line can take from the last one.
    kept: Kept,
}

impl Model for Page {
    ghost use Rattle.std.specs.Prelude.{ℕ, List, ◌≤◌, take, vec_len};

    ghost Value = { List ℕ };

    ghost view = { λ p. take p.used p.bytes.items };

    ghost invariant = { λ p. p.used ≤ vec_len p.bytes };
}

impl Page {
    /// Without lines, and with room for so many bytes.
    pub fn new(alloc: Global, room: usize) -> Result<Page, AllocError>
        ensures { IfOk result (λ page. page ≡ []) }
    {
        let mut bytes = Vec::new(alloc);
        bytes.resize(room, 0)?;
        Ok(Page {
            bytes,
            used: 0,
            long: Vec::new(alloc),
            kept: Kept::new(),
        })
    }

    /// How many bytes the lines have.
    pub fn len(&self) -> usize
        ensures { result ≡ length self.now }
    {
        self.used
    }

    /// The lines.
    pub fn as_slice(&self) -> &[u8]
        ensures { result.now ≡ self.now }
    {
        &self.bytes[..self.used]
    }

    /// Lets the lines go. The room stays.
    pub fn clear(&mut self)
        ensures { self.new ≡ [] }
    {
        self.used = 0;
    }

    /// Appends the line of the trace for the `n`-th event, with its LF, or nothing.
    #[inline(always)]
    pub fn put_line(&mut self, n: u64, line: &Line) -> Result<(), AllocError>
        ensures ok { OnOk result (self.new ≡ self.old ++ line_bytes n (shown line.now)) }
        ensures err { OnErr result (self.new ≡ self.old) }
    {
        let start = self.used;
        let bytes = self.bytes.as_mut_slice();
        if line.acts.as_slice().len() <= 1 && LINE_ROOM <= bytes.len() - start {
            self.used = write_line(&mut self.kept, bytes, start, n, line);
            return Ok(());
        }
        self.put_long(n, line)
    }

    /// Appends a line of any length, or nothing.
    #[inline(never)]
    fn put_long(&mut self, n: u64, line: &Line) -> Result<(), AllocError>
        ensures ok { OnOk result (self.new ≡ self.old ++ line_bytes n (shown line.now)) }
        ensures err { OnErr result (self.new ≡ self.old) }
    {
        self.long.clear();
        line_text(n, line, &mut self.long)?;
        self.used = put_behind(&mut self.bytes, self.used, &self.long)?;
        Ok(())
    }

    /// Appends the line that ends a trace of `n` events, with its LF, or nothing.
    pub fn put_end(&mut self, n: u64) -> Result<(), AllocError>
        ensures ok { OnOk result (self.new ≡ self.old ++ end_bytes n) }
        ensures err { OnErr result (self.new ≡ self.old) }
    {
        self.long.clear();
        end_text(n, &mut self.long)?;
        self.used = put_behind(&mut self.bytes, self.used, &self.long)?;
        Ok(())
    }
}

/// Puts a text behind so many bytes, and answers how many they are then.
fn put_behind(bytes: &mut Vec<u8>, used: usize, text: &[u8]) -> Result<usize, AllocError>
    requires { used ≤ vec_len bytes.old }
    ensures ok { IfOk result (λ end. take end bytes.new.items ≡ take used bytes.old.items ++ text.now) }
    ensures within { IfOk result (λ end. end ≤ vec_len bytes.new) }
    ensures err { OnErr result (take used bytes.new.items ≡ take used bytes.old.items) }
    ensures err_within { OnErr result (used ≤ vec_len bytes.new) }
{
    if text.len() <= bytes.len() - used {
        let end = used + text.len();
        bytes[used..end].copy_from_slice(text);
        return Ok(end);
    }
    bytes.truncate(used);
    bytes.extend_from_slice(text)?;
    Ok(bytes.len())
}
