//! Text of lines, for which memory is taken once it is wanted.
ghost use Rattle.std.specs.Prelude.{◌≡◌, ◌++◌, [], length, IfOk, OnOk};
ghost use Rattle.node_core.specs.TraceLine.{shown};
ghost use Rattle.trace_text.specs.Line.{line_bytes};

use node_core::Line;
use std::alloc::{AllocError, Global};
use std::marker::Model;
use trace_text::Page;

/// Lines of a trace, one after another, on a page that is made once it is wanted.
#[derive(Drop)]
pub(crate) struct TextBuffer {
    /// The page, where it was made.
    page: Option<Page>,
    /// For how many bytes it was made.
    room: usize,
    /// Where memory is taken.
    alloc: Global,
}

impl Model for TextBuffer {
    ghost use Rattle.std.specs.Prelude.{ℕ, List, []};
    ghost use Rattle.std.specs.Option.{unwrap_or};

    ghost Value = { List ℕ };

    ghost view = { λ p. unwrap_or p.page [] };
}

/// A page with one line.
fn page_of(alloc: Global, n: u64, line: &Line) -> Result<Page, AllocError>
    ensures { IfOk result (λ page. page ≡ line_bytes n (shown line.now)) }
{
    let mut page = Page::new(alloc, 0)?;
    page.put_line(n, line)?;
    Ok(page)
}

impl TextBuffer {
    /// Without lines. No memory is taken.
    pub(crate) fn new(alloc: Global) -> TextBuffer
        ensures { result ≡ [] }
    {
        TextBuffer {
            page: None,
            room: 0,
            alloc,
        }
    }

    /// Where memory is taken.
    pub(crate) fn allocator(&self) -> Global {
        self.alloc
    }

    /// How many bytes the lines have.
    pub(crate) fn len(&self) -> usize
        ensures { result ≡ length self.now }
    {
        match &self.page {
            Some(page) => page.len(),
            None => 0,
        }
    }

    /// The lines.
    pub(crate) fn as_slice(&self) -> &[u8]
        ensures { result.now ≡ self.now }
    {
        match &self.page {
            Some(page) => page.as_slice(),
            None => &[],
        }
    }

    /// Lets the lines go. The room stays, but not what was taken beyond it: a thread that once made another's text
    /// too would keep twice the memory.
    pub(crate) fn clear(&mut self)
        ensures { self.new ≡ [] }
    {
        if self.len() > self.room {
            self.page = None;
            self.room = 0;
        }
        if let Some(page) = &mut self.page {
            page.clear();
        }
    }

    /// Makes room for so many bytes, where there are no lines yet. With less room lines are put as
    /// well, only slower.
    pub(crate) fn make_room(&mut self, room: usize) -> Result<(), AllocError>
        ensures { self.new ≡ self.old }
    {
        if self.room < room && self.len() == 0 {
            self.page = Some(Page::new(self.alloc, room)?);
            self.room = room;
        }
        Ok(())
    }

    /// Appends the line of the trace for the `n`-th event, with its LF, or nothing.
    #[inline(always)]
    pub(crate) fn put_line(&mut self, n: u64, line: &Line) -> Result<(), AllocError>
        ensures { OnOk result (self.new ≡ self.old ++ line_bytes n (shown line.now)) }
    {
        match &mut self.page {
            Some(page) => page.put_line(n, line),
            None => self.begin_with(n, line),
        }
    }

    /// Has this line alone. Only a text buffer for which no room was made comes here: what it takes to make a page is not to be
    /// laid out for each line.
    #[cold]
    #[inline(never)]
    fn begin_with(&mut self, n: u64, line: &Line) -> Result<(), AllocError>
        ensures { OnOk result (self.new ≡ line_bytes n (shown line.now)) }
    {
        self.page = Some(page_of(self.alloc, n, line)?);
        Ok(())
    }
}
