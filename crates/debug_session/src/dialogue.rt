//! A debugger that is told what to do line by line.
ghost use Rattle.std.specs.Prelude.{◌≡◌, []};
ghost use Rattle.prompt_words.specs.Memos.{no_memo};

use debugger::Debugger;
use prompt_words::{DisplayItem, Memo};
use std::alloc::Global;

/// A debugger at a prompt.
#[derive(Drop)]
pub struct Dialogue {
    /// The debugger.
    pub debugger: Debugger,
    /// What is kept in mind from line to line.
    pub memo: Memo,
    /// What is displayed after each move.
    pub displays: Vec<DisplayItem>,
}

impl Dialogue {
    /// Nothing was asked for yet.
    pub fn new(alloc: Global, debugger: Debugger) -> Dialogue
        ensures debugger { result.debugger ≡ debugger }
        ensures memo { result.memo ≡ no_memo }
        ensures displays { result.displays.items ≡ [] }
    {
        Dialogue {
            debugger,
            memo: Memo::new(),
            displays: Vec::new(alloc),
        }
    }
}
