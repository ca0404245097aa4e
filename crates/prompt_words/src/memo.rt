//! What a session at a prompt keeps in mind from line to line.
ghost use Rattle.std.specs.Prelude.{◌≡◌};
ghost use Rattle.prompt_words.specs.Memos.{nothing_known, knowing, no_memo};

use crate::command::{Shown, Typed};

/// How far a run is known to go.
#[derive(Clone, Copy)]
pub struct Extent {
    /// The greatest position that the session is known to have been at.
    pub upto: u64,
    /// Whether the run ends there.
    pub ends: bool,
}

/// What a session at a prompt keeps in mind from line to line.
#[derive(Clone, Copy)]
pub struct Memo {
    /// The last move that was asked for, which an empty line asks for again.
    pub last: Option<Typed>,
    /// How far the run is known to go.
    pub known: Extent,
}

impl Extent {
    /// The run begins.
    pub(crate) fn nothing() -> Extent
        ensures { result ≡ nothing_known }
    {
        Extent {
            upto: 0,
            ends: false,
        }
    }
}

impl Memo {
    /// Nothing was asked for yet.
    pub fn new() -> Memo
        ensures { result ≡ no_memo }
    {
        Memo {
            last: None,
            known: Extent::nothing(),
        }
    }
}

/// What is asked, with how far the run is known to go where that is asked.
pub fn knowing(known: Extent, asked: Typed) -> Typed
    ensures { result ≡ knowing known asked }
{
    match asked {
        Typed::Show(Shown::Where(_)) => Typed::Show(Shown::Where(known)),
        _ => asked,
    }
}
