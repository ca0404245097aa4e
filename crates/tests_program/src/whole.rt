//! Whole sessions over memory. Runs, refusals and words that compare bytes alone are tried on the built
//! program: dev/test_whole.py, dev/test_bounds.py, dev/test_prompt.py and dev/try_shell.sh.

mod broken;
mod calls;
mod folder;
mod groups;
mod taker;
mod texts;
mod workers;

use sessions::outcome::Outcome;
use sessions::session::run_with;
use sessions::source::{OverRead, Source};
use std::process::Abort;
use std::sync::Wait;
use std::thread::Threads;
use window_engine::{Gate, OverWrite, Sink};

/// A session with these words.
fn ended<S: Source, W: Sink>(
    rt: &(impl AllocGlobal + Threads + Wait + Sync),
    reader: &mut S,
    writer: &mut W,
    words: &[&str],
    gate: &Gate,
) -> Outcome {
    run_with(rt, reader, writer, words, gate)
}

/// What goes to standard error.
fn note(rt: &(impl Abort + AllocGlobal), outcome: &Outcome) -> String {
    match &outcome.note {
        Some(note) => note.to_string(rt.alloc()).expect(rt, "a note"),
        None => String::new(rt.alloc()),
    }
}

/// A session ended with this status and this note.
fn expect_end(rt: &(impl Abort + AllocGlobal), outcome: Outcome, status: u8, noted: &str) {
    let note = note(rt, &outcome);
    assert!(rt;
        outcome.status == status && note.as_str() == noted,
        "{}",
        note
    );
    drop(outcome);
}

/// A session with these words is done. The answer is what it writes.
fn written(
    rt: &(impl Abort + AllocGlobal + Threads + Wait + Sync),
    words: &[&str],
    input: &[u8],
    gate: &Gate,
) -> Vec<u8> {
    let mut out = Vec::new(rt.alloc());
    let mut reader = OverRead::new(input);
    let mut writer = OverWrite::new(&mut out);
    let outcome = ended(rt, &mut reader, &mut writer, words, gate);
    expect_end(rt, outcome, 0, "");
    out
}
