//! Sessions whose writer fails at one of its calls, behind two workers who are at each window. Those of one
//! worker, those of the other subcommands, and a reader that fails are tried so on the built program, by
//! dev/test_bounds.py.

use super::taker::{BreaksAt, Taker};
use super::texts::FIRST;
use super::{ended, expect_end};
use sessions::source::OverRead;
use std::io;
use std::process::Abort;
use std::sync::Wait;
use std::thread::Threads;
use window_engine::{Gate, OverWrite};

/// The most bytes of a call, of a writer that is asked often.
const FEW: usize = 3;

/// The most bytes of a call, of one that is asked as seldom as can be.
const MANY: usize = 1_000_000_000;

/// A debugging session on the first text.
const SESSION: &str = "sim 1000000000
node s sender
node r receiver
link a s r 8000000 1000000 droptail 10
link b r s 8000000 1000000 droptail 10
flow f s r 1000 1 0 64000 0
---
break kind data
run
bak
";

/// A session by two workers over a writer ends with this status and this note.
fn run_into(
    rt: &(impl Abort + AllocGlobal + Threads + Wait + Sync),
    (word, input): (&str, &str),
    writer: &mut Taker,
    (status, note): (u8, &str),
) {
    let words = ["tcpsim", word, "--groups", "each", "--workers", "2"];
    let mut reader = OverRead::new(input.as_bytes());
    let mut output = OverWrite::new(writer);
    let outcome = ended(rt, &mut reader, &mut output, &words, &Gate::for_all());
    expect_end(rt, outcome, status, note);
}

/// What a writer of so many bytes a call takes, where nothing fails.
fn taken_whole(
    rt: &(impl Abort + AllocGlobal + Threads + Wait + Sync),
    session: (&str, &str),
    most: usize,
) -> Taker {
    let mut writer = Taker::new(rt.alloc(), most, 0, BreaksAt::Never);
    run_into(rt, session, &mut writer, (0, ""));
    writer
}

/// A writer of few bytes a call is asked for each few of the pieces that one of many takes, one a call.
fn expect_calls(rt: &impl Abort, whole: &Taker, pieces: &Taker) {
    let asked = whole.places.as_slice();
    let mut begin = 0usize;
    let mut calls = 0usize;
    for place in 0..whole.taken.len() {
        if pieces.places.as_slice().contains(&place) {
            begin = place;
        }
        if place.saturating_sub(begin) % FEW == 0 {
            assert!(rt; asked.get(calls) == Some(&place));
            calls = calls.saturating_add(1);
        }
    }
    assert_eq!(rt; asked.len(), calls);
}

/// Every way in which a writer can break.
const WRITE_BREAKS: [BreaksAt; 5] = [
    BreaksAt::Fails(io::ErrorKind::Other),
    BreaksAt::Fails(io::ErrorKind::Interrupted),
    BreaksAt::Fails(io::ErrorKind::OutOfMemory),
    BreaksAt::Fails(io::ErrorKind::BrokenPipe),
    BreaksAt::GivesNothing,
];

/// A session over a writer that breaks at this call ends with `write failed`: what the calls before took is
/// out, and the writer is not asked again.
fn expect_write_failed(
    rt: &(impl Abort + AllocGlobal + Threads + Wait + Sync),
    session: (&str, &str),
    whole: &Taker,
    call: usize,
    broken: BreaksAt,
) {
    let mut writer = Taker::new(rt.alloc(), FEW, call, broken);
    run_into(rt, session, &mut writer, (3, "write failed\n"));
    let (asked, taken) = (writer.places.as_slice(), writer.taken.as_slice());
    assert!(rt; whole.places.as_slice().get(..call) == Some(asked));
    assert!(rt; asked.last() == Some(&taken.len()));
    assert!(rt; whole.taken.as_slice().starts_with(taken));
}

/// A session's writer breaks at each of its calls in turn.
fn expect_writing(rt: &(impl Abort + AllocGlobal + Threads + Wait + Sync), session: (&str, &str)) {
    let pieces = taken_whole(rt, session, MANY);
    let whole = taken_whole(rt, session, FEW);
    assert!(rt; whole.taken.as_slice() == pieces.taken.as_slice());
    expect_calls(rt, &whole, &pieces);
    let calls = whole.places.len();
    assert!(rt; calls > 100);
    for call in 1..=calls {
        for broken in WRITE_BREAKS {
            expect_write_failed(rt, session, &whole, call, broken);
        }
    }
}

#[test]
fn a_writer_behind_two_workers_breaks_at_each_call(rt: HostRuntime) {
    for session in [("run", FIRST), ("debug", SESSION)] {
        expect_writing(&rt, session);
    }
}
