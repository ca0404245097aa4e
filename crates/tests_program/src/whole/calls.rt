//! The public calls of a session that the program does not make itself: they write what words have written.

use super::texts::{FIRST, FIRST_TRACE, MOVES};
use super::{expect_end, written};
use command_line::sharing::Sharing;
use command_line::subcommand::{Subcommand, Task};
use sessions::debug::run_debug;
use sessions::session::{run_all, run_session, run_task};
use sessions::source::OverRead;
use std::process::Abort;
use std::sync::Wait;
use std::thread::Threads;
use window_engine::{Gate, OverWrite};

/// Among so many workers, by these groups.
fn sharing(rt: &impl Abort, workers: usize, groups: &'static str) -> Sharing<'static> {
    assert!(rt; workers > 0 && workers <= 64);
    Sharing::new(workers, groups)
}

/// What the session of a subcommand writes over the first text.
fn by_subcommand(
    rt: &(impl Abort + AllocGlobal + Threads + Wait + Sync),
    subcommand: Subcommand<'_>,
) -> Vec<u8> {
    let mut out = Vec::new(rt.alloc());
    let mut reader = OverRead::new(FIRST.as_bytes());
    let mut writer = OverWrite::new(&mut out);
    let alloc = rt.alloc();
    let outcome = run_session(
        rt,
        alloc,
        subcommand,
        &Gate::for_all(),
        &mut reader,
        &mut writer,
    );
    expect_end(rt, outcome, 0, "");
    out
}

/// What the session of a task writes over an input.
fn by_task(
    rt: &(impl Abort + AllocGlobal + Threads + Wait + Sync),
    task: Task<'_>,
    input: &str,
) -> Vec<u8> {
    let mut out = Vec::new(rt.alloc());
    let mut reader = OverRead::new(input.as_bytes());
    let mut writer = OverWrite::new(&mut out);
    let outcome = run_task(
        rt,
        rt.alloc(),
        task,
        &Gate::for_all(),
        &mut reader,
        &mut writer,
    );
    expect_end(rt, outcome, 0, "");
    out
}

/// What a debugging session writes, alone.
fn by_debug(rt: &(impl Abort + AllocGlobal + Threads + Wait + Sync), input: &str) -> Vec<u8> {
    let mut out = Vec::new(rt.alloc());
    let mut reader = OverRead::new(input.as_bytes());
    let mut writer = OverWrite::new(&mut out);
    let sharing = sharing(rt, 1, "one");
    let alloc = rt.alloc();
    let outcome = run_debug(
        rt,
        alloc,
        &sharing,
        &Gate::for_all(),
        &mut reader,
        &mut writer,
    );
    expect_end(rt, outcome, 0, "");
    out
}

/// What a whole session with these words writes, whose workers nobody is told of.
fn by_words(
    rt: &(impl Abort + AllocGlobal + Threads + Wait + Sync),
    words: &[&str],
    input: &str,
) -> Vec<u8> {
    let mut out = Vec::new(rt.alloc());
    let mut reader = OverRead::new(input.as_bytes());
    let mut writer = OverWrite::new(&mut out);
    let outcome = run_all(rt, &mut reader, &mut writer, words);
    expect_end(rt, outcome, 0, "");
    out
}

#[test]
fn conversions_write_what_words_have_written(rt: HostRuntime) {
    let image = by_subcommand(&rt, Subcommand::Asm);
    assert_eq!(rt; image.len(), 135);
    let wanted = by_words(&rt, &["tcpsim", "asm"], FIRST);
    assert!(rt; image.as_slice() == wanted.as_slice());
    let text = by_subcommand(&rt, Subcommand::Dis);
    let wanted = by_words(&rt, &["tcpsim", "dis"], FIRST);
    assert!(rt; text.as_slice() == wanted.as_slice());
}

#[test]
fn runs_write_what_words_have_written(rt: HostRuntime) {
    let trace = FIRST_TRACE.as_bytes();
    for (workers, groups) in [(1, "one"), (2, "each")] {
        let run = Subcommand::Run(sharing(&rt, workers, groups));
        assert!(rt; by_subcommand(&rt, run).as_slice() == trace);
        let run = Task::Scenario(Subcommand::Run(Sharing::new(workers, groups)));
        assert!(rt; by_task(&rt, run, FIRST).as_slice() == trace);
    }
}

#[test]
fn debugging_sessions_write_what_words_have_written(rt: HostRuntime) {
    let answers = written(
        &rt,
        &["tcpsim", "debug"],
        MOVES.as_bytes(),
        &Gate::for_all(),
    );
    let task = by_task(&rt, Task::Debug(sharing(&rt, 2, "each")), MOVES);
    assert!(rt; task.as_slice() == answers.as_slice());
    let debug = by_debug(&rt, MOVES);
    assert!(rt; debug.as_slice() == answers.as_slice());
}
