//! What the command line says of workers and groups: who runs what changes no byte. How that is written, and
//! what is refused, is tried on the built program: dev/test_whole.py.

use super::texts::{
    EQUAL_TIMES, EQUAL_TIMES_TRACE, FIRST, FIRST_TRACE, MOVES, NEWRENO, OF_A_FLOW, QUEUE,
};
use super::written;
use std::process::Abort;
use std::sync::Wait;
use std::thread::Threads;
use window_engine::Gate;

/// What a run shared out so writes, by 1, 2 and 64 workers, who are at each window, however few events it
/// holds.
fn expect_run(
    rt: &(impl Abort + AllocGlobal + Threads + Wait + Sync),
    input: &str,
    groups: &str,
    trace: &[u8],
) {
    for workers in ["1", "2", "64"] {
        let words = ["tcpsim", "run", "--groups", groups, "--workers", workers];
        let found = written(rt, &words, input.as_bytes(), &Gate::for_all());
        assert!(rt; found.as_slice() == trace, "{groups} {workers}");
    }
}

#[test]
fn one_segment_goes_as_before_by_any_workers(rt: HostRuntime) {
    for groups in ["one", "each", "0,1", "63,7"] {
        expect_run(&rt, FIRST, groups, FIRST_TRACE.as_bytes());
    }
}

#[test]
fn equal_times_have_one_order_by_any_workers(rt: HostRuntime) {
    for groups in ["one", "each", "0,1,0,1,0", "5,5,63,0,0"] {
        expect_run(&rt, EQUAL_TIMES, groups, EQUAL_TIMES_TRACE.as_bytes());
    }
}

/// The lines of a run of 200 segments, which ends on a full queue's losses.
#[test]
fn many_windows_give_the_lines_of_the_plain_run(rt: HostRuntime) {
    let text = FIRST.replace(rt.alloc(), " 1000 1 0 ", " 1000 200 0 ");
    let text = text.expect(&rt, "a text");
    let plain = written(&rt, &["tcpsim", "run"], text.as_bytes(), &Gate::open());
    assert!(rt; plain.as_slice().ends_with(b"\nend 145\n"));
    expect_run(&rt, text.as_str(), "each", plain.as_slice());
}

/// A debugging session that is shared out answers what it answers alone.
fn expect_answers(rt: &(impl Abort + AllocGlobal + Threads + Wait + Sync), input: &str) {
    let plain = written(rt, &["tcpsim", "debug"], input.as_bytes(), &Gate::open());
    assert!(rt; plain.len() > 300);
    for groups in ["one", "each"] {
        for workers in ["1", "2", "64"] {
            let words = ["tcpsim", "debug", "--groups", groups, "--workers", workers];
            let found = written(rt, &words, input.as_bytes(), &Gate::for_all());
            assert!(rt; found.as_slice() == plain.as_slice(), "{groups} {workers}");
        }
    }
}

#[test]
fn sessions_have_the_same_answers_by_any_workers(rt: HostRuntime) {
    for input in [MOVES, OF_A_FLOW, QUEUE, NEWRENO] {
        expect_answers(&rt, input);
    }
}

/// A session with these words, whose windows have so many pieces: all of them are at work at once, and each
/// that was entered is left.
fn with_crowd(
    rt: &(impl Abort + AllocGlobal + Threads + Wait + Sync),
    words: &[&str],
    input: &str,
    pieces: u64,
) -> Vec<u8> {
    let gate = Gate::of(pieces);
    let out = written(rt, words, input.as_bytes(), &gate);
    assert_eq!(rt; gate.missed(), 0);
    assert_eq!(rt; gate.entered(), gate.left());
    let (entered, _) = gate.entered();
    assert!(rt; entered >= pieces.saturating_mul(3), "{entered}");
    out
}

#[test]
fn two_workers_are_at_their_pieces_at_once(rt: HostRuntime) {
    let words = ["tcpsim", "run", "--workers", "2", "--groups", "0,1,0,1,0"];
    let out = with_crowd(&rt, &words, EQUAL_TIMES, 2);
    assert!(rt; out.as_slice() == EQUAL_TIMES_TRACE.as_bytes());
}

/// The first node and the last one are in one group.
#[test]
fn four_workers_are_at_their_pieces_at_once(rt: HostRuntime) {
    let words = ["tcpsim", "run", "--workers", "4", "--groups", "0,1,2,3,0"];
    let out = with_crowd(&rt, &words, EQUAL_TIMES, 4);
    assert!(rt; out.as_slice() == EQUAL_TIMES_TRACE.as_bytes());
}

/// A move to a breakpoint that is not there, one to a moment, and one from where both ended and went back.
#[test]
fn all_workers_are_at_a_move_s_pieces_at_once(rt: HostRuntime) {
    for (workers, groups, pieces) in [
        ("2", "0,0,1,1,0", 2),
        ("5", "each", 5),
        ("64", "4,3,2,1,0", 5),
    ] {
        let words = ["tcpsim", "debug", "--workers", workers, "--groups", groups];
        for moves in ["run\n", "until 2040001\n", "run\nback 6\nuntil 2040001\n"] {
            let input = format!(in rt.alloc(); "{EQUAL_TIMES}---\n{moves}").expect(&rt, "a text");
            let out = with_crowd(&rt, &words, input.as_str(), pieces);
            assert!(rt; out.as_slice().starts_with(b"at 6\n"));
        }
    }
}
