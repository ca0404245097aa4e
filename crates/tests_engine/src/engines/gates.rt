//! A gate is told of each piece of each window, once before it runs and once behind, and the workers are at
//! their pieces at once, also while the text of a window before is written.

use super::nets::{four_flows, two_flows};
use super::{engine_of, run_to, whole_text, window};
use std::process::Abort;
use std::sync::Wait;
use std::thread::{Threads, available_parallelism};
use window_engine::{Engine, Gate, Sink, SinkFail, Stop};

// Four groups, so that each window has four pieces, of the numbers 0 to 3.
const GROUPS: [u8; 4] = [0, 1, 2, 3];

// How many workers there are, and how many of them are let go together.
const CREWS: [(usize, u64); 5] = [(1, 1), (2, 2), (3, 1), (4, 4), (64, 4)];

// Sees that in so many windows each piece was entered and left, and that nobody went on alone.
fn expect_reported(rt: &impl Abort, gate: &Gate, windows: u64) {
    let all = (windows.saturating_mul(4), windows.saturating_mul(6));
    assert_eq!(rt; gate.entered(), all);
    assert_eq!(rt; gate.left(), all);
    assert_eq!(rt; gate.missed(), 0);
}

// Runs ten windows, one by one, each from where the last one ended.
fn expect_windows(
    rt: &(impl Threads + Wait + Abort + Sync),
    engine: &mut Engine,
    (workers, together): (usize, u64),
) {
    let gate = Gate::of(together);
    for windows in 1..=10 {
        let next = engine.position().saturating_add(1);
        let reported = window(rt, engine, workers, &gate, u64::MAX);
        assert!(rt; matches!(reported, Ok((first, _)) if first == next));
        expect_reported(rt, &gate, windows);
    }
}

#[test]
fn each_piece_of_a_window_is_entered_and_left(rt: HostRuntime) {
    let mut engine = engine_of(&rt, &two_flows(&rt, 100), &GROUPS);
    for crew in CREWS {
        expect_windows(&rt, &mut engine, crew);
    }
    drop(engine);
}

#[test]
fn each_piece_of_a_run_is_entered_and_left(rt: HostRuntime) {
    let scenario = two_flows(&rt, 4);
    for (workers, together) in CREWS {
        let gate = Gate::of(together);
        let mut engine = engine_of(&rt, &scenario, &GROUPS);
        let _text = whole_text(&rt, &mut engine, workers, &gate);
        drop(engine);
        let (entered, _) = gate.entered();
        assert!(rt; entered >= 12);
        expect_reported(&rt, &gate, entered / 4);
    }
}

// Keeps no byte. It takes the first ones once a piece of the third window was entered.
#[derive(Drop)]
struct Patient<'a> {
    gate: &'a Gate,
    // Whether it has taken bytes.
    began: bool,
    // Whether that piece was entered.
    came: bool,
}

impl<'a> Sink for Patient<'a> {
    ghost failures = { λ _. 0 };

    fn put(&mut self, bytes: &[u8]) -> Result<usize, SinkFail> {
        if !self.began {
            self.began = true;
            self.came = self.gate.comes_to(9);
        }
        Ok(bytes.len())
    }
}

// The text of the first window is made while the second one runs, and written while threads begin the third.
#[test]
fn a_text_is_written_while_threads_run_a_window(rt: HostRuntime) {
    let scenario = two_flows(&rt, 4);
    for workers in [2, 4, 64] {
        let gate = Gate::of(1);
        let mut engine = engine_of(&rt, &scenario, &GROUPS);
        let mut sink = Patient {
            gate: &gate,
            began: false,
            came: false,
        };
        let stop = run_to(&rt, &mut engine, workers, &gate, u64::MAX, &mut sink);
        drop(engine);
        assert!(rt; stop == Ok(Stop::End));
        assert!(rt; sink.came, "{workers}");
    }
}

// Whether so many of the workers are at their pieces at once in one of some runs: on a busy machine threads come late. In
// each a worker is held for longer, up to half a million turns. A turn gives no processor away, so that all of them together
// take seconds.
fn have_met<R: Threads + Wait + Abort + AllocGlobal + Sync>(
    rt: &R,
    workers: usize,
    size: u64,
) -> bool {
    let scenario = four_flows(rt);
    for run in 0..64u32 {
        let gate = Gate::until_met(size, 2_000u64 << run.min(8));
        let mut engine = engine_of(rt, &scenario, &[0, 0, 1, 1, 2, 2, 3, 3]);
        let _text = whole_text(rt, &mut engine, workers, &gate);
        drop(engine);
        if gate.has_met() {
            return true;
        }
    }
    false
}

// Where windows hold thousands of events of each of four groups, as many workers run them as there are, up to four and to
// the processors.
#[test]
fn as_many_workers_as_pay_are_at_their_pieces_at_once(rt: HostRuntime) {
    let processors = match available_parallelism(&rt) {
        Ok(processors) => processors.get() as u64,
        Err(_) => 1,
    };
    for (workers, size) in [(2, 2u64), (3, 3), (4, 4), (8, 4)] {
        assert!(rt; have_met(&rt, workers, size.min(processors)), "{workers}");
    }
}

// Of four pieces two workers begin with the first and with the third.
#[test]
fn workers_begin_at_different_pieces(rt: HostRuntime) {
    let gate = Gate::of(2);
    let mut engine = engine_of(&rt, &two_flows(&rt, 4), &GROUPS);
    let _text = whole_text(&rt, &mut engine, 2, &gate);
    drop(engine);
    let windows = gate.entered().0 / 4;
    assert!(rt; windows >= 3);
    assert_eq!(rt; gate.missed(), 0);
    assert_eq!(rt; gate.numbers_first(), windows.saturating_mul(2));
}
