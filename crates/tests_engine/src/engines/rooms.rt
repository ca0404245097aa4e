//! Outputs that have no room for all of a run's text.

use super::nets::{ONE_SEGMENT, one_flow, two_flows};
use super::{engine_of, run_to, text_of};
use crate::refused::stays_failed;
use scenario_image::Scenario;
use std::process::Abort;
use std::sync::Wait;
use std::thread::Threads;
use window_engine::{Engine, EngineFault, Gate, OverWrite, Stop};

// How a run ended, and how many events are committed.
type Ended = (Result<Stop, EngineFault>, u64);

// Runs an engine into a room of so many bytes, which then has the text's first.
fn fills(
    rt: &(impl Threads + Wait + Abort + AllocGlobal + Sync),
    engine: &mut Engine,
    workers: usize,
    gate: &Gate,
    text: &[u8],
    size: usize,
) -> Ended {
    let mut room = vec![in rt.alloc(); 0u8; size].expect(rt, "a room");
    let mut sink = OverWrite::new(room.as_mut_slice());
    let stop = run_to(rt, engine, workers, gate, u64::MAX, &mut sink);
    assert!(rt; text.get(..size) == Some(room.as_slice()));
    (stop, engine.position())
}

// The same of a scenario's run. An engine whose output failed has failed for good.
fn run_into_room(
    rt: &(impl Threads + Wait + Abort + AllocGlobal + Sync),
    (scenario, groups): (&Scenario, &[u8]),
    workers: usize,
    gate: &Gate,
    text: &[u8],
    size: usize,
) -> Ended {
    let mut engine = engine_of(rt, scenario, groups);
    let ended = fills(rt, &mut engine, workers, gate, text, size);
    assert!(rt; engine.failed() == ended.0.is_err());
    if engine.failed() {
        stays_failed(rt, &mut engine, workers);
    }
    drop(engine);
    ended
}

// Where the windows of one segment's run end, each of a millisecond at most: its events are at 0, 1.04,
// 2.04, 2.08 and 3.08 milliseconds.
const WINDOW_ENDS: [u64; 4] = [1, 2, 4, 5];

// How that run ends in a room of so many bytes: with the first window whose text goes on behind it.
fn ended_in(text: &[u8], size: usize) -> Ended {
    let written = text.get(..size).unwrap_or(text);
    let lines = written.iter().filter(|byte| **byte == b'\n').count() as u64;
    let written = size as u128;
    match WINDOW_ENDS.iter().find(|end| **end > lines) {
        Some(end) => (Err(EngineFault::Sink { written }), *end),
        None => (Ok(Stop::End), 5),
    }
}

#[test]
fn a_full_room_has_the_first_bytes(rt: HostRuntime) {
    let scenario = one_flow(&rt, 1);
    let text = ONE_SEGMENT.as_bytes();
    for size in 0..=text.len() {
        let wanted = ended_in(text, size);
        for workers in [1, 2] {
            let run = (&scenario, [0, 1].as_slice());
            let ended = run_into_room(&rt, run, workers, &Gate::for_all(), text, size);
            assert!(rt; ended == wanted, "{size}");
        }
    }
}

// A long run into a room of so many bytes ends with a whole window, the same by any workers.
fn expect_full(
    rt: &(impl Threads + Wait + Abort + AllocGlobal + Sync),
    run: (&Scenario, &[u8]),
    text: &[u8],
    size: usize,
) {
    let one = run_into_room(rt, run, 1, &Gate::open(), text, size);
    let written = size as u128;
    assert!(rt; one.0 == Err(EngineFault::Sink { written }));
    for workers in [2, 3] {
        let ended = run_into_room(rt, run, workers, &Gate::open(), text, size);
        assert!(rt; ended == one);
    }
}

// The first room is full in the midst of the run, the second in the last window's text.
#[test]
fn a_full_room_ends_a_long_run_after_whole_windows(rt: HostRuntime) {
    let scenario = two_flows(&rt, 2_000);
    let text = text_of(&rt, &scenario, &[0, 0, 0, 0], 1, &Gate::open());
    let run = (&scenario, [0, 0, 1, 1].as_slice());
    expect_full(&rt, run, text.as_slice(), text.len() / 2);
    expect_full(&rt, run, text.as_slice(), text.len().saturating_sub(1));
}
