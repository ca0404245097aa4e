//! Runs and windows that end before a moment.

use super::nets::{ONE_SEGMENT, one_flow};
use super::{engine_of, run_to, window};
use std::process::Abort;
use std::sync::Wait;
use std::thread::Threads;
use window_engine::{Engine, Gate, OverWrite, Stop};

// Runs an engine up to a moment. The answer is its text.
fn part_of(
    rt: &(impl Threads + Wait + Abort + AllocGlobal + Sync),
    engine: &mut Engine,
    workers: usize,
    until: u64,
    stops: Stop,
) -> Vec<u8> {
    let mut text = Vec::new(rt.alloc());
    let mut sink = OverWrite::new(&mut text);
    let stop = run_to(rt, engine, workers, &Gate::for_all(), until, &mut sink);
    assert!(rt; stop == Ok(stops), "{workers} {until}");
    text
}

// Runs one segment's events before a moment, and then the others. The answers and the texts say which they
// are.
fn expect_parted(
    rt: &(impl Threads + Wait + Abort + AllocGlobal + Sync),
    workers: usize,
    until: u64,
    count: usize,
) {
    let mut engine = engine_of(rt, &one_flow(rt, 1), &[0, 1]);
    let mut text = part_of(rt, &mut engine, workers, until, Stop::Until);
    assert_eq!(rt; engine.position(), count as u64);
    assert_eq!(rt;
        text.as_slice()
            .iter()
            .filter(|byte| **byte == b'\n')
            .count(),
        count
    );
    let rest = part_of(rt, &mut engine, workers, 3_080_001, Stop::End);
    assert_eq!(rt; engine.position(), 5);
    drop(engine);
    text.extend_from_slice(rest.as_slice()).expect(rt, "room");
    assert!(rt; text.as_slice() == ONE_SEGMENT.as_bytes());
}

// The same by one worker and by two.
fn expect_before(
    rt: &(impl Threads + Wait + Abort + AllocGlobal + Sync),
    until: u64,
    count: usize,
) {
    expect_parted(rt, 1, until, count);
    expect_parted(rt, 2, until, count);
}

// One segment's events are at 0, 1.04, 2.04, 2.08 and 3.08 milliseconds.
#[test]
fn a_run_commits_the_events_before_its_bound(rt: HostRuntime) {
    expect_before(&rt, 0, 0);
    expect_before(&rt, 1, 1);
    expect_before(&rt, 1_040_000, 1);
    expect_before(&rt, 1_040_001, 2);
    expect_before(&rt, 2_040_000, 2);
    expect_before(&rt, 2_040_001, 3);
    expect_before(&rt, 2_080_000, 3);
    expect_before(&rt, 2_080_001, 4);
    expect_before(&rt, 3_080_000, 4);
}

// The next window that ends by a moment has so many lines.
fn expect_window(
    rt: &(impl Threads + Wait + Abort + Sync),
    engine: &mut Engine,
    workers: usize,
    until: u64,
    lines: usize,
) {
    let first = engine.position().saturating_add(1);
    let reported = window(rt, engine, workers, &Gate::for_all(), until);
    assert!(rt; reported == Ok((first, lines)), "{until}");
}

// The windows of one segment's run, one after another.
fn expect_windows(rt: &(impl Threads + Wait + Abort + AllocGlobal + Sync), workers: usize) {
    let mut engine = engine_of(rt, &one_flow(rt, 1), &[0, 1]);
    expect_window(rt, &mut engine, workers, 0, 0);
    expect_window(rt, &mut engine, workers, 1, 1);
    expect_window(rt, &mut engine, workers, 1_040_000, 0);
    expect_window(rt, &mut engine, workers, 1_040_001, 1);
    expect_window(rt, &mut engine, workers, 2_040_001, 1);
    assert_eq!(rt; engine.position(), 3);
    drop(engine);
}

#[test]
fn a_window_has_the_events_before_its_bound(rt: HostRuntime) {
    expect_windows(&rt, 1);
    expect_windows(&rt, 2);
}
