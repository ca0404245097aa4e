//! Runs by any workers and groups write the same.

use super::nets::{EQUAL_TIMES, ONE_SEGMENT, equal_times, one_flow, two_flows};
use super::text_of;
use scenario_image::Scenario;
use std::process::Abort;
use std::sync::Wait;
use std::thread::Threads;
use window_engine::Gate;

// A scenario's run in these groups, by so many workers, writes this text.
fn expect_run(
    rt: &(impl Threads + Wait + Abort + AllocGlobal + Sync),
    scenario: &Scenario,
    groups: &[u8],
    workers: usize,
    text: &[u8],
) {
    let found = text_of(rt, scenario, groups, workers, &Gate::for_all());
    assert!(rt; found.as_slice() == text, "{workers}");
}

// The same by 1, 2 and 64 workers.
fn expect_runs(
    rt: &(impl Threads + Wait + Abort + AllocGlobal + Sync),
    scenario: &Scenario,
    groups: &[u8],
    text: &str,
) {
    for workers in [1, 2, 64] {
        expect_run(rt, scenario, groups, workers, text.as_bytes());
    }
}

#[test]
fn one_segment_gives_the_stored_lines(rt: HostRuntime) {
    let scenario = one_flow(&rt, 1);
    expect_runs(&rt, &scenario, &[0, 0], ONE_SEGMENT);
    expect_runs(&rt, &scenario, &[0, 1], ONE_SEGMENT);
}

#[test]
fn equal_times_give_the_stored_lines(rt: HostRuntime) {
    let scenario = equal_times(&rt);
    expect_runs(&rt, &scenario, &[0, 0, 0, 0, 0], EQUAL_TIMES);
    expect_runs(&rt, &scenario, &[0, 1, 2, 3, 4], EQUAL_TIMES);
}

// In the last groups windows have lines enough for a part of their text by each worker, and each part is
// merged from both groups.
#[test]
fn threads_make_the_text_of_one_worker(rt: HostRuntime) {
    let scenario = two_flows(&rt, 2_000);
    let plain = text_of(&rt, &scenario, &[0, 0, 0, 0], 1, &Gate::for_all());
    expect_run(&rt, &scenario, &[0, 1, 2, 3], 2, plain.as_slice());
    expect_run(&rt, &scenario, &[0, 0, 1, 1], 3, plain.as_slice());
}
