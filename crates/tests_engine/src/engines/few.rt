//! Where windows hold few events, or threads come late to them, events are run one after another for a while: the lines
//! are the same.

use super::nets::{long_flows, steady_flows};
use super::{engine_of, run_to, text_of, whole_text, window};
use scenario_image::Scenario;
use std::process::Abort;
use std::sync::Wait;
use std::thread::Threads;
use window_engine::{
    Gate, Load, MOST_PARTS, OverWrite, Stop, Turnout, WORTH, is_late, lateness, load_of,
    most_shares, next_stretch, share_of,
};

// Four groups, so that each window of theirs has four pieces.
const GROUPS: [u8; 4] = [0, 1, 2, 3];

// How many pieces are entered in a run by so many workers where so many events are worth a thread. Its text
// is this.
fn entered(
    rt: &(impl Threads + Wait + Abort + AllocGlobal + Sync),
    scenario: &Scenario,
    workers: usize,
    worth: usize,
    text: &[u8],
) -> u64 {
    let gate = Gate::counting(worth);
    let found = text_of(rt, scenario, &GROUPS, workers, &gate);
    assert!(rt; found.as_slice() == text);
    gate.entered().0
}

// A window between two links of a millisecond holds some eight events: after the first windows there are no more for
// a while.
#[test]
fn events_of_small_windows_are_run_one_after_another(rt: HostRuntime) {
    let scenario = steady_flows(&rt, 2_000);
    let text = text_of(&rt, &scenario, &[0, 0, 0, 0], 1, &Gate::for_all());
    let windows = entered(&rt, &scenario, 1, 0, text.as_slice()) / 4;
    let alone = entered(&rt, &scenario, 1, WORTH, text.as_slice()) / 4;
    let several = entered(&rt, &scenario, 4, WORTH, text.as_slice()) / 4;
    assert!(rt;
        windows > 500 && alone >= 32 && alone < 64 && several >= 32 && several < 64,
        "{windows} {alone} {several}"
    );
}

// A longer run goes on by windows after a while, to see what they hold then.
#[test]
fn windows_are_tried_again_after_a_while(rt: HostRuntime) {
    let scenario = long_flows(&rt);
    let text = text_of(&rt, &scenario, &[0, 0, 0, 0], 1, &Gate::for_all());
    let alone = entered(&rt, &scenario, 1, WORTH, text.as_slice()) / 4;
    let several = entered(&rt, &scenario, 4, WORTH, text.as_slice()) / 4;
    assert!(rt;
        alone >= 64 && alone < 128 && several >= 64 && several < 128,
        "{alone} {several}"
    );
}

// A run that stops at many moments, some of them while events are run one after another, has the text of one that does
// not stop.
#[test]
fn a_run_may_stop_while_events_are_run_one_after_another(rt: HostRuntime) {
    let gate = Gate::counting(WORTH);
    let scenario = steady_flows(&rt, 2_000);
    let whole = text_of(&rt, &scenario, &[0, 0, 0, 0], 1, &Gate::for_all());
    for workers in [1, 4] {
        let mut engine = engine_of(&rt, &scenario, &GROUPS);
        let mut text = Vec::new(rt.alloc());
        let mut sink = OverWrite::new(&mut text);
        for step in 1..40 {
            let stop = run_to(
                &rt,
                &mut engine,
                workers,
                &gate,
                step * 12_345_678,
                &mut sink,
            );
            assert!(rt; stop == Ok(Stop::Until));
        }
        let stop = run_to(&rt, &mut engine, workers, &gate, u64::MAX, &mut sink);
        assert!(rt; stop == Ok(Stop::End));
        assert!(rt; text.as_slice() == whole.as_slice());
        drop(engine);
    }
}

// Half a run, then a window, and then the rest: for the window the nodes are in their groups.
#[test]
fn a_window_has_its_groups_after_events_one_after_another(rt: HostRuntime) {
    let gate = Gate::counting(WORTH);
    let mut engine = engine_of(&rt, &steady_flows(&rt, 2_000), &GROUPS);
    let mut half = Vec::new(rt.alloc());
    let mut sink = OverWrite::new(&mut half);
    let stop = run_to(&rt, &mut engine, 1, &gate, 500_000_000, &mut sink);
    assert!(rt; stop == Ok(Stop::Until));
    let (before, _) = gate.entered();
    let reported = window(&rt, &mut engine, 1, &gate, u64::MAX);
    assert!(rt; matches!(reported, Ok((_, lines)) if lines < 100));
    assert!(rt; gate.entered().0 == before.saturating_add(4));
    let _rest = whole_text(&rt, &mut engine, 1, &gate);
    drop(engine);
}

// What so many windows held.
fn expect_load(rt: &impl Abort, windows: u64, events: u64, load: Load) {
    let is_load = match load_of(windows, events) {
        Load::Unknown => matches!(load, Load::Unknown),
        Load::Few => matches!(load, Load::Few),
        Load::Many => matches!(load, Load::Many),
    };
    assert!(rt; is_load);
}

#[test]
fn windows_hold_few_where_a_thread_is_not_worth_it(rt: HostRuntime) {
    let many = 32 * WORTH as u64;
    expect_load(&rt, 31, 100, Load::Unknown);
    expect_load(&rt, 32, 100, Load::Few);
    expect_load(&rt, 32, many - 1, Load::Few);
    expect_load(&rt, 32, many, Load::Many);
    expect_load(&rt, 1, many, Load::Many);
    expect_load(&rt, 1, many - 1, Load::Unknown);
    expect_load(&rt, 0, 0, Load::Unknown);
}

// The first shares of a text's parts, of so many shares that so many threads take.
fn expect_parts(rt: &impl Abort, shares: usize, workers: usize, begins: &[usize]) {
    for part in 0..begins.len() {
        assert_eq!(rt; share_of(part, shares, workers), begins[part]);
    }
}

#[test]
fn later_parts_of_a_text_are_shorter(rt: HostRuntime) {
    expect_parts(&rt, 64, 1, &[0, 32, 48, 56, 60, 62, 63, 64, 64]);
    expect_parts(
        &rt,
        64,
        2,
        &[0, 16, 32, 40, 48, 52, 56, 58, 60, 61, 62, 63, 64, 64],
    );
    expect_parts(
        &rt,
        64,
        4,
        &[
            0, 8, 16, 24, 32, 36, 40, 44, 48, 50, 52, 54, 56, 57, 58, 59, 60, 61, 62, 63, 64, 64,
        ],
    );
    expect_parts(&rt, 3, 4, &[0, 1, 2, 3, 3]);
    expect_parts(&rt, 0, 4, &[0, 0]);
    assert_eq!(rt; share_of(MOST_PARTS - 1, MOST_PARTS, 64), MOST_PARTS - 1);
    assert_eq!(rt; share_of(MOST_PARTS, MOST_PARTS, 64), MOST_PARTS);
}

// By any number of threads all shares of a text are taken in no more parts than there may be.
#[test]
fn a_text_has_no_more_parts_than_it_may(rt: HostRuntime) {
    for workers in 1..65 {
        let shares = most_shares(workers);
        assert!(rt; shares >= MOST_PARTS);
        assert_eq!(rt; share_of(MOST_PARTS, shares, workers), shares);
    }
}

// How many events of so many nodes of so many groups are run one after another, where it was so many the last time.
fn expect_stretch(rt: &impl Abort, last: u64, (nodes, groups): (usize, usize), stretch: u64) {
    assert_eq!(rt; next_stretch(last, nodes, groups), stretch);
}

#[test]
fn events_are_run_one_after_another_twice_as_long_each_time(rt: HostRuntime) {
    expect_stretch(&rt, 0, (4, 4), 16_384);
    expect_stretch(&rt, 16_384, (4, 4), 32_768);
    expect_stretch(&rt, 0, (256, 64), 524_288);
    expect_stretch(&rt, 524_288, (256, 64), 1_048_576);
    expect_stretch(&rt, 1_048_576, (4, 4), 1_048_576);
    expect_stretch(&rt, u64::MAX, (256, 64), 1_048_576);
}

// Whether threads came late to a window of which one of them ran so many groups of so many.
fn expect_late(rt: &impl Abort, most: usize, all: usize, late: bool) {
    assert_eq!(rt; is_late(Turnout { most, all }), late);
}

#[test]
fn threads_are_late_where_one_ran_all_groups(rt: HostRuntime) {
    expect_late(&rt, 0, 0, false);
    expect_late(&rt, 1, 1, false);
    expect_late(&rt, 1, 2, false);
    expect_late(&rt, 2, 2, true);
    expect_late(&rt, 3, 4, false);
    expect_late(&rt, 4, 4, true);
    expect_late(&rt, 63, 64, false);
    expect_late(&rt, 64, 64, true);
}

// How often threads came late, less how often they were in time, after one more window.
fn expect_lateness(rt: &impl Abort, before: u64, (most, all): (usize, usize), after: u64) {
    assert_eq!(rt; lateness(before, Turnout { most, all }), after);
}

#[test]
fn windows_in_time_make_up_for_late_ones(rt: HostRuntime) {
    expect_lateness(&rt, 0, (4, 4), 1);
    expect_lateness(&rt, 3, (4, 4), 4);
    expect_lateness(&rt, 4, (4, 4), 4);
    expect_lateness(&rt, 3, (1, 4), 2);
    expect_lateness(&rt, 0, (1, 4), 0);
    expect_lateness(&rt, 3, (0, 0), 3);
}
