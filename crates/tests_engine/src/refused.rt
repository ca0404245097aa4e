//! The engine and the debugger where memory is refused, by one worker and by two. Each test passes
//! whichever one request is refused, as dev/refuse_tests.sh tries: what is refused is asked for
//! once more.

use crate::engines::{run_to, window};
use breakpoints::{Break, Condition, EventKind};
use debugger::{Debugger, MoveFault};
use scenario_asm::assemble;
use scenario_image::Scenario;
use std::alloc::Global;
use std::process::Abort;
use std::sync::Wait;
use std::thread::Threads;
use window_core::Partition;
use window_engine::{Engine, EngineFault, Gate, OverWrite, Several, Stop};

/// Two segments with one delayed acknowledgement.
const DELAYED: &str = "sim 1000000000
node s sender
node r receiver
link a s r 8000000 1000000 droptail 10
link b r s 8000000 1000000 droptail 10
flow f s r 1000 2 0 64000 500000000
";

/// Their trace, by the rules of docs/MODEL.md.
const DELAYED_TRACE: &str =
    "1 0 0 0 0 start 0 una=0 nxt=2000 cwnd=4000 ssthresh=64000 phase=ss tx=0:0:0
2 1040000 0 0 3 free 0 una=0 nxt=2000 cwnd=4000 ssthresh=64000 phase=ss tx=0:0:1000
3 2040000 1 1 1 data 0 0 next=1000
4 2080000 0 0 3 free 0 una=0 nxt=2000 cwnd=4000 ssthresh=64000 phase=ss
5 3080000 1 1 2 data 0 1000 next=2000 tx=1:0:2000
6 3120000 1 0 3 free 1 next=2000
7 4120000 0 2 1 ack 0 2000 una=2000 nxt=2000 cwnd=5000 ssthresh=64000 phase=ss
end 7
";

/// How many events the run has.
const EVENTS: u64 = 7;

/// The scenario of seven events, at two nodes.
fn scenario(rt: &impl Abort, alloc: Global) -> Scenario {
    let text = DELAYED.as_bytes();
    match assemble(alloc, text) {
        Ok(scenario) => scenario,
        Err(_) => assemble(alloc, text)
            .ok()
            .expect(rt, "one request is refused"),
    }
}

/// Its engine, with a group for each node, unless it is refused.
fn new_engine(rt: &impl Abort, alloc: Global, scenario: &Scenario) -> Option<Engine> {
    let partition = Partition::each(2);
    assert!(rt; partition.nodes() == scenario.parts().nodes.len());
    Engine::new(alloc, scenario, partition).ok()
}

/// Its engine.
fn engine_of(rt: &impl Abort, alloc: Global, scenario: &Scenario) -> Engine {
    match new_engine(rt, alloc, scenario) {
        Some(engine) => engine,
        None => new_engine(rt, alloc, scenario).expect(rt, "one request is refused"),
    }
}

/// Runs a window. Whether it was refused: the engine has failed then, and stands where it stood. None where
/// it has lines.
fn is_window_refused<R: Threads + Wait + Abort + Sync>(
    rt: &R,
    engine: &mut Engine,
    workers: usize,
) -> Option<bool> {
    let position = engine.position();
    match window(rt, engine, workers, &Gate::for_all(), u64::MAX) {
        Ok((_, 0)) => {
            assert_eq!(rt; position, EVENTS);
            Some(false)
        }
        Ok(_) => {
            assert!(rt; !engine.failed());
            None
        }
        Err(fault) => {
            // A thread that finds no memory is done without.
            assert!(rt; fault == EngineFault::NoMemory && engine.failed());
            assert_eq!(rt; engine.position(), position);
            Some(true)
        }
    }
}

/// Runs windows to the run's end, unless one is refused. Whether one was.
fn is_refused<R: Threads + Wait + Abort + Sync>(
    rt: &R,
    engine: &mut Engine,
    workers: usize,
) -> bool {
    for _window in 0..EVENTS + 1 {
        if let Some(refused) = is_window_refused(rt, engine, workers) {
            return refused;
        }
    }
    assert!(rt; false, "a window for each event at most");
    false
}

/// An engine that has failed answers so, and puts nothing.
pub(crate) fn stays_failed<R: Threads + Wait + Abort + Sync>(
    rt: &R,
    engine: &mut Engine,
    workers: usize,
) {
    let again = window(rt, engine, workers, &Gate::for_all(), u64::MAX);
    assert!(rt; again == Err(EngineFault::Failed));
    let mut room = [0u8; 8];
    let mut sink = OverWrite::new(room.as_mut_slice());
    let ended = run_to(rt, engine, workers, &Gate::for_all(), u64::MAX, &mut sink);
    assert!(rt; ended == Err(EngineFault::Failed));
    assert_eq!(rt; room, [0; 8]);
}

/// Whether a window of the run was refused, which then fails the engine.
fn fails<R: Threads + Wait + Abort + Sync>(
    rt: &R,
    alloc: Global,
    scenario: &Scenario,
    workers: usize,
) -> bool {
    let mut engine = engine_of(rt, alloc, scenario);
    let refused = is_refused(rt, &mut engine, workers);
    if refused {
        stays_failed(rt, &mut engine, workers);
    }
    drop(engine);
    refused
}

#[test]
fn a_refused_window_fails_the_engine(rt: HostRuntime) {
    let alloc = rt.alloc();
    let scenario = scenario(&rt, alloc);
    for workers in [1, 2] {
        if fails(&rt, alloc, &scenario, workers) {
            let again = fails(&rt, alloc, &scenario, workers);
            assert!(rt; !again);
        }
    }
    drop(scenario);
}

/// How many bytes the first lines of a text have, so many.
fn size_of_lines(text: &[u8], lines: u64) -> usize {
    let mut left = lines;
    for (at, byte) in text.iter().enumerate() {
        if left == 0 {
            return at;
        }
        if *byte == b'\n' {
            left -= 1;
        }
    }
    text.len()
}

/// So many events are those of the run's first windows.
fn expect_edge<R: Threads + Wait + Abort + Sync>(
    rt: &R,
    alloc: Global,
    scenario: &Scenario,
    position: u64,
) {
    let mut engine = engine_of(rt, alloc, scenario);
    for _window in 0..EVENTS {
        if engine.position() < position {
            let reported = window(rt, &mut engine, 1, &Gate::for_all(), u64::MAX);
            assert!(rt; reported.is_ok());
        }
    }
    assert_eq!(rt; engine.position(), position);
    drop(engine);
}

/// Runs the whole by so many workers into a room. How it ended, and how many events are committed.
fn run_whole<R: Threads + Wait + Abort + Sync>(
    rt: &R,
    alloc: Global,
    scenario: &Scenario,
    workers: usize,
    room: &mut [u8],
) -> (Result<Stop, EngineFault>, u64) {
    let mut engine = engine_of(rt, alloc, scenario);
    let mut sink = OverWrite::new(room);
    let ended = run_to(
        rt,
        &mut engine,
        workers,
        &Gate::for_all(),
        u64::MAX,
        &mut sink,
    );
    let position = engine.position();
    assert!(rt; engine.failed() == ended.is_err());
    drop(engine);
    (ended, position)
}

/// The lines of so many events are in a room, and no other byte.
fn expect_lines(rt: &impl Abort, room: &[u8], position: u64) {
    let trace = DELAYED_TRACE.as_bytes();
    let size = size_of_lines(trace, position);
    assert!(rt; room.get(..size) == trace.get(..size));
    assert!(rt; room.get(size) == Some(&0));
}

/// Runs the whole by so many workers: the lines of what is committed are put out, and no other byte.
/// Whether it was refused, which is at a window's edge.
fn stops_at_an_edge<R: Threads + Wait + Abort + Sync>(
    rt: &R,
    alloc: Global,
    scenario: &Scenario,
    workers: usize,
) -> bool {
    let mut room = [0u8; 1_000];
    let (ended, position) = run_whole(rt, alloc, scenario, workers, room.as_mut_slice());
    expect_lines(rt, room.as_slice(), position);
    match ended {
        Ok(stop) => {
            assert!(rt; stop == Stop::End && position == EVENTS);
            false
        }
        Err(fault) => {
            assert!(rt; fault == EngineFault::NoMemory);
            expect_edge(rt, alloc, scenario, position);
            true
        }
    }
}

#[test]
fn a_refused_text_commits_nothing_of_its_window(rt: HostRuntime) {
    let alloc = rt.alloc();
    let scenario = scenario(&rt, alloc);
    for workers in [1, 2] {
        if stops_at_an_edge(&rt, alloc, &scenario, workers) {
            let again = stops_at_an_edge(&rt, alloc, &scenario, workers);
            assert!(rt; !again);
        }
    }
    drop(scenario);
}

/// What a debugger is told.
#[derive(Clone, Copy)]
enum Move {
    Step(u64),
    Back(u64),
    Run,
    Until(u64),
}

/// Moves, and the positions that they come to, with a breakpoint on segments: lines 3 and 5.
const MOVES: [(Move, u64); 6] = [
    (Move::Run, 3),
    (Move::Step(2), 5),
    (Move::Back(4), 1),
    (Move::Until(3_000_000), 4),
    (Move::Run, 5),
    (Move::Run, 7),
];

/// A debugger by so many workers, unless it is refused.
fn new_debugger(
    rt: &impl Abort,
    alloc: Global,
    scenario: &Scenario,
    workers: usize,
) -> Option<Debugger> {
    let partition = Partition::each(2);
    assert!(rt; partition.nodes() == scenario.parts().nodes.len());
    assert!(rt; workers > 0 && workers <= 64);
    Debugger::new(alloc, scenario, partition, workers).ok()
}

/// A debugger by so many workers.
fn debugger_of(rt: &impl Abort, alloc: Global, scenario: &Scenario, workers: usize) -> Debugger {
    match new_debugger(rt, alloc, scenario, workers) {
        Some(debugger) => debugger,
        None => new_debugger(rt, alloc, scenario, workers).expect(rt, "one request is refused"),
    }
}

/// Stops at segments from now on.
fn stops_at_segments(rt: &impl Abort, debugger: &mut Debugger) {
    let segments = Break::of(Condition::Kind(EventKind::Data));
    if debugger.add_break(segments).is_err() {
        let again = debugger.add_break(segments);
        assert!(rt; matches!(again, Ok(1)));
    }
}

/// The dump of the state that is shown.
fn dump(rt: &impl Abort, alloc: Global, debugger: &Debugger) -> Vec<u8> {
    let mut text = Vec::new(alloc);
    if debugger.state_text(&mut text).is_err() {
        assert!(rt; text.is_empty());
        debugger
            .state_text(&mut text)
            .expect(rt, "one request is refused");
    }
    text
}

/// Does what a debugger is told.
fn moved<R: Threads + Wait + Sync>(
    rt: &R,
    debugger: &mut Debugger,
    reported: Move,
) -> Result<u64, MoveFault> {
    match reported {
        Move::Step(count) => debugger.step(count),
        Move::Back(count) => debugger.back(count),
        Move::Run => debugger.run(&Several { rt }, &Gate::for_all()),
        Move::Until(time) => debugger.until(&Several { rt }, &Gate::for_all(), time),
    }
}

/// Does it. Where it is refused, the dump is the one before, and it is done when it is told once
/// more.
fn moves<R: Threads + Wait + Abort + Sync>(
    rt: &R,
    alloc: Global,
    debugger: &mut Debugger,
    reported: Move,
) -> u64 {
    let before = dump(rt, alloc, debugger);
    match moved(rt, debugger, reported) {
        Ok(position) => position,
        Err(fault) => {
            assert!(rt; fault == MoveFault::NoMemory);
            let after = dump(rt, alloc, debugger);
            assert!(rt; after.as_slice() == before.as_slice());
            moved(rt, debugger, reported)
                .ok()
                .expect(rt, "one request is refused")
        }
    }
}

/// Does all moves by so many workers.
fn moves_all<R: Threads + Wait + Abort + Sync>(
    rt: &R,
    alloc: Global,
    scenario: &Scenario,
    workers: usize,
) {
    let mut debugger = debugger_of(rt, alloc, scenario, workers);
    stops_at_segments(rt, &mut debugger);
    for (reported, position) in MOVES {
        let come = moves(rt, alloc, &mut debugger, reported);
        assert_eq!(rt; come, position);
    }
    drop(debugger);
}

#[test]
fn a_refused_move_changes_nothing(rt: HostRuntime) {
    let alloc = rt.alloc();
    let scenario = scenario(&rt, alloc);
    for workers in [1, 2] {
        moves_all(&rt, alloc, &scenario, workers);
    }
    drop(scenario);
}
