//! Runs by several workers where a window holds few events, and where they stop. What compares the bytes of
//! runs alone is tried on the built program: dev/test_whole.py and dev/test_threads.py.

mod bounds;
mod few;
mod gates;
mod nets;
mod rooms;
mod runs;

use scenario_image::Scenario;
use std::process::Abort;
use std::sync::Wait;
use std::thread::Threads;
use window_core::Partition;
use window_engine::{Engine, EngineFault, Gate, OverWrite, Several, Sink, Stop};

// The engine of a scenario whose nodes are in these groups.
fn engine_of(rt: &(impl Abort + AllocGlobal), scenario: &Scenario, groups: &[u8]) -> Engine {
    let groups = Vec::from_slice(rt.alloc(), groups).expect(rt, "groups");
    let partition = Partition::new(groups).expect(rt, "a partition");
    assert!(rt; partition.nodes() == scenario.parts().nodes.len());
    Engine::new(rt.alloc(), scenario, partition).expect(rt, "an engine")
}

// Runs an engine by so many workers up to a moment.
pub(crate) fn run_to<S: Sink>(
    rt: &(impl Threads + Wait + Abort + Sync),
    engine: &mut Engine,
    workers: usize,
    gate: &Gate,
    until: u64,
    sink: &mut S,
) -> Result<Stop, EngineFault> {
    assert!(rt; workers > 0 && workers <= 64);
    engine.run(&Several { rt }, workers, gate, until, sink)
}

// Runs the next window by so many workers, to end by a moment. The answer is the number of its first line,
// and how many lines it has.
pub(crate) fn window(
    rt: &(impl Threads + Wait + Abort + Sync),
    engine: &mut Engine,
    workers: usize,
    gate: &Gate,
    until: u64,
) -> Result<(u64, usize), EngineFault> {
    assert!(rt; workers > 0 && workers <= 64);
    let batch = engine.window(&Several { rt }, workers, gate, until)?;
    let lines = (batch.first(), batch.len());
    drop(batch);
    Ok(lines)
}

// Runs an engine to its end, into a text.
fn whole_text(
    rt: &(impl Threads + Wait + Abort + AllocGlobal + Sync),
    engine: &mut Engine,
    workers: usize,
    gate: &Gate,
) -> Vec<u8> {
    let mut text = Vec::new(rt.alloc());
    let mut sink = OverWrite::new(&mut text);
    let stop = run_to(rt, engine, workers, gate, u64::MAX, &mut sink);
    assert!(rt; stop == Ok(Stop::End));
    text
}

// The text of a scenario's run in these groups by so many workers.
fn text_of(
    rt: &(impl Threads + Wait + Abort + AllocGlobal + Sync),
    scenario: &Scenario,
    groups: &[u8],
    workers: usize,
    gate: &Gate,
) -> Vec<u8> {
    let mut engine = engine_of(rt, scenario, groups);
    let text = whole_text(rt, &mut engine, workers, gate);
    assert!(rt; !engine.failed());
    drop(engine);
    text
}
