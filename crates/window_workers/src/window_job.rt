//! A window that several workers are to run.
ghost use Rattle.std.specs.Prelude.{◌<◌, ◌≤◌};

use crate::gate::Gate;
use crate::job::Job;
use sim_time::Time;
use std::alloc::Global;
use thread_pool::ThreadPool;

/// A window that several workers are to run: the calling thread, and threads of a pool.
#[derive(Drop)]
pub struct WindowJob<'a> {
    /// The threads.
    pub pool: &'a ThreadPool<Job>,
    /// Who is told of the work on groups.
    pub gate: &'a Gate,
    /// Where memory is taken.
    pub alloc: Global,
    /// How many workers there are.
    pub workers: usize,
    /// Up to which moment they run it where it does not end sooner, in nanoseconds.
    pub until: Time,
    ghost several: { 1 < workers },
    ghost few: { workers ≤ 64 },
}
