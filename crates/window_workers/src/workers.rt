//! Workers that run windows together.
ghost use Rattle.std.specs.Prelude.{◌≡◌, ◌<◌, ◌≤◌, false, true, None};
ghost use Rattle.window_core.specs.Partition.{groups_of};
ghost use Rattle.window_workers.specs.Edges.{IsAtEdge};
ghost use Rattle.window_workers.specs.Laid.{HasRunBy};

use crate::fault::WorkersFault;
use crate::gate::Gate;
use crate::job::Job;
use crate::several::Hands;
use crate::text_state::TextState;
use crate::threads::{most_hands, threads};
use crate::window_job::WindowJob;
use sim_time::Time;
use std::alloc::{AllocError, Global};
use thread_pool::ThreadPool;
use window_core::{Sheaf, Window};
use window_text::Nowhere;

/// How often a thread looks whether it was told of something before it sleeps: for some hundred microseconds, since
/// between two windows some tens pass.
const LOOKS: u32 = 32_768;

/// Whether threads are to share a window which so many workers are to run, and none wait for jobs.
pub fn lacks_threads(pool: Option<&ThreadPool<Job>>, hands: usize) -> bool
    ensures { result ≡ true → pool.entry ≡ None }
{
    match pool {
        Some(_) => false,
        None => hands > 1,
    }
}

/// Workers that run windows together, by whichever hands.
#[derive(Drop)]
pub struct WindowWorkers<'a> {
    /// Who is told of the work on groups.
    pub gate: &'a Gate,
    /// How many workers there are.
    pub workers: usize,
    /// How many processors threads may run on that make text.
    pub processors: usize,
    /// Where memory is taken.
    pub alloc: Global,
    ghost some: { 0 < workers },
    ghost few: { workers ≤ 64 },
}

impl<'a> WindowWorkers<'a> {
    /// How many of the workers are to run a window, up to its end or a moment that is sooner, after one
    /// that had so many events beside those of its busiest group, and then to make the text of so many lines.
    pub fn hands(&self, window: &Window, shared: usize, lines: usize, until: Time) -> usize
        ensures { (0 < result) × (result ≤ self.now.workers) }
    {
        let worth = self.gate.worth();
        let processors = if lines < worth { 0 } else { self.processors };
        threads(window, self.workers, worth, shared, processors, until)
    }

    /// How many of them are to take part in a window of one group, after one of so many lines: one runs it, and a second
    /// one makes the text of these, where that is worth a thread and there is a processor for it.
    pub fn hands_of_one(&self, lines: usize) -> usize
        ensures { (0 < result) × (result ≤ self.now.workers) }
    {
        let worth = self.gate.worth();
        if worth == 0 {
            return self.workers;
        }
        let processors = if lines < worth { 0 } else { self.processors };
        self.workers.min(most_hands(1, processors)).max(1)
    }

    /// A pool for all threads that may share windows of as many groups with the calling one. None is started.
    pub fn pool_for(&self, window: &Window) -> Result<ThreadPool<Job>, AllocError>
        requires { window.now.out ≡ false }
    {
        let most = if self.gate.worth() == 0 {
            self.workers
        } else {
            self.workers
                .min(most_hands(window.groups(), self.processors))
        };
        ThreadPool::new(self.alloc, most.saturating_sub(1), LOOKS)
    }

    /// Has so many workers run the groups up to the window's end or a moment that is sooner: the calling thread, and
    /// threads that are started for this window alone. No text is made or written.
    pub fn run_once<H: Hands>(
        &self,
        by: &H,
        hands: usize,
        until: Time,
        window: &mut Window,
    ) -> Result<bool, WorkersFault>
        requires ready { H.ready by.now }
        requires hands { (1 < hands) × (hands ≤ self.now.workers) }
        requires edge { IsAtEdge window.old }
        requires few { groups_of window.old.entries ≤ 64 }
        ensures ran { HasRunBy self.now.workers until window.old result window.new }
    {
        let Ok(pool) = ThreadPool::new(self.alloc, hands.saturating_sub(1), LOOKS) else {
            return Err(WorkersFault::NoMemory);
        };
        let job = WindowJob {
            pool: &pool,
            gate: self.gate,
            alloc: self.alloc,
            workers: hands,
            until,
        };
        let job = &job;
        by.with_threads(
            self.gate,
            &pool,
            &mut || -> Result<bool, WorkersFault>
                requires edge { IsAtEdge window.now }
                requires few { groups_of window.now.entries ≤ 64 }
                ensures ran { HasRunBy job.entry.now.workers job.entry.now.until window.entry.now result window.exit.now }
            { run_without_text(by, job, window) },
        )
    }
}

/// Has workers run a window's groups, and has no text made or written.
fn run_without_text<H: Hands>(
    by: &H,
    job: &WindowJob,
    window: &mut Window,
) -> Result<bool, WorkersFault>
    requires edge { IsAtEdge window.old }
    requires few { groups_of window.old.entries ≤ 64 }
    ensures ran { HasRunBy job.now.workers job.now.until window.old result window.new }
{
    let mut sink = Nowhere;
    let Ok(mut texts) = TextState::new(job.alloc, &sink) else {
        return Err(WorkersFault::NoMemory);
    };
    let mut sheaf = Sheaf::new(job.alloc, 1);
    texts.text.clear(&sheaf);
    by.run_shared(job, window, &mut sheaf, &mut texts, &mut sink)
}
