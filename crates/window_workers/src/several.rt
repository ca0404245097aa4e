//! Who runs a window's groups: the calling thread alone, or several workers.
ghost use Rattle.std.specs.Prelude.{◌≡◌, ◌≤◌};
ghost use Rattle.window_core.specs.Partition.{groups_of};
ghost use Rattle.window_workers.specs.Edges.{IsAtEdge};
ghost use Rattle.window_workers.specs.Laid.{HasRunBy};
ghost use Rattle.window_workers.specs.TextStates.{CanMakeText, HasMadeText};

use crate::apart::run_apart;
use crate::fault::WorkersFault;
use crate::gate::Gate;
use crate::job::Job;
use crate::sweep::keep_workers;
use crate::text_state::TextState;
use crate::window_job::WindowJob;
use std::sync::Wait;
use std::thread::{Threads, available_parallelism, join_mut};
use thread_pool::ThreadPool;
use window_core::{Sheaf, Window};
use window_text::Sink;

/// Who runs a window's groups. What is written once for any of them is proved to return where its hands are: whether a
/// method may wait is each one's own.
pub trait Hands {
    ghost use Rattle.std.specs.Prelude.{◌≡◌, ◌≤◌};
    ghost use Rattle.window_core.specs.Partition.{groups_of};
    ghost use Rattle.window_workers.specs.Edges.{IsAtEdge};
    ghost use Rattle.window_workers.specs.Laid.{HasRunBy};
    ghost use Rattle.window_workers.specs.TextStates.{CanMakeText, HasMadeText};

    // Its threads may share what it shares.
    ghost ready: { Self → Type 0 } = { λ _. Unit {0} };

    /// On how many processors its threads may run: on one where that is not known.
    fn processors(&self) -> usize;

    /// Has workers, the calling thread and threads of a pool, run the groups up to the window's end or a moment that is
    /// sooner, and then make the text of a sheaf's lines; the pending text is written meanwhile. The answer is whether
    /// they did: where there is one worker alone, the window is left as it was.
    /// After a fault the groups may be out.
    fn run_shared<S: Sink>(
        &self,
        job: &WindowJob,
        window: &mut Window,
        sheaf: &mut Sheaf,
        texts: &mut TextState<S>,
        sink: &mut S,
    ) -> Result<bool, WorkersFault>
        requires edge { IsAtEdge window.old }
        requires few { groups_of window.old.entries ≤ 64 }
        requires texts { CanMakeText S.contents S.failures sheaf.old texts.old sink.old }
        ensures ran { HasRunBy job.now.workers job.now.until window.old result window.new }
        ensures sheaf { sheaf.new ≡ sheaf.old }
        ensures texts { HasMadeText S.contents S.failures sheaf.old texts.old texts.new sink.new };

    /// Works while a pool's threads wait for jobs, which go then.
    fn with_threads<A, F: FnMut() -> A>(
        &self,
        gate: &Gate,
        pool: &ThreadPool<Job>,
        work: &mut F,
    ) -> A
        requires ready { ready self.now }
        requires work { F.pre work.old }
        ensures { F.step work.old result work.new };
}

/// The calling thread alone. It starts no thread and waits for none.
#[derive(Clone, Copy, Drop)]
pub struct Alone;

impl Hands for Alone {
    fn processors(&self) -> usize {
        1
    }

    fn run_shared<S: Sink>(
        &self,
        _job: &WindowJob,
        _window: &mut Window,
        _sheaf: &mut Sheaf,
        _texts: &mut TextState<S>,
        _sink: &mut S,
    ) -> Result<bool, WorkersFault> {
        Ok(false)
    }

    fn with_threads<A, F: FnMut() -> A>(
        &self,
        _gate: &Gate,
        _pool: &ThreadPool<Job>,
        work: &mut F,
    ) -> A {
        work()
    }
}

/// Several workers, for which it may wait: the calling thread, and threads that carry out its jobs.
#[derive(Drop)]
pub struct Several<'a, R: Threads + Wait + Sync> {
    /// What starts threads.
    pub rt: &'a R,
}

impl<'a, R: Threads + Wait + Sync> Hands for Several<'a, R> {
    ghost use denote.Param.Send.{IsSync};

    ghost ready = { λ _. IsSync R.row };

    fn processors(&self) -> usize {
        match available_parallelism(self.rt) {
            Ok(count) => count.get(),
            Err(_) => 1,
        }
    }

    fn run_shared<S: Sink>(
        &self,
        job: &WindowJob,
        window: &mut Window,
        sheaf: &mut Sheaf,
        texts: &mut TextState<S>,
        sink: &mut S,
    ) -> Result<bool, WorkersFault> {
        let _began = window.position();
        window.limit(job.until);
        let _limited = window.position();
        run_apart(self.rt, job, window, sheaf, texts, sink)?;
        Ok(true)
    }

    fn with_threads<A, F: FnMut() -> A>(
        &self,
        gate: &Gate,
        pool: &ThreadPool<Job>,
        work: &mut F,
    ) -> A {
        work_with_threads(self.rt, gate, pool, work)
    }
}

/// Works while a pool's threads wait for jobs, which go then.
fn work_with_threads<R: Threads + Wait + Sync, A, F: FnMut() -> A>(
    rt: &R,
    gate: &Gate,
    pool: &ThreadPool<Job>,
    work: &mut F,
) -> A
    requires { F.pre work.old }
    ensures { F.step work.old result work.new }
{
    let (_, done) = join_mut(
        rt,
        &mut || keep_workers(rt, gate, pool),
        &mut || -> A
            requires { F.pre work.now }
            ensures { F.step work.entry.now result work.exit.now }
        {
            let done = work();
            pool.end(rt);
            done
        },
    );
    done
}
