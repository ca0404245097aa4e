//! Tests of what no clause of the pool says: that each job is carried out once, that each worker is there, and that nobody
//! waits for ever. A clock beside each test ends it where nothing more happens, and says what did not. Who waits looks
//! once before it sleeps, so that it sleeps nearly each time.

use crate::{ThreadPool, run_workers};
use std::hint::spin_loop;
use std::process::Abort;
use std::sync::atomic::AtomicU64;
use std::sync::atomic::Ordering::SeqCst;
use std::sync::{Condvar, Mutex, Wait};
use std::thread::{Threads, join, yield_now};
use std::time::{Clock, Duration};

/// A job with a number. As in the program it is longer than a line of the cache, so that a mailbox's lock and its count of
/// notifications lie in different ones.
#[derive(Clone, Copy, Debug, PartialEq, Eq, Drop)]
struct CountedJob {
    /// Its number.
    number: u64,
    /// What makes it long.
    rest: [u64; 31],
}

/// A job of this number.
fn numbered(number: u64) -> CountedJob {
    CountedJob {
        number,
        rest: [0; 31],
    }
}

/// Adds up the numbers of the jobs that it is given.
#[derive(Drop)]
struct Sum {
    /// How many there were.
    jobs: AtomicU64,
    /// What they are together.
    sum: AtomicU64,
}

impl Sum {
    /// There were none.
    fn new() -> Sum {
        Sum {
            jobs: AtomicU64::new(0),
            sum: AtomicU64::new(0),
        }
    }

    /// Looks for a while, until there were so many.
    fn look(&self, jobs: u64) {
        for _ in 0..2_000 {
            if self.jobs.load(SeqCst) == jobs {
                return;
            }
            spin_loop();
        }
    }

    /// Counts a job.
    fn carry_out(&self, job: CountedJob) {
        self.sum.fetch_add(job.number, SeqCst);
        self.jobs.fetch_add(1, SeqCst);
    }

    /// How many there were, and what they are together.
    fn found(&self) -> (u64, u64) {
        (self.jobs.load(SeqCst), self.sum.load(SeqCst))
    }
}

/// How long nothing may happen, in seconds, before the test has failed.
const PATIENCE: u64 = 10;

/// What a test waits for, and a clock that sees that it happens.
#[derive(Drop)]
struct Watched {
    /// What is to happen; nothing once the test is over.
    awaited: Mutex<Option<&'static str>>,
    /// Tells that the test is over.
    over: Condvar,
    /// How often something happened.
    steps: AtomicU64,
}

impl Watched {
    /// A test begins.
    fn new() -> Watched {
        Watched {
            awaited: Mutex::new(Some("the test begins")),
            over: Condvar::new(),
            steps: AtomicU64::new(0),
        }
    }

    /// Something happened.
    fn step(&self) {
        self.steps.fetch_add(1, SeqCst);
    }

    /// This is to happen next.
    fn awaits<R: Wait>(&self, rt: &R, what: &'static str) {
        *self.awaited.lock(rt) = Some(what);
        self.step();
    }

    /// The test is over.
    fn end<R: Wait>(&self, rt: &R) {
        *self.awaited.lock(rt) = None;
        self.over.notify_all();
    }

    /// Fails the test where nothing happens for too long.
    fn watch<R: Wait + Clock + Abort>(&self, rt: &R) {
        let mut seen = u64::MAX;
        for _ in rt.forever() {
            let awaited = self.awaited.lock(rt);
            let patience = Duration::from_secs(PATIENCE);
            let (awaited, _) = self
                .over
                .wait_timeout_while(rt, awaited, patience, |what| what.is_some());
            let Some(what) = *awaited else {
                return;
            };
            let steps = self.steps.load(SeqCst);
            assert!(rt; steps != seen, "{what}: not within {PATIENCE} s");
            seen = steps;
        }
    }
}

// A pool for so many workers.
fn pool_of(rt: &(impl Abort + AllocGlobal), workers: usize) -> ThreadPool<CountedJob> {
    ThreadPool::new(rt.alloc(), workers, 1).expect(rt, "a pool")
}

// Gives a worker a job, which it takes.
fn give<R: Wait + Abort>(rt: &R, pool: &ThreadPool<CountedJob>, worker: usize, number: u64) {
    assert!(rt;
        pool.give(rt, worker, numbered(number)).is_none(),
        "a worker takes a job"
    );
}

// Has all workers of a pool go.
fn end<R: Wait>(rt: &R, pool: &ThreadPool<CountedJob>, watched: &Watched) {
    watched.awaits(rt, "each worker goes once the pool is ended");
    pool.end(rt);
}

// Gives each worker so many jobs, and waits for each of them; none is taken back. Each has been carried out then, once. The
// next one is given a little later each time, so that it meets the worker at each of its steps to sleep.
fn give_all<R: Wait + Abort>(
    rt: &R,
    pool: &ThreadPool<CountedJob>,
    sum: &Sum,
    watched: &Watched,
    rounds: u64,
) {
    let mut given = (0u64, 0u64);
    watched.awaits(rt, "each job is carried out, and the pool rests");
    for round in 0..rounds {
        for worker in 0..pool.workers() {
            give(rt, pool, worker, round);
            given = (given.0.saturating_add(1), given.1.saturating_add(round));
        }
        sum.look(given.0);
        pool.rest(rt);
        assert!(rt;
            sum.found() == given,
            "each job is carried out once, before the pool rests"
        );
        watched.step();
        for _ in 0..round % 64 {
            spin_loop();
        }
    }
    end(rt, pool, watched);
}

// The same while so many workers wait for jobs. All go then.
fn expect_carried_out<R: Threads + Wait + Abort + AllocGlobal + Sync>(
    rt: &R,
    watched: &Watched,
    workers: usize,
    rounds: u64,
) {
    let pool = pool_of(rt, workers);
    let sum = Sum::new();
    join(
        rt,
        || run_workers(rt, &|job| sum.carry_out(job), &pool),
        || give_all(rt, &pool, &sum, watched, rounds),
    );
    drop(pool);
}

#[test]
fn each_job_is_carried_out_once(rt: HostRuntime) {
    let watched = Watched::new();
    join(
        &rt,
        || watched.watch(&rt),
        || {
            expect_carried_out(&rt, &watched, 1, 300_000);
            expect_carried_out(&rt, &watched, 2, 50_000);
            expect_carried_out(&rt, &watched, 3, 30_000);
            watched.end(&rt);
        },
    );
}

// So many ends of pools that have nothing to do.
fn expect_gone<R: Threads + Wait + Abort + AllocGlobal + Sync>(
    rt: &R,
    watched: &Watched,
    ends: u64,
) {
    for _ in 0..ends {
        expect_carried_out(rt, watched, 1, 0);
        expect_carried_out(rt, watched, 2, 0);
    }
    watched.end(rt);
}

#[test]
fn workers_go(rt: HostRuntime) {
    let watched = Watched::new();
    join(
        &rt,
        || watched.watch(&rt),
        || expect_gone(&rt, &watched, 5_000),
    );
}

// Waits until there were so many jobs.
fn wait_for<R: Wait>(rt: &R, sum: &Sum, jobs: u64) {
    for _ in rt.forever() {
        if sum.found().0 >= jobs {
            return;
        }
        yield_now();
    }
}

// A job that waits until four are begun, and then takes a while.
fn meet<R: Wait>(rt: &R, begun: &Sum, done: &Sum, job: CountedJob) {
    begun.carry_out(job);
    wait_for(rt, begun, 4);
    for _ in 0..10_000 {
        yield_now();
    }
    done.carry_out(job);
}

// Gives four workers such jobs: each has a thread, and takes its job from its own mailbox. The pool does not rest before all
// are carried out.
fn give_four<R: Wait + Abort>(
    rt: &R,
    pool: &ThreadPool<CountedJob>,
    begun: &Sum,
    done: &Sum,
    watched: &Watched,
) {
    watched.awaits(rt, "each of four workers begins its job");
    for worker in 0..4 {
        give(rt, pool, worker, 1);
    }
    wait_for(rt, begun, 4);
    for worker in 0..4 {
        assert!(rt;
            pool.take_back(rt, worker).is_none(),
            "a job that is begun stays"
        );
    }
    watched.awaits(rt, "the pool rests");
    pool.rest(rt);
    assert!(rt;
        done.found().0 == 4,
        "jobs under way are carried out before the pool rests"
    );
    end(rt, pool, watched);
}

// The same while four workers wait for jobs.
fn expect_at_once<R: Threads + Wait + Abort + AllocGlobal + Sync>(rt: &R, watched: &Watched) {
    let pool = pool_of(rt, 4);
    let (begun, done) = (Sum::new(), Sum::new());
    join(
        rt,
        || run_workers(rt, &|job| meet(rt, &begun, &done, job), &pool),
        || give_four(rt, &pool, &begun, &done, watched),
    );
    drop(pool);
    watched.end(rt);
}

#[test]
fn workers_are_at_work_at_once_and_waited_for(rt: HostRuntime) {
    let watched = Watched::new();
    join(&rt, || watched.watch(&rt), || expect_at_once(&rt, &watched));
}

// Gives two workers jobs, and takes back those that they have not begun.
fn take_some_back<R: Wait + Abort>(
    rt: &R,
    pool: &ThreadPool<CountedJob>,
    back: &Sum,
    watched: &Watched,
) {
    watched.awaits(
        rt,
        "each job is carried out or taken back, and the pool rests",
    );
    for number in 0..100_000 {
        for worker in 0..2 {
            give(rt, pool, worker, number);
        }
        for worker in 0..2 {
            if let Some(job) = pool.take_back(rt, worker) {
                back.carry_out(job);
            }
        }
        pool.rest(rt);
        watched.step();
    }
    end(rt, pool, watched);
}

// Each job is carried out or taken back, and not both.
fn expect_taken_back<R: Threads + Wait + Abort + AllocGlobal + Sync>(rt: &R, watched: &Watched) {
    let pool = pool_of(rt, 2);
    let (sum, back) = (Sum::new(), Sum::new());
    join(
        rt,
        || run_workers(rt, &|job| sum.carry_out(job), &pool),
        || take_some_back(rt, &pool, &back, watched),
    );
    drop(pool);
    let (done, kept) = (sum.found(), back.found());
    let jobs = done.0.saturating_add(kept.0);
    let numbers = done.1.saturating_add(kept.1);
    assert!(rt;
        (jobs, numbers) == (200_000, 9_999_900_000),
        "each job is carried out or taken back, once"
    );
    watched.end(rt);
}

#[test]
fn what_is_taken_back_is_not_carried_out(rt: HostRuntime) {
    let watched = Watched::new();
    join(
        &rt,
        || watched.watch(&rt),
        || expect_taken_back(&rt, &watched),
    );
}

// What is given and taken back while no worker is there.
fn expect_answers<R: Wait + Abort + AllocGlobal>(rt: &R, watched: &Watched) {
    let pool = pool_of(rt, 2);
    watched.awaits(rt, "each call returns");
    assert!(rt;
        pool.give(rt, 2, numbered(5)) == Some(numbered(5)),
        "there is no such worker"
    );
    give(rt, &pool, 1, 6);
    assert!(rt;
        pool.give(rt, 1, numbered(7)) == Some(numbered(7)),
        "a job lies there"
    );
    assert!(rt; pool.take_back(rt, 0).is_none(), "no job lies there");
    assert!(rt;
        pool.take_back(rt, 1) == Some(numbered(6)),
        "a job that is not begun is taken back"
    );
    assert!(rt; pool.take_back(rt, 1).is_none(), "a job is taken back once");
    watched.awaits(rt, "the pool rests, where no job is left to be carried out");
    pool.rest(rt);
    pool.end(rt);
    assert!(rt;
        pool.give(rt, 0, numbered(8)) == Some(numbered(8)),
        "no more jobs are to come"
    );
    drop(pool);
    watched.end(rt);
}

#[test]
fn a_job_that_cannot_be_given_is_the_answer(rt: HostRuntime) {
    let watched = Watched::new();
    join(&rt, || watched.watch(&rt), || expect_answers(&rt, &watched));
}

// A worker whose pool was ended before it began.
fn expect_carried_out_at_the_end<R: Threads + Wait + Abort + AllocGlobal + Sync>(
    rt: &R,
    watched: &Watched,
) {
    let (pool, sum) = (pool_of(rt, 1), Sum::new());
    give(rt, &pool, 0, 9);
    end(rt, &pool, watched);
    run_workers(rt, &|job| sum.carry_out(job), &pool);
    assert!(rt;
        sum.found() == (1, 9),
        "a worker carries out what lies in its mailbox before it goes"
    );
    watched.awaits(rt, "the pool rests");
    pool.rest(rt);
    drop(pool);
    watched.end(rt);
}

#[test]
fn what_lies_in_a_mailbox_is_carried_out_before_its_worker_goes(rt: HostRuntime) {
    let watched = Watched::new();
    join(
        &rt,
        || watched.watch(&rt),
        || expect_carried_out_at_the_end(&rt, &watched),
    );
}
