//! The threads of a pool.
use crate::pool::ThreadPool;
use std::sync::Wait;
use std::thread;
use std::thread::Threads;

/// Carries out what comes to a worker, until it may go.
fn attend<T: Drop, F: Fn(T), R: Wait>(rt: &R, carry_out: &F, pool: &ThreadPool<T>, worker: usize)
    requires { F.IsAlwaysCallable carry_out.now }
{
    for _ in rt.forever() {
        let Some(job) = pool.receive(rt, worker) else {
            return;
        };
        carry_out(job);
        pool.carried_out(rt);
    }
}

/// Starts a thread for each worker of a pool but the first, is that one itself, and ends once all have gone. Each carries
/// out its jobs by the same function. Where a thread can't be started its jobs stay in its mailbox.
pub fn run_workers<T: Drop + Send, F: Fn(T) + Sync, R: Threads + Wait + Sync>(
    rt: &R,
    carry_out: &F,
    pool: &ThreadPool<T>,
)
    requires { F.IsAlwaysCallable carry_out.now }
{
    thread::scope(
        thread::scope_env(),
        rt,
        |scope| -> ()
            requires { F.IsAlwaysCallable carry_out.now }
        {
            let mut started = Vec::new(pool.allocator());
            for worker in 1..pool.workers() {
                let spawned = scope.spawn(
                    move || -> ()
                        requires { F.IsAlwaysCallable carry_out.now }
                    { attend(rt, carry_out, pool, worker) },
                );
                if let Ok(handle) = spawned {
                    // Where there is no memory for it the scope waits for the thread.
                    let _ = started.push(handle);
                }
            }
            attend(rt, carry_out, pool, 0);
            for handle in started {
                handle.join(rt);
            }
        },
    );
}
