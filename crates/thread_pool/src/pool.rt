//! Mailboxes for workers, and how many jobs are left to be carried out.
ghost use Rattle.std.specs.Prelude.{◌≡◌, ◌≤◌, Some, None, IfOk, IfSome};

use crate::mailbox::Mailbox;
use crate::monitor::Monitor;
use std::alloc::{AllocError, Global};
use std::marker::Model;
use std::sync::Wait;

/// Mailboxes for workers, and how many jobs are left to be carried out.
#[derive(Drop)]
pub struct ThreadPool<T> {
    /// A mailbox for each worker.
    mailboxes: Vec<Mailbox<T>>,
    /// How many jobs are given and not carried out yet.
    open: Monitor<usize>,
}

impl<T> Model for ThreadPool<T> {
    ghost use Rattle.std.specs.Prelude.{ℕ, length};

    ghost Value = { ℕ };

    ghost view = { λ p. length p.mailboxes.items };
}

impl<T: Drop> ThreadPool<T> {
    /// A pool for so many workers, none of which is there yet. Who waits looks so often before it sleeps.
    pub fn new(alloc: Global, workers: usize, looks: u32) -> Result<ThreadPool<T>, AllocError>
        ensures { IfOk result (λ p. p ≡ workers) }
    {
        let mut mailboxes = Vec::new(alloc);
        for _ in 0..workers {
            mailboxes.push(Mailbox::new(looks))?;
        }
        Ok(ThreadPool {
            mailboxes,
            open: Monitor::new(0, looks),
        })
    }

    /// Where memory is taken.
    pub fn allocator(&self) -> Global {
        *self.mailboxes.allocator()
    }

    /// For how many workers it is.
    pub fn workers(&self) -> usize
        ensures { result ≡ self.now }
    {
        self.mailboxes.len()
    }

    /// Gives a worker a job. Where there is no such worker, it has one that it has not begun, or no more are to come, the
    /// job is the answer.
    pub fn give<R: Wait>(&self, rt: &R, worker: usize, job: T) -> Option<T>
        ensures back { IfSome result (λ j. j ≡ job) }
        ensures none { self.now ≤ worker → result ≡ Some job }
    {
        let Some(mailbox) = self.mailboxes.get(worker) else {
            return Some(job);
        };
        // Before the worker can carry it out.
        self.count(rt);
        let refused = mailbox.put(rt, job);
        if refused.is_some() {
            self.carried_out(rt);
        }
        refused
    }

    /// Takes a worker's job back, where it has not begun it.
    pub fn take_back<R: Wait>(&self, rt: &R, worker: usize) -> Option<T> {
        let job = self.mailboxes.get(worker)?.take_back(rt);
        if job.is_some() {
            self.carried_out(rt);
        }
        job
    }

    /// Waits for a worker's next job; none once no more will come, or where there is no such worker.
    pub(crate) fn receive<R: Wait>(&self, rt: &R, worker: usize) -> Option<T> {
        self.mailboxes.get(worker)?.receive(rt)
    }

    /// Counts a job that is given.
    fn count<R: Wait>(&self, rt: &R) {
        let mut open = self.open.lock(rt);
        *open = open.saturating_add(1);
    }

    /// Counts a job that was carried out, or taken back.
    pub(crate) fn carried_out<R: Wait>(&self, rt: &R) {
        let mut open = self.open.lock(rt);
        *open = open.saturating_sub(1);
        if *open == 0 {
            self.open.tell(open);
        }
    }

    /// Waits until no job is left to be carried out.
    pub fn rest<R: Wait>(&self, rt: &R) {
        let mut open = self.open.lock(rt);
        for _ in rt.forever() {
            if *open == 0 {
                return;
            }
            open = self.open.wait(rt, open);
        }
    }

    /// Has all workers go once they have carried out what lies in their mailboxes.
    pub fn end<R: Wait>(&self, rt: &R) {
        for mailbox in &self.mailboxes {
            mailbox.close(rt);
        }
    }
}
