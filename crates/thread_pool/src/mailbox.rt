//! Where a worker waits for its next job.
ghost use Rattle.std.specs.Prelude.{◌≡◌, IfSome};

use crate::monitor::Monitor;
use std::sync::Wait;

/// What lies in a mailbox.
#[derive(Drop)]
struct Post<T> {
    /// The job that its worker is to begin next.
    job: Option<T>,
    /// Whether no more will come.
    over: bool,
}

/// Where one worker waits.
#[derive(Drop)]
pub(crate) struct Mailbox<T> {
    /// What lies in it.
    post: Monitor<Post<T>>,
}

impl<T: Drop> Mailbox<T> {
    /// An empty one. Its worker looks so often for a job before it sleeps.
    pub(crate) fn new(looks: u32) -> Mailbox<T> {
        let post = Post {
            job: None,
            over: false,
        };
        Mailbox {
            post: Monitor::new(post, looks),
        }
    }

    /// Puts a job into it. Where one lies there, or no more are to come, the job is the answer.
    pub(crate) fn put<R: Wait>(&self, rt: &R, job: T) -> Option<T>
        ensures { IfSome result (λ j. j ≡ job) }
    {
        let mut post = self.post.lock(rt);
        if post.over || post.job.is_some() {
            return Some(job);
        }
        post.job = Some(job);
        self.post.tell(post);
        None
    }

    /// Takes out the job that lies in it.
    pub(crate) fn take_back<R: Wait>(&self, rt: &R) -> Option<T> {
        self.post.lock(rt).job.take()
    }

    /// Waits for a job; none once no more will come.
    pub(crate) fn receive<R: Wait>(&self, rt: &R) -> Option<T> {
        let mut post = self.post.lock(rt);
        for _ in rt.forever() {
            let job = post.job.take();
            if job.is_some() || post.over {
                return job;
            }
            post = self.post.wait(rt, post);
        }
        unreachable!()
    }

    /// Lets no more jobs in. One that lies there stays.
    pub(crate) fn close<R: Wait>(&self, rt: &R) {
        let mut post = self.post.lock(rt);
        post.over = true;
        self.post.tell(post);
    }
}
