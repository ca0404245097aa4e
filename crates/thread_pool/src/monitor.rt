//! A value under a lock, and threads that wait until it changes. Who waits looks for a while before it sleeps, since
//! to wake a thread that sleeps takes longer than a short job.
//!
//! No wake-up is lost. Who changes the value notifies before it gives the lock back. So who has the lock finds the
//! value as the last change left it, and the count of notifications as well; and a count that is the same under the
//! lock as before means that the value is. `Condvar::wait` reads the count before it gives the lock back, and sleeps
//! only while the count is that one.
use std::hint::spin_loop;
use std::sync::{Condvar, Mutex, MutexGuard, Wait};

/// A value under a lock, with what tells of its changes.
#[derive(Drop)]
pub(crate) struct Monitor<T> {
    /// The value.
    value: Mutex<T>,
    /// Counts the changes, and wakes who sleeps.
    changed: Condvar,
    /// How often who waits looks whether the value changed before it sleeps.
    looks: u32,
}

impl<T> Monitor<T> {
    /// A value that nobody waits for. Who waits looks so often before it sleeps.
    pub(crate) fn new(value: T, looks: u32) -> Monitor<T> {
        Monitor {
            value: Mutex::new(value),
            changed: Condvar::new(),
            looks,
        }
    }

    /// Takes the lock.
    pub(crate) fn lock<R: Wait>(&self, rt: &R) -> MutexGuard<'_, T> {
        self.value.lock(rt)
    }

    /// Wakes all that wait for the value, which its holder has changed, and gives the lock back behind.
    pub(crate) fn tell(&self, held: MutexGuard<'_, T>) {
        self.changed.notify_all();
        drop(held);
    }

    /// Looks for a while, until there are more notifications than so many.
    fn look(&self, seen: u64) {
        for _ in 0..self.looks {
            if self.changed.notifications() != seen {
                return;
            }
            spin_loop();
        }
    }

    /// Gives the lock back until the value has changed, and may end sooner.
    pub(crate) fn wait<'b, R: Wait>(&self, rt: &R, held: MutexGuard<'b, T>) -> MutexGuard<'b, T> {
        let seen = self.changed.notifications();
        let lock = MutexGuard::unlock(held);
        self.look(seen);
        let held = lock.lock(rt);
        if self.changed.notifications() != seen {
            return held;
        }
        self.changed.wait(rt, held)
    }
}
