//! How many threads run a window. Its events, their order and its lines are the same by any number.
ghost use Rattle.std.specs.Prelude.{◌<◌, ◌≤◌};

use sim_time::Time;
use window_core::Window;

/// How many threads have something to do where so many groups run: one for each, and as many more to make text, which
/// takes somewhat less time, as long as there are processors for them.
pub(crate) fn most_hands(groups: usize, processors: usize) -> usize {
    groups.max(processors.min(groups.saturating_mul(2)))
}

/// How many threads are to run the next window, which ends by a moment at the latest, out of so many workers, where a
/// thread is worth it for so many events and the window before had so many beside those of its busiest group. One of
/// them is the calling thread. There are no more than groups that have an event in the window, and those that so many
/// processors have to make text, where there is some.
pub(crate) fn threads(
    window: &Window,
    workers: usize,
    worth: usize,
    shared: usize,
    processors: usize,
    until: Time,
) -> usize
    requires workers { (0 < workers) × (workers ≤ 64) }
    ensures { (0 < result) × (result ≤ workers) }
{
    if worth == 0 || workers == 1 {
        return workers;
    }
    let paid = (shared / worth).saturating_add(1);
    if paid == 1 {
        return 1;
    }
    let busy = window.busy(window.end().min(until));
    if busy < 2 {
        return 1;
    }
    workers.min(paid).min(most_hands(busy, processors)).max(1)
}
