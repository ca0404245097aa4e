//! How many packets wait at a link, and when those entered its queue that it sends next.
ghost use Rattle.std.specs.Prelude.{◌≡◌, ◌-◌, ℕ, false, IfSome};
ghost use Rattle.sim_time.specs.Moment.{IsMoment};
ghost use Rattle.packet_chain.specs.Stamped.{Stamped};
ghost use Rattle.aqm.specs.Queue.{may_drop, taken_from};
ghost use Rattle.figures.specs.Links.{waiting_at as waiting_is, IsNextEntry};

use aqm::Queue;
use port::Port;
use sim_time::{LATEST_END, Time};

/// How many packets wait at a link, whose queue has room for 65,535 at most.
#[inline(always)]
pub fn waiting_at(port: &Port) -> u16
    ensures { result ≡ waiting_is port.now }
{
    port.queue().len() as u16
}

// When the packet entered a queue that it gives at a moment, or a moment after which it has waited for as long; 0 where
// it gives none.
fn entry_by_wait(queue: &Queue, now: Time) -> Time
    requires { IsMoment now }
    ensures { IfSome (taken_from queue.now now).given (λ (cell : Stamped). now - result ≡ now - cell.1) }
{
    match queue.wait_at(now) {
        Some(wait) => now - wait,
        None => 0,
    }
}

// When the packet entered the queue that a busy link is given once it is free, whose queue may drop others before;
// 0 where it is given none.
fn entry_behind_drops(port: &Port) -> Time
    ensures { IsNextEntry port.now result }
{
    match port.next_free() {
        Some(free) if free <= LATEST_END => entry_by_wait(port.queue(), free),
        _ => 0,
    }
}

// The same, noted.
#[inline(never)]
fn note_behind_drops(entry: &mut Time, port: &Port)
    ensures { IsNextEntry port.now entry.new }
{
    *entry = entry_behind_drops(port);
}

// When the packet at the head of a queue entered it; 0 where none waits.
#[inline(always)]
fn entry_at_head(queue: &Queue) -> Time
    ensures { (now : ℕ) → may_drop queue.now ≡ false → IfSome (taken_from queue.now now).given (λ (cell : Stamped). result ≡ cell.1) }
{
    match queue.packets().next() {
        Some((_, entered)) => entered,
        None => 0,
    }
}

/// Notes when the packet entered the queue that a busy link is given once it is free, if it is given one and the queue
/// stays as it is; else any moment. Called last, it keeps nothing on the stack.
#[inline(always)]
pub fn note_entry(entry: &mut Time, port: &Port)
    ensures { IsNextEntry port.now entry.new }
{
    let queue = port.queue();
    if queue.may_drop() {
        note_behind_drops(entry, port);
    } else {
        *entry = entry_at_head(queue);
    }
}

/// When that is.
pub fn next_entry(port: &Port) -> Time
    ensures { IsNextEntry port.now result }
{
    let mut entry = 0;
    note_entry(&mut entry, port);
    entry
}
