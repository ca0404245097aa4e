//! All that is pending at a node.
ghost use Rattle.std.specs.Prelude.{◌≡◌, IfOk};
ghost use Rattle.std.specs.FinMap as map;

use crate::event::Event;
use crate::event_queue::EventQueue;
use sim_time::Key;
use std::alloc::{AllocError, Global};

/// What is pending, in the order of keys: what leaves a copy one after another.
pub(crate) fn in_order(
    alloc: Global,
    event_queue: &EventQueue,
) -> Result<Vec<(Key, Event)>, AllocError>
    ensures { IfOk result (λ all. all.items ≡ map.entries event_queue.now.pending) }
{
    let mut rest = event_queue.copy()?;
    let mut all: Vec<(Key, Event)> = Vec::new(alloc);
    while let Some((key, event)) = rest.least() {
        let _cell = rest.take(key);
        all.push((key, event))?;
    }
    Ok(all)
}
