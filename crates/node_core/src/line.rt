//! What a line of the trace shows.
ghost use Rattle.std.specs.Prelude.{◌≡◌};
ghost use Rattle.node_core.specs.TraceLine.{shown, blank};

use crate::event::Event;
use crate::shown::SenderShown;
use port::Acts;
use sim_time::Key;
use std::alloc::Global;

/// The state of the event's node after the event.
#[derive(Drop)]
pub enum After {
    /// The sender.
    AtSender(SenderShown),
    /// The next byte that the receiver waits for.
    AtReceiver(u64),
    /// A router keeps nothing that is shown.
    AtRouter,
}

/// What one event was and did.
#[derive(Drop)]
pub struct Line {
    /// When and where it was due.
    pub key: Key,
    /// What it was.
    pub event: Event,
    /// The node's state after it.
    pub after: After,
    /// What it did to packets, in the order done.
    pub acts: Acts,
}

impl Line {
    /// A line to be filled: it shows nothing done.
    pub fn new(alloc: Global) -> Line
        ensures { shown result ≡ blank }
    {
        let key = Key {
            time: 0,
            node: 0,
            source: 0,
            number: 0,
        };
        Line {
            key,
            event: Event::Start(0),
            after: After::AtRouter,
            acts: Acts::new(alloc),
        }
    }
}

// Windows keep thousands of lines, so that their bytes are what windows cost.
const _: () = prove!(size_of::<Line>() == 160);
