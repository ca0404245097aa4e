//! What a queue shows of what it keeps beside the packets.
ghost use Rattle.std.specs.Prelude.{◌≡◌, ◌≤◌, length};
ghost use Rattle.aqm.specs.Readouts.{readouts_of, read_of, readout_word};

use crate::queue::Queue;

/// A number that a queue may keep beside the packets.
#[derive(Clone, Copy)]
pub enum Readout {
    /// From when on a packet above target may be dropped, in nanoseconds.
    FirstAbove,
    /// When the next packet is due to be dropped, in nanoseconds.
    DropNext,
    /// The count by which it decides what to drop.
    Count,
    /// The count with which a drop state began.
    Lastcount,
    /// 1 in drop state, else 0.
    Dropping,
}

impl Readout {
    /// Its word in a dump.
    pub fn word(self) -> &'static [u8]
        ensures { result.now ≡ readout_word self }
    {
        match self {
            Readout::FirstAbove => b"first",
            Readout::DropNext => b"next",
            Readout::Count => b"count",
            Readout::Lastcount => b"last",
            Readout::Dropping => b"drop",
        }
    }
}

impl Queue {
    /// What it shows, in the order of a dump.
    pub fn readouts(&self) -> &'static [Readout]
        ensures { result.now ≡ readouts_of self.now }
    {
        match self {
            Queue::DropTail(_) => &[],
            Queue::Codel(codel) => codel.readouts(),
        }
    }

    /// The number of a readout, if the queue keeps one.
    pub fn read(&self, readout: Readout) -> Option<u64>
        ensures { result ≡ read_of self.now readout }
    {
        match self {
            Queue::DropTail(_) => None,
            Queue::Codel(codel) => codel.read(readout),
        }
    }
}
