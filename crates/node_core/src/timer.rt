//! The timers of a node.
ghost use Rattle.std.specs.Prelude.{◌≡◌, ◌<◌};
ghost use Rattle.node_core.specs.Timers.{timer_number};

/// The number of the timer of a node's first outgoing link: those before it are the node's own.
pub(crate) const FIRST_FREE: usize = 3;

/// A timer of a node: it is set at one moment at most.
#[derive(Clone, Copy)]
pub enum Timer {
    /// The node's flow starts.
    Start,
    /// The retransmission timer ends.
    Retransmission,
    /// A delayed acknowledgement is due.
    DelayedAcknowledgement,
    /// The outgoing link of this index, counted from 0 in rising number, becomes free.
    Free(u16),
}

impl Timer {
    /// The timer's number in the key of its event.
    #[inline(always)]
    pub fn number(self) -> u64
        ensures { result ≡ timer_number self }
    {
        match self {
            Timer::Start => 0,
            Timer::Retransmission => 1,
            Timer::DelayedAcknowledgement => 2,
            Timer::Free(index) => FIRST_FREE as u64 + u64::from(index),
        }
    }
}
