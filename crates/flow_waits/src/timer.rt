//! The timers of a flow.
ghost use Rattle.std.specs.Prelude.{◌≡◌};
ghost use Rattle.flow_waits.specs.FlowStatus.{own_timer, first_timer};

use node_core::Event;
use sim_time::{Key, Time};

/// A timer of a flow.
#[derive(Clone, Copy)]
pub(crate) enum FlowTimer {
    /// The flow starts.
    Starts,
    /// Its sender's retransmission timer ends (RFC 6298 section 5).
    Retransmission,
    /// Its receiver has delayed an acknowledgement as long as it may (RFC 5681 section 4.2).
    DelayedAcknowledgement,
}

/// A timer of a flow with its moment.
#[derive(Clone, Copy)]
pub(crate) struct DueTimer {
    /// When it is due, in nanoseconds.
    pub time: Time,
    /// Which it is.
    pub timer: FlowTimer,
}

/// The timer of a flow that is due first.
pub(crate) fn first_timer(flow: u16, pending: &[(Key, Event)]) -> Option<DueTimer>
    ensures { result ≡ first_timer flow pending.now }
{
    for (key, event) in pending {
        if let Some(timer) = own_timer(flow, event) {
            let time = key.time;
            return Some(DueTimer { time, timer });
        }
    }
    None
}

/// Which of a flow's timers an event is, if it is one.
pub(crate) fn own_timer(flow: u16, event: &Event) -> Option<FlowTimer>
    ensures { result ≡ own_timer flow event.now }
{
    match event {
        Event::Start(own) if *own == flow => Some(FlowTimer::Starts),
        Event::Rto(own) if *own == flow => Some(FlowTimer::Retransmission),
        Event::DelAck(own) if *own == flow => Some(FlowTimer::DelayedAcknowledgement),
        _ => None,
    }
}
