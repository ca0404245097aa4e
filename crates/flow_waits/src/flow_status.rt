//! How a flow stands.
ghost use Rattle.std.specs.Prelude.{◌≡◌};
ghost use Rattle.reno_sender.specs.Fields.{total, flight_size};
ghost use Rattle.flow_waits.specs.Stalled.{is_unfinished};
ghost use Rattle.flow_waits.specs.FlowStatus.{flow_status_of};

use reno_sender::Sender;
use sim_time::Time;

/// How a flow stands.
#[derive(Clone, Copy)]
pub(crate) enum FlowStatus {
    /// It starts at this moment, in nanoseconds.
    NotStarted(Time),
    /// All its bytes are acknowledged.
    Complete,
    /// None of its packets waits or is under way.
    Stalled,
    /// All its bytes are sent, and some are not acknowledged.
    SentAll,
    /// One more segment does not fit into its window (RFC 5681 section 3.1).
    SendsNoMore,
    /// One more segment fits into its window.
    MaySend,
}

/// How a flow stands, by when it starts, where that is still to come, and by whether packets of it wait or are
/// under way.
pub(crate) fn flow_status_of(start: Option<Time>, packets: bool, sender: &Sender) -> FlowStatus
    ensures { result ≡ flow_status_of start packets sender.now }
{
    let s = sender.as_fields();
    match start {
        Some(time) => FlowStatus::NotStarted(time),
        None if !is_unfinished(sender) => FlowStatus::Complete,
        None if !packets => FlowStatus::Stalled,
        None if s.nxt == total(sender) => FlowStatus::SentAll,
        None if s.cwnd.min(s.rwnd) < flight_size(sender) + s.mss => FlowStatus::SendsNoMore,
        None => FlowStatus::MaySend,
    }
}

/// The bytes of the whole flow.
pub(crate) fn total(sender: &Sender) -> u64
    ensures { result ≡ total sender.now }
{
    let fields = sender.as_fields();
    fields.segments * fields.mss
}

/// Whether bytes are still to be acknowledged.
pub(crate) fn is_unfinished(sender: &Sender) -> bool
    ensures { result ≡ is_unfinished sender.now }
{
    sender.as_fields().una < total(sender)
}

/// The bytes that are sent and not acknowledged (RFC 5681 section 2).
pub(crate) fn flight_size(sender: &Sender) -> u64
    ensures { result ≡ flight_size sender.now }
{
    let fields = sender.as_fields();
    fields.nxt - fields.una
}
