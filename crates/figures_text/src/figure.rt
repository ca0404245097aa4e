//! What a line of the table tells.
ghost use Rattle.std.specs.Prelude.{◌≡◌, ◌++◌, codes, OnOk};
ghost use Rattle.figures_text.specs.Table.{figure_name, figure_unit, figure_text};

use aqm::DropReason;
use std::alloc::AllocError;

/// What a line of the table tells.
#[derive(Clone, Copy)]
pub enum Figure {
    /// When a flow starts, in nanoseconds.
    Start,
    /// The bytes that its receiver has in order.
    Delivered,
    /// When all its bytes were acknowledged.
    Completed,
    /// The segments that it sent, new or again.
    SentSegments,
    /// Those sent again in recovery (RFC 5681 section 3.2).
    AgainInRecovery,
    /// Those sent again otherwise.
    AgainOtherwise,
    /// How often its retransmission timer ended (RFC 6298 section 5).
    Timeouts,
    /// Its congestion window at the end of a step.
    Cwnd,
    /// The bytes in flight then.
    InFlight,
    /// How many round trips were timed (RFC 6298 section 3).
    RoundTrips,
    /// The least of them.
    LeastTrip,
    /// Their median.
    MedianTrip,
    /// Their 95th percentile.
    HighTrip,
    /// Their 99th percentile.
    HighestTrip,
    /// The greatest of them.
    GreatestTrip,
    /// The packets that were offered to a link.
    Offered,
    /// Those that were dropped for a reason.
    Dropped(DropReason),
    /// Those that began to be sent.
    SentPackets,
    /// The bytes of these.
    SentBytes,
    /// How long it was busy.
    Busy,
    /// The most packets that waited at once.
    GreatestQueue,
    /// The packets that waited, times for how long.
    Waited,
    /// The median of the packets' delays in its queue.
    MedianDelay,
    /// Their 95th percentile.
    HighDelay,
    /// Their 99th percentile.
    HighestDelay,
    /// The greatest of them.
    GreatestDelay,
    /// How many events a run had.
    Events,
    /// When the last of them was.
    End,
}

/// Its name.
fn figure_name(figure: Figure) -> &'static [u8]
    ensures { result.now ≡ figure_name figure }
{
    match figure {
        Figure::Start => b"start",
        Figure::Delivered => b"delivered",
        Figure::Completed => b"completed",
        Figure::SentSegments => b"sent",
        Figure::AgainInRecovery => b"sent again by fast retransmit",
        Figure::AgainOtherwise => b"sent again by timeout",
        Figure::Timeouts => b"timeouts",
        Figure::Cwnd => b"cwnd",
        Figure::InFlight => b"in flight",
        Figure::RoundTrips => b"round trips",
        Figure::LeastTrip => b"least round trip",
        Figure::MedianTrip => b"median round trip",
        Figure::HighTrip => b"95th percentile of round trips",
        Figure::HighestTrip => b"99th percentile of round trips",
        Figure::GreatestTrip => b"greatest round trip",
        Figure::Offered => b"offered",
        Figure::Dropped(reason) => reason.count_name(),
        Figure::SentPackets => b"sent packets",
        Figure::SentBytes => b"sent bytes",
        Figure::Busy => b"busy",
        Figure::GreatestQueue => b"greatest queue",
        Figure::Waited => b"waited",
        Figure::MedianDelay => b"median delay in the queue",
        Figure::HighDelay => b"95th percentile of delay in the queue",
        Figure::HighestDelay => b"99th percentile of delay in the queue",
        Figure::GreatestDelay => b"greatest delay in the queue",
        Figure::Events => b"events",
        Figure::End => b"end",
    }
}

/// Its unit, between commas.
fn unit_text(figure: Figure) -> &'static [u8]
    ensures { result.now ≡ codes "," ++ figure_unit figure ++ codes "," }
{
    match figure {
        Figure::Start => b",ns,",
        Figure::Delivered => b",bytes,",
        Figure::Completed => b",ns,",
        Figure::SentSegments => b",segments,",
        Figure::AgainInRecovery => b",segments,",
        Figure::AgainOtherwise => b",segments,",
        Figure::Timeouts => b",times,",
        Figure::Cwnd => b",bytes,",
        Figure::InFlight => b",bytes,",
        Figure::RoundTrips => b",times,",
        Figure::LeastTrip => b",ns,",
        Figure::MedianTrip => b",ns,",
        Figure::HighTrip => b",ns,",
        Figure::HighestTrip => b",ns,",
        Figure::GreatestTrip => b",ns,",
        Figure::Offered => b",packets,",
        Figure::Dropped(_) => b",packets,",
        Figure::SentPackets => b",packets,",
        Figure::SentBytes => b",bytes,",
        Figure::Busy => b",ns,",
        Figure::GreatestQueue => b",packets,",
        Figure::Waited => b",packet-ns,",
        Figure::MedianDelay => b",ns,",
        Figure::HighDelay => b",ns,",
        Figure::HighestDelay => b",ns,",
        Figure::GreatestDelay => b",ns,",
        Figure::Events => b",events,",
        Figure::End => b",ns,",
    }
}

/// Appends its name and its unit, between commas. After an `Err` a part of them may stand there.
pub(crate) fn append_figure(figure: Figure, text: &mut Vec<u8>) -> Result<(), AllocError>
    ensures { OnOk result (text.new.items ≡ text.old.items ++ figure_text figure) }
{
    text.extend_from_slice(b",")?;
    text.extend_from_slice(figure_name(figure))?;
    text.extend_from_slice(unit_text(figure))
}
