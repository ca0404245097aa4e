//! The words that say how a flow stands.
ghost use Rattle.std.specs.Prelude.{◌≡◌, ◌++◌, OnOk, Some, string_bytes};
ghost use Rattle.flow_waits.specs.FlowStatus.{plural, timer_name, wake_text, flight_text, complete_text, stalled_text, sent_text, full_text, open_text, flow_status_text};

use crate::flow_status::{FlowStatus, flight_size, total};
use crate::timer::{DueTimer, FlowTimer};
use reno_sender::Sender;
use std::alloc::AllocError;
use std::fmt;

/// The word behind a count, which is another for a count of one.
#[derive(Drop)]
struct Plural(u64, &'static str, &'static str);

impl fmt::Display for Plural {
    ghost output = { λ word. Some (plural word.0 word.1.now word.2.now) };

    fn fmt<W: fmt::Write>(&self, f: &mut fmt::Formatter<W>) -> fmt::Result {
        f.write_str(if self.0 == 1 { self.1 } else { self.2 })
    }
}

/// What wakes a flow that is stalled.
#[derive(Drop)]
struct Wake(Option<DueTimer>);

impl fmt::Display for Wake {
    ghost output = { λ wake. Some (wake_text wake.0) };

    fn fmt<W: fmt::Write>(&self, f: &mut fmt::Formatter<W>) -> fmt::Result {
        match self.0 {
            None => f.write_str("nothing goes on with it"),
            Some(due) => write!(f, "{} is due at {} ns", timer_name(due.timer), due.time),
        }
    }
}

/// How a timer is called there.
fn timer_name(timer: FlowTimer) -> &'static str
    ensures { result.now ≡ timer_name timer }
{
    match timer {
        FlowTimer::Starts => "its start",
        FlowTimer::Retransmission => "its retransmission timer",
        FlowTimer::DelayedAcknowledgement => "its delayed acknowledgement",
    }
}

/// The bytes in flight, and those of one more segment.
#[derive(Drop)]
struct Flight(u64, u64);

impl fmt::Display for Flight {
    ghost output = { λ bytes. Some (flight_text bytes.0 bytes.1) };

    fn fmt<W: fmt::Write>(&self, f: &mut fmt::Formatter<W>) -> fmt::Result {
        let bytes = Plural(self.0, "byte", "bytes");
        write!(f, "{} {bytes} in flight, a segment of {}", self.0, self.1)
    }
}

/// Writes how a flow stands; of one that is stalled also which timer is due first. After an `Err`, as with all
/// functions here, a part of the text may stand there.
pub(crate) fn write_flow_status(
    out: &mut String,
    sender: &Sender,
    timer: Option<DueTimer>,
    flow_status: FlowStatus,
) -> Result<(), AllocError>
    ensures { OnOk result (string_bytes out.new ≡ string_bytes out.old ++ flow_status_text sender.now timer flow_status) }
{
    let s = sender.as_fields();
    let flight = Flight(flight_size(sender), s.mss);
    match flow_status {
        FlowStatus::NotStarted(time) => write!(out, " is not started: it starts at {time} ns\n"),
        FlowStatus::Complete => write_complete(out, total(sender)),
        FlowStatus::Stalled => write_stalled(out, s.dups, timer),
        FlowStatus::SentAll => write_sent(out, total(sender), s.una),
        FlowStatus::SendsNoMore if s.cwnd <= s.rwnd => write_full(out, flight, "cwnd", s.cwnd),
        FlowStatus::SendsNoMore => write_full(out, flight, "rwnd", s.rwnd),
        FlowStatus::MaySend => write_open(out, flight, s.cwnd),
    }
}

/// Of a flow that is complete: its bytes.
fn write_complete(out: &mut String, total: u64) -> Result<(), AllocError>
    ensures { OnOk result (string_bytes out.new ≡ string_bytes out.old ++ complete_text total) }
{
    let are = Plural(total, "byte is", "bytes are");
    write!(out, " is complete: all {total} {are} acknowledged\n")
}

/// Of a flow that is stalled: its duplicate acknowledgements, and what wakes it.
fn write_stalled(out: &mut String, dups: u64, timer: Option<DueTimer>) -> Result<(), AllocError>
    ensures { OnOk result (string_bytes out.new ≡ string_bytes out.old ++ stalled_text dups timer) }
{
    let more = Plural(dups, "", "s");
    let wake = Wake(timer);
    write!(
        out,
        " is stalled: {dups} duplicate acknowledgement{more}, and {wake}\n"
    )
}

/// Of a flow that has sent all its bytes: these, and those of them that are acknowledged.
fn write_sent(out: &mut String, total: u64, una: u64) -> Result<(), AllocError>
    ensures { OnOk result (string_bytes out.new ≡ string_bytes out.old ++ sent_text total una) }
{
    let bytes = Plural(total, "byte", "bytes");
    let are = Plural(una, "is", "are");
    write!(
        out,
        " has sent all {total} {bytes}: {una} {are} acknowledged\n"
    )
}

/// Of a flow into whose window one more segment does not fit: the window that is the least.
fn write_full(out: &mut String, flight: Flight, window: &str, bytes: u64) -> Result<(), AllocError>
    ensures { OnOk result (string_bytes out.new ≡ string_bytes out.old ++ full_text flight.0 flight.1 window.now bytes) }
{
    write!(out, " sends no more: {flight}, {window} {bytes}\n")
}

/// Of a flow into whose window one more segment fits: the congestion window.
fn write_open(out: &mut String, flight: Flight, cwnd: u64) -> Result<(), AllocError>
    ensures { OnOk result (string_bytes out.new ≡ string_bytes out.old ++ open_text flight.0 flight.1 cwnd) }
{
    write!(
        out,
        " may send at its next acknowledgement: {flight}, cwnd {cwnd}\n"
    )
}
