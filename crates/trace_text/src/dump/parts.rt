//! What stands in the lines of a dump.
ghost use Rattle.std.specs.Prelude.{Some};
ghost use Rattle.node_core.specs.declared.event.Event.TheVariants.{Arrive};
ghost use Rattle.trace_text.specs.Words.{spaced_words};
ghost use Rattle.trace_text.specs.Line.{kind_name, event_words};
ghost use Rattle.trace_text.specs.Dump.{flag, or_dash, timing_text, kind_letter, waiting_text};

use node_core::Event;
use packet_chain::{Kind, Packet};
use reno_sender::Timing;
use sim_time::Time;
use std::{fmt, str};

/// Bytes that are text, as names and words are.
#[derive(Clone, Copy)]
pub struct ByteText<'a>(pub &'a [u8]);

impl fmt::Display for ByteText<'_> {
    ghost output = { λ text. Some text.0.now };

    fn fmt<W: fmt::Write>(&self, f: &mut fmt::Formatter<W>) -> fmt::Result {
        match str::from_utf8(self.0) {
            Ok(text) => f.write_str(text),
            Err(_) => Err(fmt::Error),
        }
    }
}

/// A number, a dash where there is none.
#[derive(Clone, Copy)]
pub(super) struct OrDash(pub(super) Option<u64>);

impl fmt::Display for OrDash {
    ghost output = { λ number. Some (or_dash number.0) };

    fn fmt<W: fmt::Write>(&self, f: &mut fmt::Formatter<W>) -> fmt::Result {
        match self.0 {
            None => f.write_str("-"),
            Some(n) => write!(f, "{n}"),
        }
    }
}

/// 1 where it holds, 0 where it does not.
#[derive(Clone, Copy)]
pub(super) struct Flag(pub(super) bool);

impl fmt::Display for Flag {
    ghost output = { λ holds. Some (flag holds.0) };

    fn fmt<W: fmt::Write>(&self, f: &mut fmt::Formatter<W>) -> fmt::Result {
        f.write_str(if self.0 { "1" } else { "0" })
    }
}

/// Which segment is timed.
#[derive(Clone, Copy)]
pub(super) struct Timed(pub(super) Option<Timing>);

impl fmt::Display for Timed {
    ghost output = { λ timed. Some (timing_text timed.0) };

    fn fmt<W: fmt::Write>(&self, f: &mut fmt::Formatter<W>) -> fmt::Result {
        match self.0 {
            None => f.write_str("-"),
            Some(Timing { number, sent_at }) => write!(f, "{number}@{sent_at}"),
        }
    }
}

/// What a packet carries, by a letter.
#[derive(Clone, Copy)]
struct Letter(Kind);

impl fmt::Display for Letter {
    ghost output = { λ kind. Some (kind_letter kind.0) };

    fn fmt<W: fmt::Write>(&self, f: &mut fmt::Formatter<W>) -> fmt::Result {
        f.write_str(match self.0 {
            Kind::Data => "d",
            Kind::Ack => "a",
        })
    }
}

/// A packet that waits.
#[derive(Clone, Copy)]
pub(super) struct Waiting {
    /// The packet.
    pub(super) packet: Packet,
    /// When it entered the queue, in nanoseconds.
    pub(super) entered: Time,
}

impl fmt::Display for Waiting {
    ghost output = { λ waiting. Some (waiting_text (waiting.packet, waiting.entered)) };

    fn fmt<W: fmt::Write>(&self, f: &mut fmt::Formatter<W>) -> fmt::Result {
        let packet = self.packet;
        let kind = Letter(packet.kind);
        write!(
            f,
            "{}:{kind}:{}@{}",
            packet.flow, packet.number, self.entered
        )
    }
}

/// What a packet carries.
#[derive(Clone, Copy)]
struct Carried(Kind);

impl fmt::Display for Carried {
    ghost output = { λ kind. Some (kind_name kind.0) };

    fn fmt<W: fmt::Write>(&self, f: &mut fmt::Formatter<W>) -> fmt::Result {
        f.write_str(match self.0 {
            Kind::Data => "data",
            Kind::Ack => "ack",
        })
    }
}

/// Which packet arrives.
#[derive(Clone, Copy)]
struct Arrival(Packet);

impl fmt::Display for Arrival {
    ghost output = { λ arrival. Some (spaced_words (event_words (Arrive arrival.0))) };

    fn fmt<W: fmt::Write>(&self, f: &mut fmt::Formatter<W>) -> fmt::Result {
        let kind = Carried(self.0.kind);
        write!(f, " {kind} {} {}", self.0.flow, self.0.number)
    }
}

/// What is due.
#[derive(Clone, Copy)]
pub(super) struct Due(pub(super) Event);

impl fmt::Display for Due {
    ghost output = { λ due. Some (spaced_words (event_words due.0)) };

    fn fmt<W: fmt::Write>(&self, f: &mut fmt::Formatter<W>) -> fmt::Result {
        match self.0 {
            Event::Start(flow) => write!(f, " start {flow}"),
            Event::Rto(flow) => write!(f, " rto {flow}"),
            Event::DelAck(flow) => write!(f, " delack {flow}"),
            Event::Free(link) => write!(f, " free {link}"),
            Event::Arrive(packet) => Arrival(packet).fmt(f),
        }
    }
}
