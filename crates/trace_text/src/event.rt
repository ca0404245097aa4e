//! The words that say when and where an event was, and what it was.
ghost use Rattle.std.specs.Prelude.{◌≡◌, ◌+◌, ◌≤◌, ◌++◌, length, take, codes, decimal};
ghost use Rattle.trace_text.specs.Words.{spaced_words};
ghost use Rattle.trace_text.specs.Line.{key_words, place_text, event_words};

use crate::forward::{write_field, write_named};
use node_core::Event;
use packet_chain::{Kind, Packet};
use sim_time::Key;

/// Writes the four numbers of a key.
pub(crate) fn write_key(bytes: &mut [u8], at: usize, key: &Key) -> usize
    requires room { at + 60 ≤ length bytes.old }
    ensures written { take result bytes.new ≡ take at bytes.old ++ spaced_words (key_words key.now) }
    ensures above { at ≤ result }
    ensures short { result ≤ at + 54 }
{
    let at = write_field(bytes, at, b" ", key.time);
    write_place(bytes, at, key)
}

/// Writes the numbers of a key behind its time.
#[inline(always)]
pub(crate) fn write_place(bytes: &mut [u8], at: usize, key: &Key) -> usize
    requires room { at + 39 ≤ length bytes.old }
    ensures written { take result bytes.new ≡ take at bytes.old ++ place_text key.now }
    ensures above { at ≤ result }
    ensures short { result ≤ at + 33 }
{
    let at = write_named(bytes, at, b" ", key.node);
    let at = write_named(bytes, at, b" ", key.source);
    write_field(bytes, at, b" ", key.number)
}

/// Writes what an event was.
#[inline(always)]
pub(crate) fn write_event(bytes: &mut [u8], at: usize, event: &Event) -> usize
    requires room { at + 34 ≤ length bytes.old }
    ensures written { take result bytes.new ≡ take at bytes.old ++ spaced_words (event_words event.now) }
    ensures above { at ≤ result }
    ensures short { result ≤ at + 32 }
{
    match event {
        Event::Start(flow) => write_named(bytes, at, b" start ", *flow),
        Event::Rto(flow) => write_named(bytes, at, b" rto ", *flow),
        Event::DelAck(flow) => write_named(bytes, at, b" delack ", *flow),
        Event::Free(link) => write_named(bytes, at, b" free ", *link),
        Event::Arrive(packet) => write_arrival(bytes, at, packet),
    }
}

/// Writes which packet arrived.
#[inline(always)]
fn write_arrival(bytes: &mut [u8], at: usize, packet: &Packet) -> usize
    requires room { at + 34 ≤ length bytes.old }
    ensures written { take result bytes.new ≡ take at bytes.old ++ spaced_words (event_words (Event.Arrive packet.now)) }
    ensures above { at ≤ result }
    ensures short { result ≤ at + 32 }
{
    let at = match packet.kind {
        Kind::Data => write_named(bytes, at, b" data ", packet.flow),
        Kind::Ack => write_named(bytes, at, b" ack ", packet.flow),
    };
    write_field(bytes, at, b" ", packet.number)
}
