//! The words that say what an event did to packets.
ghost use Rattle.std.specs.Prelude.{◌≡◌, ◌+◌, ◌≤◌, ◌++◌, map, take, codes, length, vec_len, OnOk, OnErr};
ghost use Rattle.aqm.specs.DropReasons.{reason_word};
ghost use Rattle.trace_text.specs.Words.{spaced_words};
ghost use Rattle.trace_text.specs.Line.{act_word, packet_name};

use crate::forward::{write_field, write_named, write_text};
use aqm::drop_reason::LONGEST_WORD;
use node_core::{Act, DropReason};
use packet_chain::Packet;
use std::alloc::AllocError;

/// No less than the greatest length of an act's words, with the space before them, and what may be written behind.
const ROOM: usize = 40;

/// Appends acts in their order. Where memory is refused, some may have been appended.
pub(crate) fn append_acts(acts: &[Act], out: &mut Vec<u8>) -> Result<(), AllocError>
    ensures ok { OnOk result (out.new.items ≡ out.old.items ++ spaced_words (map act_word acts.now)) }
    ensures err { OnErr result (take (vec_len out.old) out.new.items ≡ out.old.items) }
{
    for act in acts {
        append_act(act, out)?;
    }
    Ok(())
}

/// Appends an act after a space, or nothing.
fn append_act(act: &Act, out: &mut Vec<u8>) -> Result<(), AllocError>
    ensures ok { OnOk result (out.new.items ≡ out.old.items ++ (codes " " ++ act_word act.now)) }
    ensures err { OnErr result (out.new.items ≡ out.old.items) }
{
    let mut bytes = [0; ROOM];
    let end = write_act(&mut bytes, 0, act);
    out.extend_from_slice(&bytes[..end])
}

/// Writes one act or none, after a space.
#[inline(always)]
pub(crate) fn write_acts(bytes: &mut [u8], at: usize, acts: &[Act]) -> usize
    requires few { length acts.now ≤ 1 }
    requires room { at + ROOM ≤ length bytes.old }
    ensures written { take result bytes.new ≡ take at bytes.old ++ spaced_words (map act_word acts.now) }
    ensures above { at ≤ result }
    ensures short { result ≤ at + 38 }
{
    match acts.first() {
        Some(act) => write_act(bytes, at, act),
        None => at,
    }
}

/// Writes an act.
#[inline(always)]
fn write_act(bytes: &mut [u8], at: usize, act: &Act) -> usize
    requires room { at + ROOM ≤ length bytes.old }
    ensures written { take result bytes.new ≡ take at bytes.old ++ (codes " " ++ act_word act.now) }
    ensures above { at ≤ result }
    ensures short { result ≤ at + 38 }
{
    match act {
        Act::Tx(link, packet) => {
            let at = write_named(bytes, at, b" tx=", *link);
            write_packet(bytes, at, packet)
        }
        Act::Dropped(_, reason, packet) => {
            let at = write_drop(bytes, at, *reason);
            write_packet(bytes, at, packet)
        }
    }
}

/// Writes the flow and the number of a packet, each after a colon.
#[inline(always)]
fn write_packet(bytes: &mut [u8], at: usize, packet: &Packet) -> usize
    requires room { at + 28 ≤ length bytes.old }
    ensures written { take result bytes.new ≡ take at bytes.old ++ packet_name packet.now }
    ensures above { at ≤ result }
    ensures short { result ≤ at + 27 }
{
    let at = write_named(bytes, at, b":", packet.flow);
    write_field(bytes, at, b":", packet.number)
}

/// Writes that a packet was dropped, and why.
#[inline(always)]
fn write_drop(bytes: &mut [u8], at: usize, reason: DropReason) -> usize
    requires room { at + 6 + LONGEST_WORD ≤ length bytes.old }
    ensures written { take result bytes.new ≡ take at bytes.old ++ (codes " drop=" ++ reason_word reason) }
    ensures above { at ≤ result }
    ensures short { result ≤ at + 6 + LONGEST_WORD }
{
    let at = write_text(bytes, at, b" drop=");
    write_word(bytes, at, reason.word())
}

/// Writes the word of a reason.
fn write_word(bytes: &mut [u8], at: usize, word: &[u8]) -> usize
    requires room { at + length word.now ≤ length bytes.old }
    ensures written { take result bytes.new ≡ take at bytes.old ++ word.now }
    ensures end { result ≡ at + length word.now }
{
    let end = at + word.len();
    bytes[at..end].copy_from_slice(word);
    end
}
