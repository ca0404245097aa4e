//! The words that say in which state an event left its node.
ghost use Rattle.std.specs.Prelude.{◌≡◌, ◌+◌, ◌≤◌, ◌++◌, codes, length, take};
ghost use Rattle.trace_text.specs.Words.{spaced_words};
ghost use Rattle.trace_text.specs.Line.{after_words, phase_name};

use crate::forward::{write_field, write_text};
use node_core::{After, SenderShown};

/// Writes a node's state.
#[inline(always)]
pub(crate) fn write_after(bytes: &mut [u8], at: usize, after: &After) -> usize
    requires room { at + 116 ≤ length bytes.old }
    ensures written { take result bytes.new ≡ take at bytes.old ++ spaced_words (after_words after.now) }
    ensures above { at ≤ result }
    ensures short { result ≤ at + 115 }
{
    match after {
        After::AtSender(shown) => write_sender(bytes, at, shown),
        After::AtReceiver(next) => write_field(bytes, at, b" next=", *next),
        After::AtRouter => at,
    }
}

/// Writes the state of a sender.
#[inline(always)]
fn write_sender(bytes: &mut [u8], at: usize, shown: &SenderShown) -> usize
    requires room { at + 116 ≤ length bytes.old }
    ensures written { take result bytes.new
        ≡ take at bytes.old ++ spaced_words (after_words (After.AtSender shown.now)) }
    ensures above { at ≤ result }
    ensures short { result ≤ at + 115 }
{
    let at = write_field(bytes, at, b" una=", shown.una());
    let at = write_field(bytes, at, b" nxt=", shown.nxt());
    let at = write_field(bytes, at, b" cwnd=", shown.cwnd());
    let at = write_field(bytes, at, b" ssthresh=", shown.ssthresh());
    write_text(bytes, at, phase(shown))
}

/// The phase of congestion control: fast recovery, slow start or congestion avoidance
/// (RFC 5681 section 3.1).
#[inline(always)]
fn phase(shown: &SenderShown) -> &'static [u8; 9]
    ensures { result.now ≡ codes " phase=" ++ phase_name shown.now }
{
    if shown.recovers() {
        b" phase=fr"
    } else if shown.cwnd() < shown.ssthresh() {
        b" phase=ss"
    } else {
        b" phase=ca"
    }
}
