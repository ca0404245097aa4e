//! What an event's acts tell of a link.
ghost use Rattle.std.specs.Prelude.{◌≡◌, ◌+◌, ◌*◌, ◌^◌, ◌≤◌, ◌<◌, ℕ, [], slice_index, if◌then◌else◌, IfSome, length, option_to_list};
ghost use Rattle.node_core.specs.TraceLine.{shown};
ghost use Rattle.figures.specs.Links.{frees as frees_is, acts_between, with_drops, tx_in, bytes_in, wait_by as wait_is, IsSentAlone};

use aqm::REASONS;
use node_core::{Act, Event, Line};
use port::Port;
use sim_time::Time;

/// What the acts at a link tell of what it sends.
#[derive(Clone, Copy)]
pub struct Reported {
    /// How many packets began to be sent.
    pub sent: u64,
    /// The bytes of the packets that began to be sent.
    pub bytes: u128,
}

/// What some acts tell of the link that they are at.
pub fn reported_by(acts: &[Act]) -> Reported
    ensures sent { result.sent ≡ tx_in acts.now }
    ensures bytes { result.bytes ≡ bytes_in acts.now }
    ensures most { result.bytes ≤ result.sent * 9040 }
{
    let mut reported = Reported { sent: 0, bytes: 0 };
    for act in acts {
        match act {
            Act::Tx(_, packet) => {
                reported.sent += 1;
                reported.bytes += u128::from(packet.bytes.get());
            }
            Act::Dropped(_, _, _) => {}
        }
    }
    reported
}

/// Counts each packet that acts tell to be dropped, by its reason.
pub fn count_drops(counts: &mut [u128; REASONS], acts: &[Act])
    requires few { (i : ℕ) → slice_index counts.old i ≤ 2 ^ 127 }
    ensures value { counts.new ≡ with_drops counts.old acts.now }
    ensures most { (i : ℕ) → slice_index counts.new i ≤ slice_index counts.old i + 2 ^ 64 }
{
    for act in acts {
        if let Act::Dropped(_, reason, _) = act {
            counts[reason.index()] += 1;
        }
    }
}

/// Whether an event is that the link of a number has sent a packet whole.
#[inline(always)]
pub fn frees(event: &Event, link: u16) -> bool
    ensures { result ≡ frees_is link event.now }
{
    match event {
        Event::Free(number) => *number == link,
        Event::Start(_) | Event::Rto(_) | Event::DelAck(_) | Event::Arrive(_) => false,
    }
}

/// Whether an event frees a link of its node, of which so many packets were offered before, or offers packets to
/// it: its acts are then all at that link.
pub fn is_at(offered: u128, port: &Port, line: &Line) -> bool
    ensures { acts_between offered port.now (shown line.now) ≡ (if result then (shown line.now).acts else []) }
{
    frees(&line.event, port.link()) || port.offered() != offered
}

/// The bytes of the packet that begins to be sent, where that is the only act.
#[inline(always)]
pub fn sent_alone(acts: &[Act]) -> Option<u64>
    ensures alone { IfSome result (λ bytes. IsSentAlone acts.now bytes) }
    ensures most { IfSome result (λ bytes. bytes ≤ 9040) }
{
    if acts.len() != 1 {
        return None;
    }
    match &acts[0] {
        Act::Tx(_, packet) => Some(u64::from(packet.bytes.get())),
        Act::Dropped(_, _, _) => None,
    }
}

/// For how long the packet has waited that an event begins to send over a link of its node, if it
/// does so, by how many are sent: where the link is freed, since it entered the queue, and else 0.
pub fn wait_by(port: &Port, line: &Line, sent: u64, entered: Time) -> Option<Time>
    requires one { sent ≤ 1 }
    ensures value { (offered : ℕ) → sent ≡ tx_in (acts_between offered port.now (shown line.now)) → result ≡ wait_is offered port.now (shown line.now) entered }
    ensures most { IfSome result (λ wait. wait ≤ line.now.key.time) }
    ensures many { length (option_to_list result) ≡ sent }
{
    if sent == 0 {
        None
    } else if frees(&line.event, port.link()) {
        Some(line.key.time.saturating_sub(entered))
    } else {
        Some(0)
    }
}
