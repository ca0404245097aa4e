//! What is done at a node's links once an event is decided, and what that changes of its event queue.
ghost use Rattle.std.specs.Prelude.{◌≡◌, ◌+◌, ◌^◌, ◌<◌, ◌≤◌, ◌++◌, ℕ, IsSome, None, Some, length, option_to_list, slice_index_or, if◌then◌else◌, false};
ghost use Rattle.std.specs.Option.{option_map};
ghost use Rattle.packet_chain.specs.declared.packet.Packet.{Packet};
ghost use Rattle.port.specs.Port.{offered_all, taken};
ghost use Rattle.node_core.specs.declared.timer.Timer.TheVariants.{Free};
ghost use Rattle.node_core.specs.Timers.{timer_number};
ghost use Rattle.node_core.specs.CarriedOut.{IsNextEvent, HasPassed};
ghost use Rattle.node_core.specs.Decided.{CanPass, CanSend, CanTake, arriving, sent_by_end};
ghost use Rattle.node_core.specs.Links.{packets_of};
ghost use Rattle.node_core.specs.Part.{link_at};
ghost use Rattle.node_core.specs.Passing.{after_take, moved_to};
ghost use Rattle.node_core.specs.TraceLine.{IsSameEvent};

use crate::decision::Sending;
use crate::event_queue::EventQueue;
use crate::free_list::FreeList;
use crate::line::Line;
use crate::link::Link;
use crate::outbox::Outbox;
use crate::timer::Timer;
use packet_chain::{Packet, PacketCell};
use sim_time::Time;

// The index of a link, where a packet has left over it, so that it is busy.
fn left_over(index: u16, next_free: Option<Time>) -> Option<u16>
    ensures { result ≡ option_map (λ (time : ℕ). index) next_free }
{
    match next_free {
        Some(_) => Some(index),
        None => None,
    }
}

// Packets were offered to the link of an index: its timer is set where it was idle before. The index,
// where a packet has left.
fn follow(
    event_queue: &mut EventQueue,
    index: u16,
    was_busy: bool,
    next_free: Option<Time>,
) -> Option<u16>
    requires { timer_number (Free index) < length event_queue.old.timers }
    ensures event_queue { event_queue.new ≡ (if was_busy then event_queue.old else moved_to event_queue.old (timer_number (Free index)) next_free) }
    ensures left { result ≡ (if was_busy then None else option_map (λ (time : ℕ). index) next_free) }
{
    if was_busy {
        return None;
    }
    event_queue.set_timer(Timer::Free(index), next_free);
    left_over(index, next_free)
}

/// The packet that arrives is offered to the link of an index, in its cell.
#[inline(always)]
pub(crate) fn pass_on(
    index: u16,
    links: &mut Vec<Link>,
    event_queue: &mut EventQueue,
    line: &mut Line,
    out: &mut Outbox,
) -> Option<u16>
    requires next { IsNextEvent line.old.key line.old.event links.old.items event_queue.old out.old }
    requires can { CanPass line.old.event links.old.items line.old.acts.room index }
    ensures passed { HasPassed index (offered_all line.old.key.time (link_at links.old.items index).port (arriving line.old.event)) links.old.items links.new.items (after_take event_queue.old line.old.key) event_queue.new out.old out.new line.old.acts.acts line.new.acts.acts result }
    ensures same_event { IsSameEvent line.old.key line.new.key line.old.event line.new.event }
{
    let cell = event_queue.take(line.key).unwrap();
    let place = index as usize;
    let link = &mut links[place];
    let was_busy = link.is_busy();
    let chain = out.chain(place);
    link.send(cell, line.key.time, &mut line.acts, chain);
    follow(event_queue, index, was_busy, link.port().next_free())
}

/// The link of an index, whose timer the event is, takes the next packet from its queue.
#[inline(always)]
pub(crate) fn take_next(
    index: u16,
    links: &mut Vec<Link>,
    event_queue: &mut EventQueue,
    line: &mut Line,
    out: &mut Outbox,
) -> Option<u16>
    requires next { IsNextEvent line.old.key line.old.event links.old.items event_queue.old out.old }
    requires can { CanTake line.old.key line.old.event links.old.items line.old.acts.room index }
    ensures passed { HasPassed index (taken line.old.key.time (link_at links.old.items index).port) links.old.items links.new.items (after_take event_queue.old line.old.key) event_queue.new out.old out.new line.old.acts.acts line.new.acts.acts result }
    ensures same_event { IsSameEvent line.old.key line.new.key line.old.event line.new.event }
{
    let place = index as usize;
    let link = &mut links[place];
    let chain = out.chain(place);
    link.free(line.key.time, &mut line.acts, chain);
    let next_free = link.port().next_free();
    event_queue.reset(line.key, Timer::Free(index), next_free);
    left_over(index, next_free)
}

// The last packet of an end, if it has no cell, in that of the packet that has arrived. A cell that is not needed
// is kept.
#[inline(always)]
fn in_cell(
    last: Option<Packet>,
    arrived: Option<PacketCell>,
    free_list: &mut FreeList,
) -> Option<PacketCell>
    requires { (packet : Packet) → last ≡ Some packet → IsSome arrived }
    ensures { option_map (λ cell. cell.0) result ≡ last }
{
    let Some(packet) = last else {
        free_list.keep(arrived);
        return None;
    };
    let mut cell = arrived.unwrap();
    cell.set_packet(packet);
    Some(cell)
}

/// The packets of a flow's end are offered to its link, and its timer moves.
#[inline(always)]
pub(crate) fn send(
    sending: Sending,
    links: &mut Vec<Link>,
    event_queue: &mut EventQueue,
    line: &mut Line,
    out: &mut Outbox,
) -> Option<u16>
    requires next { IsNextEvent line.old.key line.old.event links.old.items event_queue.old out.old }
    requires can { CanSend line.old.event links.old.items line.old.acts.room sending }
    ensures passed { HasPassed 0 (offered_all line.old.key.time (link_at links.old.items 0).port (sent_by_end sending)) links.old.items links.new.items (moved_to (after_take event_queue.old line.old.key) (timer_number sending.timer) sending.time) event_queue.new out.old out.new line.old.acts.acts line.new.acts.acts result }
    ensures same_event { IsSameEvent line.old.key line.new.key line.old.event line.new.event }
{
    let Sending {
        cells,
        last,
        timer,
        time,
    } = sending;
    let arrived = event_queue.take(line.key);
    event_queue.set_timer(timer, time);
    let last = in_cell(last, arrived, &mut out.free_list);
    let link = &mut links[0];
    let was_busy = link.is_busy();
    let chain = out.chain(0);
    link.offer_behind(cells, last, line.key.time, &mut line.acts, chain);
    follow(event_queue, 0, was_busy, link.port().next_free())
}
