//! What is pending at a node: its timers and what comes over its links, ranked by when they are due.
ghost use Rattle.std.specs.Prelude.{◌≡◌, ◌≢◌, ◌<◌, EachIndex, IfOk, Option, Some, None, length, map as each, replicate, slice_index, vec_len};
ghost use Rattle.std.specs.Option.{option_map};
ghost use Rattle.std.specs.FinMap as map;
ghost use Rattle.sim_time.specs.declared.key.Key.{Key};
ghost use Rattle.tournament.specs.Keyed.{least, next_key};
ghost use Rattle.tournament.specs.Timed.{time_of};
ghost use Rattle.node_core.specs.Timers.{timer_number, numbered_key};
ghost use Rattle.node_core.specs.EventQueueState.{timer_event, cleared, CanArrive, HasCome, CanComeIn, fresh_wire, fresh_event_queue, IsTimer, IsDue};
ghost use Rattle.node_core.specs.Passing.{after_take, moved_to};
ghost use Rattle.packet_chain.specs.declared.packet.Packet.{Packet};
ghost use Rattle.node_core.specs.declared.event.Event.{Event};
ghost use Rattle.node_core.specs.declared.event.Event.TheVariants.{Arrive};

use crate::event::Event;
use crate::timer::{FIRST_FREE, Timer};
use crate::wire::Wire;
use packet_chain::{PacketCell, PacketChain};
use sim_time::{Key, Time};
use std::alloc::{AllocError, Global};
use std::marker::Model;
use tournament::Timetable;

/// What is pending at a node.
#[derive(Drop)]
pub struct EventQueue {
    /// The node's number.
    node: u16,
    /// The number of the node's flow; 0 at a router.
    flow: u16,
    /// The numbers of the node's outgoing links.
    exits: Vec<u16>,
    /// When each timer is due, in nanoseconds, where it is set, by its number.
    timers: Vec<Option<Time>>,
    /// The incoming links.
    wires: Vec<Wire>,
    /// When each timer is due, and behind them when the first packet of each incoming link arrives.
    /// Slots that are due at one time stand in the order of their keys.
    timetable: Timetable,
    /// What copies take their memory from.
    alloc: Global,
}

impl Model for EventQueue {
    ghost use Rattle.node_core.specs.EventQueueState.{EventQueueState};

    ghost Value = { EventQueueState };

    ghost use Rattle.node_core.specs.Codes.{event_queue_code};

    ghost coded = { event_queue_code };

    ghost use Rattle.node_core.specs.EventQueueOf.{event_queue_of, IsEventQueueInside};

    ghost view = { event_queue_of };

    ghost invariant = { IsEventQueueInside };
}

// The key of a timer of a node that is set for this time.
#[inline(always)]
fn timer_key(node: u16, number: usize, time: Time) -> Key
    ensures { result ≡ numbered_key node number time }
{
    Key {
        time,
        node,
        source: 0,
        number: number as u64,
    }
}

// A wire for each of these links, which end at a node.
fn wires_of(alloc: Global, node: u16, links: &[u16]) -> Result<Vec<Wire>, AllocError>
    requires { EachIndex links.now (λ j. slice_index links.now j < 65535) }
    ensures { IfOk result (λ wires. wires.items ≡ each (fresh_wire node) links.now) }
{
    let mut wires = Vec::new(alloc);
    for link in links {
        wires.push(Wire::new(alloc, node, *link))?;
    }
    Ok(wires)
}

// Wires of the same packets, in cells of their own.
fn copies_of(alloc: Global, wires: &[Wire]) -> Result<Vec<Wire>, AllocError>
    ensures { IfOk result (λ copies. copies.items ≡ wires.now) }
{
    let mut copies = Vec::new(alloc);
    for wire in wires {
        copies.push(wire.copy()?)?;
    }
    Ok(copies)
}

// So many timers, none set.
fn none_set(alloc: Global, timers: usize) -> Result<Vec<Option<Time>>, AllocError>
    ensures { IfOk result (λ all. all.items ≡ replicate timers None) }
{
    let mut all: Vec<Option<Time>> = Vec::new(alloc);
    for _at in 0..timers {
        all.push(None)?;
    }
    Ok(all)
}

impl EventQueue {
    /// The event queue of a node, its flow, its outgoing links' numbers and its incoming links'. There
    /// is a timer for each outgoing link, and three others. None is set, and nothing has come.
    pub fn new(
        alloc: Global,
        node: u16,
        flow: u16,
        exits: Vec<u16>,
        links: &[u16],
    ) -> Result<EventQueue, AllocError>
        requires { CanComeIn (vec_len exits) links.now }
        ensures { IfOk result (λ event_queue. event_queue ≡ fresh_event_queue (record { node = node; flow = flow; exits = exits.items }) links.now) }
    {
        let timers = FIRST_FREE + exits.len();
        Ok(EventQueue {
            node,
            flow,
            exits,
            timers: none_set(alloc, timers)?,
            wires: wires_of(alloc, node, links)?,
            timetable: Timetable::new(alloc, timers + links.len())?,
            alloc,
        })
    }

    /// The node's number.
    pub fn node(&self) -> u16
        ensures { result ≡ self.now.owner.node }
    {
        self.node
    }

    /// What a node's packets and copies take their memory from.
    pub(crate) fn alloc(&self) -> Global {
        self.alloc
    }

    /// A copy, with packets in cells of its own.
    pub fn copy(&self) -> Result<EventQueue, AllocError>
        ensures { IfOk result (λ copy. copy ≡ self.now) }
    {
        Ok(EventQueue {
            node: self.node,
            flow: self.flow,
            exits: self.exits.clone()?,
            timers: self.timers.clone()?,
            wires: copies_of(self.alloc, &self.wires)?,
            timetable: self.timetable.copy()?,
            alloc: self.alloc,
        })
    }

    /// The least key.
    pub fn next_key(&self) -> Option<Key>
        ensures { result ≡ next_key self.now.pending }
    {
        self.least().map(|(key, _)| key)
    }

    /// The time of the least key.
    #[inline(always)]
    pub fn next_time(&self) -> Option<Time>
        ensures { result ≡ time_of (next_key self.now.pending) }
    {
        match self.timetable.first() {
            Some((_, time)) => Some(time),
            None => None,
        }
    }

    /// Sets a timer to this time, or clears it.
    #[inline(always)]
    pub fn set_timer(&mut self, timer: Timer, time: Option<Time>)
        requires { timer_number timer < length self.old.timers }
        ensures { self.new ≡ moved_to self.old (timer_number timer) time }
    {
        let which = timer.number() as usize;
        // Most receivers set no timer.
        if time.is_none() && self.timers[which].is_none() {
            return;
        }
        self.move_timer(which, time);
    }

    /// The event of a key, which is this timer's, leaves, and the timer is set to this time, or is
    /// set no more.
    #[inline(always)]
    pub fn reset(&mut self, key: Key, timer: Timer, time: Option<Time>)
        requires at_node { key.node ≡ self.old.owner.node }
        requires timer { IsTimer self.old key (timer_number timer) }
        ensures { self.new ≡ moved_to (after_take self.old key) (timer_number timer) time }
    {
        self.move_timer(timer.number() as usize, time);
    }

    // Sets the timer of a number to this time, or clears it.
    #[inline(always)]
    fn move_timer(&mut self, number: usize, time: Option<Time>)
        requires { number < length self.old.timers }
        ensures { self.new ≡ moved_to self.old number time }
    {
        self.timers[number] = time;
        self.timetable.set(number, time);
    }

    /// The event of the least key.
    pub fn least(&self) -> Option<(Key, Event)>
        ensures { result ≡ least self.now.pending }
    {
        match self.timetable.first() {
            Some((slot, time)) => {
                let timers = self.timers.len();
                if slot < timers {
                    return Some((timer_key(self.node, slot, time), self.announced(slot)));
                }
                let wire = &self.wires[slot - timers];
                wire.head()
            }
            None => None,
        }
    }

    /// Tells the least key and its event where these are kept, so that they lie nowhere else before.
    #[inline(always)]
    pub fn tell_least(&self, key: &mut Key, event: &mut Event)
        requires { next_key self.now.pending ≢ None }
        ensures value { least self.now.pending ≡ Some (key.new, event.new) }
        ensures due { IsDue self.now key.new event.new }
    {
        let (slot, time) = self.timetable.leader();
        let timers = self.timers.len();
        if slot < timers {
            *key = timer_key(self.node, slot, time);
            *event = self.announced(slot);
            return;
        }
        let wire = &self.wires[slot - timers];
        wire.tell_head(key, event);
    }

    // What a timer announces.
    fn announced(&self, number: usize) -> Event
        ensures { result ≡ timer_event self.now.owner number }
    {
        match number {
            0 => Event::Start(self.flow),
            1 => Event::Rto(self.flow),
            2 => Event::DelAck(self.flow),
            _ => Event::Free(self.exits.get(number - FIRST_FREE).copied().unwrap_or(0)),
        }
    }

    /// The event of the least key, which is this one, leaves; where it is an arrival, the packet's
    /// cell is given.
    #[inline(always)]
    pub fn take(&mut self, key: Key) -> Option<PacketCell>
        requires { next_key self.old.pending ≡ Some key }
        ensures state { self.new ≡ record self.old { timers = cleared key self.old.timers; pending = map.remove self.old.pending key } }
        ensures packet { (packet : Packet) → least self.old.pending ≡ Some (key, Arrive packet) → option_map (λ cell. cell.0) result ≡ Some packet }
    {
        let (slot, _) = self.timetable.leader();
        let timers = self.timers.len();
        if slot < timers {
            self.timers[slot] = None;
            self.timetable.set(slot, None);
            return None;
        }
        let wire = &mut self.wires[slot - timers];
        let cell = wire.pop();
        let next = wire.next_time();
        self.timetable.set(slot, next);
        cell
    }

    /// Packets come over an incoming link, after all that came over it before. It takes no memory.
    /// The answer is whether others are under way before them: then the least key stays.
    #[inline(always)]
    pub fn append_behind(&mut self, index: usize, sent: &mut PacketChain) -> bool
        requires { CanArrive self.old.pending self.old.incoming index sent.old }
        ensures { HasCome self.old self.new index sent.old sent.new result }
    {
        let wire = &mut self.wires[index];
        let waiting = wire.next_time().is_some();
        wire.append(sent);
        if waiting {
            return true;
        }
        let next = wire.next_time();
        let slot = self.timers.len() + index;
        self.timetable.set(slot, next);
        false
    }
}
