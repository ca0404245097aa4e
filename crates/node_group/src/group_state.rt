//! The state of a group of a net.
ghost use Rattle.std.specs.Prelude.{◌≡◌, ◌≢◌, ◌+◌, ◌<◌, ◌≤◌, ◌^◌, [], All, IfOk, IfErr, OnOk, OnErr, IfSome, length, map as each, take, replicate, slice_index_or, slice_set, None, true};
ghost use Rattle.std.specs.List.Sorted.{IsStrictlyIncreasing};
ghost use Rattle.std.specs.Option.{option_copied};
ghost use Rattle.sim_time.specs.declared.key.Key.{Key};
ghost use Rattle.sim_time.specs.declared.limits.TheConstants.{MOST_EVENTS};
ghost use Rattle.tournament.specs.Keyed.{EachKey};
ghost use Rattle.node_core.specs.Node.{delivered};
ghost use Rattle.node_core.specs.TraceLine.{shown};
ghost use Rattle.node_core.specs.WireState.{came_over, stamps_of};
ghost use Rattle.table_run.specs.State.{due};
ghost use Rattle.net_machine.specs.Nodes.{net_pending};
ghost use Rattle.net_machine.specs.Wiring.{place_at};
ghost use Rattle.window_law.specs.Groups.{up_to};
ghost use Rattle.window_law.specs.Windows.{first_time};
ghost use Rattle.node_group.specs.Held.{WiresAreEmpty, IsReleased};
ghost use Rattle.node_group.specs.Seats.{seated, taken_nodes, number_at};
ghost use Rattle.node_group.specs.Numbered.{seats_of, AreFound, AreRising};
ghost use Rattle.node_group.specs.Group.{GroupValue, state_of, group_from, group_to, member, came_in, IsGroup, IsOnRun, AfterFirings, Fired, IsDueBelow, IsFiring};
ghost use Rattle.node_group.specs.Faults.{IsFaultAt};

use crate::area::Area;
use crate::exits::Exits;
use crate::group::GroupFault;
use crate::nodes_by_number::{NodesByNumber, NodesByNumberParts};
use net_machine::{LinkEnds, Region, run_event};
use net_partition::Partition;
use node_core::{Line, Node, Outbox};
use packet_chain::PacketChain;
use sim_time::{MOST_EVENTS, Time};
use std::alloc::{AllocError, Global};
use std::marker::Model;
use std::snapshot::Snapshot;

/// A group's nodes, its outgoing messages, and its lines.
#[derive(Drop)]
pub struct GroupState {
    /// Which group it is.
    number: usize,
    /// The group of each node of the net.
    partition: Snapshot<Partition>,
    /// Where each link of the net leaves and ends, by its number.
    links: Vec<LinkEnds>,
    /// The nodes, and what left them for other groups since the last turn.
    area: Area,
    /// A chain for each outgoing link that a node can have, empty between events.
    out: Outbox,
    /// Lines, of which the first `count` were told since the last turn; the others are memory for
    /// the next.
    lines: Vec<Line>,
    count: usize,
    /// Events before this moment may be run, in nanoseconds. Only clauses read it.
    until: Snapshot<Time>,
    /// How many events the run had at the last turn.
    position: u64,
    /// Where memory is taken.
    alloc: Global,
}

// Sees that there is a line to be filled behind the first ones.
fn make_room(lines: &mut Vec<Line>, count: usize, alloc: Global) -> Result<(), AllocError>
    requires { count ≤ length lines.old.items }
    ensures room { OnOk result (count < length lines.new.items) }
    ensures within { count ≤ length lines.new.items }
    ensures kept { take count lines.new.items ≡ take count lines.old.items }
{
    if count == lines.len() {
        lines.push(Line::new(alloc))?;
    }
    Ok(())
}

impl Model for GroupState {
    ghost use Rattle.node_group.specs.Group.{GroupValue};
    ghost use Rattle.node_group.specs.GroupCode.{group_code};

    ghost Value = { GroupValue };

    ghost coded = { group_code };

    ghost use Rattle.node_group.specs.GroupStateOf.{group_of, IsGroupState};

    ghost view = { group_of };

    ghost invariant = { IsGroupState };
}

/// What a group state is made of, beside its number, its partition and where it stands.
#[derive(Drop)]
pub struct GroupStateParts {
    /// Where each link of the net leaves and ends, by its number.
    pub links: Vec<LinkEnds>,
    /// The group's nodes.
    pub nodes_by_number: NodesByNumberParts,
    /// A wire for each link of the net.
    pub exits: Exits,
    /// A chain for each outgoing link that a node can have, empty.
    pub out: Outbox,
}

impl GroupState {
    /// The group state of a group of these parts, with no line yet. No memory is taken.
    pub(crate) fn new(
        alloc: Global,
        number: usize,
        partition: &Partition,
        parts: GroupStateParts,
        until: Time,
        position: u64,
    ) -> GroupState
        requires group { IsGroup (record { number = number; entries = partition.now; links = parts.links.items; seats = seats_of parts.nodes_by_number.nodes.items parts.nodes_by_number.index.items; held = parts.exits; lines = []; until = until; position = position }) }
        requires found { AreFound parts.nodes_by_number.nodes.items parts.nodes_by_number.index.items }
        requires rising { AreRising parts.nodes_by_number.nodes.items }
        requires room { length parts.nodes_by_number.timetable ≡ length parts.nodes_by_number.nodes.items }
        requires empty { parts.out ≡ replicate 16 [] }
        ensures { result ≡ record { number = number; entries = partition.now; links = parts.links.items; seats = seats_of parts.nodes_by_number.nodes.items parts.nodes_by_number.index.items; held = parts.exits; lines = []; until = until; position = position } }
    {
        GroupState {
            number,
            partition: Snapshot::of(partition),
            links: parts.links,
            area: Area {
                nodes_by_number: NodesByNumber::of_parts(parts.nodes_by_number),
                exits: parts.exits,
            },
            out: parts.out,
            lines: Vec::new(alloc),
            count: 0,
            until: Snapshot::of(&until),
            position,
            alloc,
        }
    }

    /// Which group it is.
    pub fn number(&self) -> usize
        ensures number { result ≡ self.now.number }
        ensures is_group { IsGroup self.now }
    {
        self.number
    }

    /// How many lines were told since the last turn.
    pub fn reported(&self) -> usize
        ensures count { result ≡ length self.now.lines }
    {
        self.count
    }

    /// When its least event is, in nanoseconds.
    pub fn next(&self) -> Option<Time>
        ensures { result ≡ first_time (state_of self.now) }
    {
        match self.area.nodes_by_number.first() {
            Some((_, time)) => Some(time),
            None => None,
        }
    }

    /// A node of the net, where it is the group's.
    pub fn node(&self, place: usize) -> Option<&Node>
        requires { place < length self.now.seats }
        ensures { option_copied result ≡ slice_index_or self.now.seats place None }
    {
        self.area.nodes_by_number.node(place)
    }

    /// Names the moment before which events may be run.
    #[inline(always)]
    pub fn set_until(&mut self, until: Time)
        ensures { self.new ≡ record self.old { until = until } }
    {
        self.until = Snapshot::of(&until);
    }

    /// Gives the lines that were told in exchange for memory for others, and names how many events
    /// the run has then. The answer is how many were told.
    pub fn take_lines(&mut self, lines: &mut Vec<Line>, position: u64) -> usize
        requires { position ≤ MOST_EVENTS }
        ensures lines { each shown (take result lines.new.items) ≡ self.old.lines }
        ensures count { result ≡ length self.old.lines }
        ensures within { result ≤ length lines.new.items }
        ensures state { self.new ≡ record self.old { lines = []; position = position } }
    {
        let count = self.count;
        if count > 0 {
            std::mem::swap(&mut self.lines, lines);
            self.count = 0;
        }
        self.position = position;
        count
    }

    /// Whether it is known that there is no outgoing message.
    #[inline(always)]
    pub fn holds_nothing(&self) -> bool
        ensures { result ≡ true → WiresAreEmpty self.now.held }
    {
        self.area.exits.holds_nothing()
    }

    /// Has memory for lines in exchange for its own, where it has told none.
    pub fn take_memory(&mut self, lines: &mut Vec<Line>)
        ensures { self.new ≡ self.old }
    {
        if self.count == 0 {
            std::mem::swap(&mut self.lines, lines);
        }
    }

    /// Gives the outgoing messages of a link to an empty chain. The answer is the link, or none where
    /// there is no message.
    pub fn release_next(&mut self, packets: &mut PacketChain) -> Option<usize>
        requires { packets.old ≡ [] }
        ensures rest { self.new ≡ record self.old { held = self.new.held } }
        ensures some { IfSome result (λ link. IsReleased self.old.held self.new.held link packets.new) }
        ensures none { result ≡ None → WiresAreEmpty self.old.held × (self.new ≡ self.old) × (packets.new ≡ []) }
    {
        self.area.exits.release_next(packets)
    }

    /// Packets come from another group over a link that ends at a node of this one, after all that
    /// came over it before; the chain is then empty. It takes no memory.
    pub fn deliver(&mut self, link: usize, packets: &mut PacketChain)
        requires within { link < length self.old.links }
        requires from_another { group_from self.old link ≢ self.old.number }
        requires to_this { group_to self.old link ≡ self.old.number }
        requires rising { IsStrictlyIncreasing (stamps_of packets.old) }
        requires later { All (λ stamp. EachKey (λ k. k.source ≡ link + 1 → k.time < stamp) (net_pending (seated self.old.seats))) (stamps_of packets.old) }
        requires few { came_in self.old link + length packets.old ≤ 2 ^ 50 }
        ensures rest { self.new ≡ record self.old { seats = self.new.seats } }
        ensures nodes { let end = place_at self.old.links link in seated self.new.seats ≡ slice_set (seated self.old.seats) end.node (delivered (member self.old end.node) end.index packets.old) }
        ensures seats_stay { taken_nodes self.new.seats ≡ taken_nodes self.old.seats }
        ensures emptied { packets.new ≡ [] }
    {
        self.area.pass_on(&self.links, link, packets);
    }

    // Runs the event of the least key of the node at a place, the least of all, which is below a
    // moment.
    #[inline(always)]
    fn fire_at(&mut self, at: usize, _end: Time) -> Result<(), AllocError>
        requires { IsDueBelow _end self.old (number_at self.old.seats at) }
        ensures ok { OnOk result (IsFiring _end self.old self.new) }
        ensures err { OnErr result (self.new ≡ self.old) }
    {
        make_room(&mut self.lines, self.count, self.alloc)?;
        let line = &mut self.lines[self.count];
        run_event(&mut self.area, &mut self.out, &self.links, at, line)?;
        self.count += 1;
        Ok(())
    }

    /// Runs the least event below a moment, where there is one. The answer is whether there was.
    pub fn fire_below(&mut self, end: Time) -> Result<bool, GroupFault>
        requires within { end ≤ self.old.until }
        requires on_run { IsOnRun self.old }
        ensures ok { IfOk result (λ fired. Fired end self.old fired self.new) }
        ensures after { AfterFirings end self.old self.new }
        ensures on_run { IsOnRun self.new }
        ensures fits { self.new.position + length self.new.lines ≤ MOST_EVENTS }
        ensures fault { IfErr result (IsFaultAt end self.new) }
        ensures err { OnErr result (self.new ≡ self.old) }
    {
        let Some((at, time)) = self.area.nodes_by_number.first() else {
            return Ok(false);
        };
        if time >= end {
            return Ok(false);
        }
        if self.position + self.count as u64 == MOST_EVENTS {
            return Err(GroupFault::CountFull);
        }
        match self.fire_at(at, end) {
            Ok(()) => Ok(true),
            Err(_) => Err(GroupFault::NoMemory),
        }
    }

    /// Runs the events below a moment, one after another.
    pub fn run(&mut self, end: Time) -> Result<(), GroupFault>
        requires within { end ≤ self.old.until }
        requires on_run { IsOnRun self.old }
        ensures after { AfterFirings end self.old self.new }
        ensures on_run { IsOnRun self.new }
        ensures done { OnOk result (due (up_to end (state_of self.new)) ≡ None) }
        ensures fault { IfErr result (IsFaultAt end self.new) }
    {
        while self.fire_below(end)? {}
        Ok(())
    }
}
