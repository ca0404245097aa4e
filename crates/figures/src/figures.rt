//! The figures of a run, event by event.
ghost use Rattle.std.specs.Prelude.{◌≡◌, ◌≢◌, ◌+◌, ◌<◌, ◌≤◌, ◌^◌, ◌++◌, ◌∷◌, [], ℕ, List, Some, None, Ok, Err, IfOk, IfErr, OnOk, OnErr, if◌then◌else◌, false, length, slice_index_or};
ghost use Rattle.std.specs.Option.{option_map};
ghost use Rattle.sim_time.specs.declared.limits.TheConstants.{MOST_EVENTS};
ghost use Rattle.node_core.specs.Part.{sender_in};
ghost use Rattle.net_machine.specs.Nodes.{node_at};
ghost use Rattle.figures.specs.Moments.{cause_of as cause_is, arrived};
ghost use Rattle.table_run.specs.Flow.{next_at};
ghost use Rattle.figures.specs.Senders.{IsBegun, completed_in};
ghost use Rattle.figures.specs.declared.sender.SenderFigures.{SenderFigures};
ghost use Rattle.figures.specs.declared.links.NodeLinks.{NodeLinks};
ghost use Rattle.figures.specs.Links.{AreLinksBegun};

use crate::links::{NodeLinks, count_links, is_free};
use crate::sender::SenderFigures;
use crate::turn::Cause;
use net_machine::Net;
use node_core::{Event, Line, Node};
use packet_chain::{Kind, Packet};
use reno_sender::Sender;
use scenario_image::plain_flow;
use sim_time::Time;
use std::alloc::{AllocError, Global};

/// What is counted of a run.
#[derive(Drop)]
pub struct Figures {
    /// Of each node what is counted of its sender; of a node that has none, nothing.
    pub senders: Vec<SenderFigures>,
    /// Of each node what is counted of the links that leave it.
    pub links: Vec<NodeLinks>,
    /// Of each node the next byte for which its receiver waited where counting began; 0 of a node that has none.
    pub received: Vec<u64>,
    /// How many events were run.
    pub events: u64,
    /// When the last of them was run, in nanoseconds; before the first the moment from which on is counted.
    pub last: Time,
    ghost parts: { (node : ℕ) (counted : SenderFigures) → node < length senders.items → (slice_index_or senders.items node counted).turns ≤ events },
}

// Why a sender acts where a packet arrives at its node, if it does.
#[inline(always)]
fn cause_of_arrival(packet: &Packet) -> Option<Cause>
    ensures { result ≡ arrived packet.now.kind packet.now.number }
{
    match packet.kind {
        Kind::Ack => Some(Cause::Acknowledged(packet.number)),
        Kind::Data => None,
    }
}

// The same at any event.
#[cold]
#[inline(never)]
fn cause_of_any(event: &Event) -> Option<Cause>
    ensures { result ≡ cause_is event.now }
{
    match event {
        Event::Start(_) => Some(Cause::Starts),
        Event::Rto(_) => Some(Cause::TimesOut),
        Event::Arrive(packet) => cause_of_arrival(packet),
        Event::DelAck(_) | Event::Free(_) => None,
    }
}

// Why a sender acts at an event that is due at its node, if it does. Nearly all of them are arrivals, which are
// told apart with no table of jumps.
#[inline(always)]
fn cause_of(event: &Event) -> Option<Cause>
    ensures { result ≡ cause_is event.now }
{
    match event {
        Event::Arrive(packet) => cause_of_arrival(packet),
        _ => cause_of_any(event),
    }
}

// The sender at a node, where one is.
fn sender_at(nodes: &[Node], place: usize) -> Option<&Sender>
    ensures { option_map (λ sender. sender.now) result ≡ option_map (λ found. found.1) (sender_in (node_at nodes.now place).part.role) }
{
    if place >= nodes.len() {
        return None;
    }
    match nodes[place].sender() {
        Some((_, sender)) => Some(sender),
        None => None,
    }
}

// Nothing is counted yet of a node's sender, if it has one, behind what has completed its flow, if anything has.
fn begun(alloc: Global, node: &Node, completed: Option<Time>) -> SenderFigures
    ensures { IsBegun completed node.now.part.role result }
{
    match node.sender() {
        Some((_, sender)) => SenderFigures::new(alloc, sender, completed),
        None => {
            let settings = plain_flow(0, 0).sender_settings();
            SenderFigures::new(alloc, &Sender::new(settings), completed)
        }
    }
}

// When all bytes of the flow of each node's sender were acknowledged, by what was counted of it.
fn all_completed(alloc: Global, senders: &[SenderFigures]) -> Result<Vec<Option<Time>>, AllocError>
    ensures { IfOk result (λ all. (place : ℕ) → place < length senders.now → slice_index_or all.items place None ≡ completed_in senders.now place) }
{
    let mut all = Vec::new(alloc);
    for counted in senders {
        all.push(counted.completed)?;
    }
    Ok(all)
}

// The same of one node.
fn completed_at(earlier: &[Option<Time>], place: usize) -> Option<Time>
    ensures { result ≡ slice_index_or earlier.now place None }
{
    match earlier.get(place) {
        Some(completed) => *completed,
        None => None,
    }
}

// Nothing is counted yet of the nodes' senders, whose flows were completed earlier, or not.
fn all_begun(
    alloc: Global,
    nodes: &[Node],
    earlier: &[Option<Time>],
) -> Result<Vec<SenderFigures>, AllocError>
    ensures size { IfOk result (λ all. length all.items ≡ length nodes.now) }
    ensures figures { IfOk result (λ all. (place : ℕ) (other : SenderFigures) → place < length nodes.now → IsBegun (slice_index_or earlier.now place None) (node_at nodes.now place).part.role (slice_index_or all.items place other)) }
{
    let mut all = Vec::new(alloc);
    for place in 0..nodes.len() {
        let node = &nodes[place];
        all.push(begun(alloc, node, completed_at(earlier, place)))?;
    }
    Ok(all)
}

// Nothing is counted yet of the nodes' links, which are from a moment on.
fn all_links_begun(alloc: Global, nodes: &[Node], since: Time) -> Result<Vec<NodeLinks>, AllocError>
    ensures size { IfOk result (λ all. length all.items ≡ length nodes.now) }
    ensures figures { IfOk result (λ all. (place : ℕ) (other : NodeLinks) → place < length nodes.now → AreLinksBegun since (node_at nodes.now place).part.links (slice_index_or all.items place other).figures.items) }
{
    let mut all = Vec::new(alloc);
    for node in nodes {
        all.push(NodeLinks::new(alloc, node.ports(), since)?)?;
    }
    Ok(all)
}

// The next byte for which a node's receiver waits, if it has one.
fn received_at(node: &Node) -> u64
    ensures { result ≡ next_at node.now.part.role }
{
    match node.receiver() {
        Some((_, receiver)) => receiver.next(),
        None => 0,
    }
}

// The same of each node.
fn all_received(alloc: Global, nodes: &[Node]) -> Result<Vec<u64>, AllocError>
    ensures size { IfOk result (λ all. length all.items ≡ length nodes.now) }
    ensures bytes { IfOk result (λ all. (place other : ℕ) → place < length nodes.now → slice_index_or all.items place other ≡ next_at (node_at nodes.now place).part.role) }
{
    let mut all = Vec::new(alloc);
    for node in nodes {
        all.push(received_at(node))?;
    }
    Ok(all)
}

impl Figures {
    ghost use Rattle.sim_time.specs.Moment.{IsMoment};
    ghost use Rattle.node_core.specs.TraceLine.{shown};
    ghost use Rattle.table_run.specs.State.{State, initial, step};
    ghost use Rattle.figures.specs.Moments.{Moment, Base, turns_at};
    ghost use Rattle.figures.specs.Senders.{completed_of};
    ghost use Rattle.figures.specs.Links.{TellsWait, KeepsLinks};
    ghost use Rattle.figures.specs.Figures.{AreAfter, AreOfLinks, AreFigures, Follows, NoneBefore, base_at, whole, AreOfRun, AreOfSomeRun};
    ghost use Rattle.scenario_image.specs.declared.parts.ScenarioParts.{ScenarioParts};
    ghost use Rattle.scenario_image.specs.Scenario.{IsScenario};

    // Nothing is counted yet of a net, which is from a moment on, whose flows were completed earlier, or not.
    fn begun(
        alloc: Global,
        net: &Net,
        since: Time,
        earlier: &[Option<Time>],
    ) -> Result<Figures, AllocError>
        ensures { IfOk result (λ f. (n : ℕ) (before : List Moment) → ((node : ℕ) → node < length net.now.state.parts → slice_index_or earlier.now node None ≡ completed_of (turns_at node before)) → AreFigures (record { since = since; state = net.now.state; before = n; earlier = before }) [] net.now.state f) }
    {
        Ok(Figures {
            senders: all_begun(alloc, net.nodes(), earlier)?,
            links: all_links_begun(alloc, net.nodes(), since)?,
            received: all_received(alloc, net.nodes())?,
            events: 0,
            last: since,
        })
    }

    /// Nothing is counted yet of a net.
    pub fn new(alloc: Global, net: &Net) -> Result<Figures, AllocError>
        ensures run { IfOk result (λ f. (p : ScenarioParts) → net.now ≡ record { state = initial p; position = 0 } → AreOfRun p (whole p) f net.now) }
        ensures some { IfOk result (λ f. (p : ScenarioParts) → IsScenario p → net.now ≡ record { state = initial p; position = 0 } → AreOfSomeRun f net.now) }
    {
        let figures = Figures::begun(alloc, net, 0, &[])?;
        Ok(figures)
    }

    // Nothing is counted of no net, and no memory is taken.
    fn nothing(alloc: Global) -> Figures {
        Figures {
            senders: Vec::new(alloc),
            links: Vec::new(alloc),
            received: Vec::new(alloc),
            events: 0,
            last: 0,
        }
    }

    /// Counts a net anew from a moment on, up to where these figures are counted. When a flow was completed is
    /// known still. What was counted is dropped before memory is taken for what follows; where nothing was counted
    /// from the moment on, all stays as it is.
    pub fn restart(&mut self, alloc: Global, net: &Net, since: Time) -> Result<(), AllocError>
        ensures run { IfOk result (λ _. (p : ScenarioParts) (b : Base) → since ≤ p.end → AreOfRun p b self.old net.now → AreOfRun p (base_at p since net.now) self.new net.now) }
        ensures some { IfOk result (λ _. (p : ScenarioParts) (b : Base) → IsScenario p → since ≤ p.end → NoneBefore since net.now.state → AreOfRun p b self.old net.now → AreOfSomeRun self.new net.now) }
    {
        let _position = net.position();
        if self.events == 0 && self.last == since {
            return Ok(());
        }
        let earlier = all_completed(alloc, &self.senders)?;
        *self = Figures::nothing(alloc);
        *self = Figures::begun(alloc, net, since, &earlier)?;
        Ok(())
    }

    /// The net has run one more event, of which the line tells.
    #[inline(always)]
    pub(crate) fn after(&mut self, net: &Net, line: &Line)
        requires few { self.old.events < MOST_EVENTS }
        requires moment { IsMoment line.now.key.time }
        requires order { self.old.last ≤ line.now.key.time }
        requires follows { Follows self.old (shown line.now) net.now.state }
        ensures senders { (b : Base) (ms : List Moment) (s : State) → AreAfter b ms s self.old → step s ≡ Some (shown line.now, net.now.state) → AreAfter b (ms ++ record { before = s; line = shown line.now; after = net.now.state } ∷ []) net.now.state self.new }
        ensures links { (b : Base) (ms : List Moment) (s : State) → AreFigures b ms s self.old → step s ≡ Some (shown line.now, net.now.state) → TellsWait s (shown line.now) net.now.state → KeepsLinks s (shown line.now) net.now.state → AreOfLinks b (ms ++ record { before = s; line = shown line.now; after = net.now.state } ∷ []) net.now.state self.new.links.items }
        ensures received { self.new.received.items ≡ self.old.received.items }
        ensures last { self.new.last ≡ line.now.key.time }
        ensures events { self.new.events ≡ self.old.events + 1 }
    {
        self.events += 1;
        self.last = line.key.time;
        // Asked before the links are counted, so that the event is not read again.
        let freed = is_free(&line.event);
        let nodes = net.nodes();
        count_links(&mut self.links, nodes, line);
        if freed {
            return;
        }
        if let Some(cause) = cause_of(&line.event) {
            let place = usize::from(line.key.node);
            if let Some(sender) = sender_at(nodes, place) {
                let counted = &mut self.senders[place];
                counted.turn(sender, cause, line.key.time);
            }
        }
    }
}
