//! The table of a run, made of what was counted of it.
ghost use Rattle.std.specs.Prelude.{◌≡◌, ◌<◌, ◌≤◌, ◌^◌, ◌+◌, ◌*◌, ◌-◌, ℕ, List, IfOk, length, slice_index_or};
ghost use Rattle.scenario_image.specs.Scenario.{IsScenario};
ghost use Rattle.sim_time.specs.Moment.{IsMoment};
ghost use Rattle.sim_time.specs.declared.limits.TheConstants.{MOST_EVENTS};
ghost use Rattle.table_run.specs.Flow.{next_at as next_of_role};
ghost use Rattle.table_run.specs.State.{State, part_at};
ghost use Rattle.net_machine.specs.Nodes.{node_at, parts_of};
ghost use Rattle.net_machine.specs.Wiring.{from_of, exit_of as exit_is};
ghost use Rattle.figures.specs.Turns.{Turn};
ghost use Rattle.figures.specs.Moments.{Moment, Base, moments, turns_at};
ghost use Rattle.figures.specs.Senders.{AreOfTurns};
ghost use Rattle.figures.specs.Links.{AreOfLink, waits_of, last_from};
ghost use Rattle.figures.specs.Classes.{greatest_of, percentile};
ghost use Rattle.figures.specs.Figures.{AreOfRun, AreOfPart};
ghost use Rattle.figures.specs.declared.sender.SenderFigures.{SenderFigures};
ghost use Rattle.figures.specs.declared.links.NodeLinks.{NodeLinks};
ghost use Rattle.figures.specs.declared.link.LinkFigures.{LinkFigures};
ghost use Rattle.figures_text.specs.Summaries.{summary_of_turns, summary_of_exit, flow_summary as flow_is, link_summary as link_is, flow_summaries as flows_are, link_summaries as links_are, last_of, table_over};

use crate::column::NameColumn;
use crate::summary::{FlowSummary, LinkSummary, RunSummary};
use crate::table::append_table;
use figures::{Figures, LinkFigures, SenderFigures};
use net_machine::Net;
use node_core::Node;
use scenario_image::{FlowPart, LinkPart, Scenario};
use sim_time::Time;
use std::alloc::{AllocError, Global};

/// As many bytes as the rows of a flow or a link have in most tables: 13 rows of 48 bytes.
const BYTES_OF_A_PART: usize = 13 * 48;

/// The next byte that the receiver at a node waits for, where one is.
fn next_at(nodes: &[Node], place: usize) -> u64
    ensures { result ≡ next_of_role (node_at nodes.now place).part.role }
{
    if place >= nodes.len() {
        return 0;
    }
    match nodes[place].receiver() {
        Some((_, receiver)) => receiver.next(),
        None => 0,
    }
}

/// The next byte for which the receiver at a node waited where counting began.
fn next_before(received: &[u64], place: usize) -> u64
    ensures { result ≡ slice_index_or received.now place 0 }
{
    if place < received.len() {
        received[place]
    } else {
        0
    }
}

/// What is said of a flow that starts at a moment, whose receiver got so many bytes, and of whose sender this was
/// counted.
fn of_sender(
    start: Time,
    delivered: u64,
    counted: &SenderFigures,
) -> Result<FlowSummary, AllocError>
    requires few { counted.now.trips.count < 2 ^ 57 }
    ensures { (before ts : List Turn) → AreOfTurns before ts counted.now → IfOk result (λ said. said ≡ summary_of_turns start delivered before ts) }
{
    let trips = &counted.trips;
    trips.is_whole()?;
    Ok(FlowSummary {
        start,
        delivered,
        completed: counted.completed,
        sent: counted.sent,
        again_in_recovery: counted.again_in_recovery,
        again_otherwise: counted.again_otherwise,
        timeouts: counted.timeouts,
        round_trips: trips.count,
        least: counted.least_trip(),
        median: trips.percentile(50),
        high: trips.percentile(95),
        highest: trips.percentile(99),
        greatest: trips.greatest(),
    })
}

/// What is said of a flow of a run.
fn flow_summary(
    figures: &Figures,
    nodes: &[Node],
    flow: &FlowPart,
) -> Result<FlowSummary, AllocError>
    requires sender { flow.now.sender < length figures.now.senders.items }
    requires few { figures.now.events ≤ MOST_EVENTS }
    ensures { (b : Base) (ms : List Moment) (s : State) → parts_of nodes.now ≡ s.parts → slice_index_or figures.now.received.items flow.now.receiver 0 ≡ next_of_role (part_at b.state flow.now.receiver).role → ((other : SenderFigures) → AreOfTurns (turns_at flow.now.sender b.earlier) (turns_at flow.now.sender ms) (slice_index_or figures.now.senders.items flow.now.sender other)) → IfOk result (λ said. said ≡ flow_is b ms s flow.now) }
{
    let next = next_at(nodes, usize::from(flow.receiver));
    let before = next_before(&figures.received, usize::from(flow.receiver));
    let counted = &figures.senders[usize::from(flow.sender)];
    of_sender(flow.start, next.saturating_sub(before), counted)
}

/// What is said of the flows of a run.
pub(crate) fn flow_summaries(
    alloc: Global,
    scenario: &Scenario,
    figures: &Figures,
    net: &Net,
) -> Result<Vec<FlowSummary>, AllocError>
    requires scenario { IsScenario scenario.now }
    requires run { AreOfPart scenario.now figures.now net.now }
    requires few { figures.now.events ≤ MOST_EVENTS }
    ensures { IfOk result (λ all. (b : Base) (of : AreOfRun scenario.now b figures.now net.now) → all.items ≡ flows_are scenario.now b (moments b.state of.count) net.now.state) }
{
    let flows = scenario.parts().flows.as_slice();
    let nodes = net.nodes();
    let mut all = Vec::new(alloc);
    for number in 0..flows.len() {
        all.push(flow_summary(figures, nodes, &flows[number])?)?;
    }
    Ok(all)
}

/// Delays of packets in a link's queue.
#[derive(Clone, Copy)]
struct Delays {
    /// Their median; none where there is none, as the next three.
    median: Option<u64>,
    /// Their 95th percentile.
    high: Option<u64>,
    /// Their 99th percentile.
    highest: Option<u64>,
    /// The greatest of them.
    greatest: Option<u64>,
}

/// The delays in the queue of a link of which this was counted.
fn delays_of(counted: &LinkFigures) -> Result<Delays, AllocError>
    requires few { counted.now.waits.count ≤ MOST_EVENTS }
    ensures median { (b : Base) (ms : List Moment) (s : State) (node index : ℕ) → AreOfLink b ms s node index counted.now → IfOk result (λ delays. delays.median ≡ percentile 50 (waits_of node index ms)) }
    ensures high { (b : Base) (ms : List Moment) (s : State) (node index : ℕ) → AreOfLink b ms s node index counted.now → IfOk result (λ delays. delays.high ≡ percentile 95 (waits_of node index ms)) }
    ensures highest { (b : Base) (ms : List Moment) (s : State) (node index : ℕ) → AreOfLink b ms s node index counted.now → IfOk result (λ delays. delays.highest ≡ percentile 99 (waits_of node index ms)) }
    ensures greatest { (b : Base) (ms : List Moment) (s : State) (node index : ℕ) → AreOfLink b ms s node index counted.now → IfOk result (λ delays. delays.greatest ≡ greatest_of (waits_of node index ms)) }
{
    counted.waits.is_whole()?;
    Ok(Delays {
        median: counted.waits.percentile(50),
        high: counted.waits.percentile(95),
        highest: counted.waits.percentile(99),
        greatest: counted.waits.greatest(),
    })
}

/// How long a link was busy up to the end of a run whose last event was at a moment.
fn busy_to_end(counted: &LinkFigures, last: Time, end: Time) -> u128
    requires moment { IsMoment last }
    requires order { counted.now.since ≤ last }
    requires end { IsMoment end }
    ensures { (b : Base) (ms : List Moment) (s : State) (node index : ℕ) → AreOfLink b ms s node index counted.now → last_from b.since ms ≡ last → result ≡ (summary_of_exit node index end b ms s).busy }
{
    let left = end.saturating_sub(last);
    let so_far = counted.busy_by(last);
    if counted.busy {
        so_far + u128::from(left)
    } else {
        so_far
    }
}

/// How many packets waited, times for how long, up to the end of a run whose last event was at a moment.
fn waited_to_end(counted: &LinkFigures, last: Time, end: Time) -> u128
    requires moment { IsMoment last }
    requires order { counted.now.since ≤ last }
    requires end { IsMoment end }
    ensures { (b : Base) (ms : List Moment) (s : State) (node index : ℕ) → AreOfLink b ms s node index counted.now → last_from b.since ms ≡ last → result ≡ (summary_of_exit node index end b ms s).waited }
{
    let left = end.saturating_sub(last);
    counted.waited_by(last) + u128::from(counted.waiting) * u128::from(left)
}

/// What is said of a link of which this was counted, of a run whose last event was at a moment.
fn of_exit(counted: &LinkFigures, last: Time, end: Time) -> Result<LinkSummary, AllocError>
    requires few { counted.now.waits.count ≤ MOST_EVENTS }
    requires moment { IsMoment last }
    requires order { counted.now.since ≤ last }
    requires end { IsMoment end }
    ensures { (b : Base) (ms : List Moment) (s : State) (node index : ℕ) → AreOfLink b ms s node index counted.now → last_from b.since ms ≡ last → IfOk result (λ said. said ≡ summary_of_exit node index end b ms s) }
{
    let delays = delays_of(counted)?;
    Ok(LinkSummary {
        offered: counted.offered.saturating_sub(counted.first),
        dropped: counted.dropped,
        sent: u128::from(counted.waits.count),
        bytes: u128::from(counted.bytes),
        busy: busy_to_end(counted, last, end),
        longest: u64::from(counted.longest),
        waited: waited_to_end(counted, last, end),
        median: delays.median,
        high: delays.high,
        highest: delays.highest,
        greatest: delays.greatest,
    })
}

/// Which of the links of its node a link is: as many before it leave the same node.
fn exit_of(links: &[LinkPart], number: usize) -> usize
    requires { number < length links.now }
    ensures { result ≡ exit_is links.now number }
{
    let from = links[number].from;
    let mut count = 0;
    for link in &links[..number] {
        if link.from == from {
            count += 1;
        }
    }
    count
}

/// What is said of a link of a run.
fn link_summary(
    figures: &Figures,
    links: &[LinkPart],
    end: Time,
    number: usize,
) -> Result<LinkSummary, AllocError>
    requires number { number < length links.now }
    requires node { from_of links.now number < length figures.now.links.items }
    requires index { (other : NodeLinks) → exit_is links.now number < length (slice_index_or figures.now.links.items (from_of links.now number) other).figures.items }
    requires few { (other : NodeLinks) (link : LinkFigures) → (slice_index_or (slice_index_or figures.now.links.items (from_of links.now number) other).figures.items (exit_is links.now number) link).waits.count ≤ MOST_EVENTS }
    requires moment { IsMoment figures.now.last }
    requires order { (other : NodeLinks) (link : LinkFigures) → (slice_index_or (slice_index_or figures.now.links.items (from_of links.now number) other).figures.items (exit_is links.now number) link).since ≤ figures.now.last }
    requires end { IsMoment end }
    ensures { (b : Base) (ms : List Moment) (s : State) → ((other : NodeLinks) (link : LinkFigures) → AreOfLink b ms s (from_of links.now number) (exit_is links.now number) (slice_index_or (slice_index_or figures.now.links.items (from_of links.now number) other).figures.items (exit_is links.now number) link)) → last_from b.since ms ≡ figures.now.last → IfOk result (λ said. said ≡ summary_of_exit (from_of links.now number) (exit_is links.now number) end b ms s) }
{
    let node = &figures.links[usize::from(links[number].from)];
    let counted = &node.figures[exit_of(links, number)];
    of_exit(counted, figures.last, end)
}

/// What is said of the links of a run where this moment is the end.
pub(crate) fn link_summaries(
    alloc: Global,
    scenario: &Scenario,
    end: Time,
    figures: &Figures,
    net: &Net,
) -> Result<Vec<LinkSummary>, AllocError>
    requires scenario { IsScenario scenario.now }
    requires run { AreOfPart scenario.now figures.now net.now }
    requires few { figures.now.events ≤ MOST_EVENTS }
    requires end { IsMoment end }
    ensures { IfOk result (λ all. (b : Base) (of : AreOfRun scenario.now b figures.now net.now) → all.items ≡ links_are (record scenario.now { end = end }) b (moments b.state of.count) net.now.state) }
{
    let links = scenario.parts().links.as_slice();
    let mut all = Vec::new(alloc);
    for number in 0..links.len() {
        all.push(link_summary(figures, links, end, number)?)?;
    }
    Ok(all)
}

/// When the last event of a run was, if there was one that was counted.
fn last_event(figures: &Figures) -> Option<Time>
    ensures { (since : ℕ) (ms : List Moment) → figures.now.events ≡ length ms → figures.now.last ≡ last_from since ms → result ≡ last_of ms }
{
    if figures.events == 0 {
        None
    } else {
        Some(figures.last)
    }
}

/// Room for the table of so many flows and links, in bytes: it seldom grows then.
fn room_for(flows: &[FlowSummary], links: &[LinkSummary]) -> usize {
    let parts = flows.len().saturating_add(links.len());
    parts
        .saturating_mul(BYTES_OF_A_PART)
        .saturating_add(BYTES_OF_A_PART)
}

/// The table of a run, of which these figures were counted from some moment on, as the net is after the last event.
pub fn run_text(
    alloc: Global,
    column: &NameColumn,
    scenario: &Scenario,
    figures: &Figures,
    net: &Net,
) -> Result<Vec<u8>, AllocError>
    requires { AreOfPart scenario.now figures.now net.now }
    ensures { IfOk result (λ text. (b : Base) (of : AreOfRun scenario.now b figures.now net.now) → text.items ≡ table_over column.now scenario.now b (moments b.state of.count) net.now.state) }
{
    let end = scenario.parts().end;
    let _position = net.position();
    let flows = flow_summaries(alloc, scenario, figures, net)?;
    let links = link_summaries(alloc, scenario, end, figures, net)?;
    let run = RunSummary {
        events: figures.events,
        end: last_event(figures),
    };
    let mut text = Vec::with_capacity(alloc, room_for(&flows, &links))?;
    append_table(column, &flows, &links, run, &mut text)?;
    Ok(text)
}
