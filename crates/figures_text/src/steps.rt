//! The rows of a step, made of what was counted of it.
ghost use Rattle.std.specs.Prelude.{◌≡◌, ◌≤◌, ◌++◌, ◌<◌, min, IfOk, OnOk, List, length, map};
ghost use Rattle.std.specs.List.{list_any};
ghost use Rattle.std.specs.Option.{option_map};
ghost use Rattle.scenario_image.specs.Scenario.{IsScenario};
ghost use Rattle.sim_time.specs.Moment.{IsMoment};
ghost use Rattle.sim_time.specs.declared.limits.TheConstants.{MOST_EVENTS};
ghost use Rattle.node_core.specs.Part.{sender_in};
ghost use Rattle.table_run.specs.State.{State};
ghost use Rattle.net_machine.specs.Nodes.{node_at, parts_of};
ghost use Rattle.figures.specs.Moments.{Base, moments};
ghost use Rattle.figures.specs.Figures.{AreOfRun, AreOfPart};
ghost use Rattle.figures_text.specs.Steps.{window_of, window_at as window_is, flow_steps as flows_are, rows_over, is_sending, sends_from, sends_any};

use crate::column::NameColumn;
use crate::series_text::append_step;
use crate::step::{FlowStep, SenderWindow, Span};
use crate::summaries::{flow_summaries, link_summaries};
use crate::summary::FlowSummary;
use figures::Figures;
use net_machine::Net;
use node_core::Node;
use node_core::link::Link;
use reno_sender::Sender;
use scenario_image::{FlowPart, Scenario};
use sim_time::Time;
use std::alloc::{AllocError, Global};

/// A sender's window.
fn window_of(sender: &Sender) -> SenderWindow
    ensures { result ≡ window_of sender.now }
{
    let fields = sender.as_fields();
    SenderWindow {
        cwnd: fields.cwnd,
        in_flight: fields.nxt.saturating_sub(fields.una),
    }
}

/// The window of the sender at a node, where one is.
fn window_in(nodes: &[Node], place: usize) -> Option<SenderWindow>
    ensures { result ≡ option_map (λ found. window_of found.1) (sender_in (node_at nodes.now place).part.role) }
{
    if place >= nodes.len() {
        return None;
    }
    match nodes[place].sender() {
        Some((_, sender)) => Some(window_of(sender)),
        None => None,
    }
}

/// The window of a flow's sender, where the flow starts before a moment.
fn window_at(nodes: &[Node], until: Time, flow: &FlowPart) -> Option<SenderWindow>
    ensures { (s : State) → parts_of nodes.now ≡ s.parts → result ≡ window_is s until flow.now }
{
    if flow.start < until {
        window_in(nodes, usize::from(flow.sender))
    } else {
        None
    }
}

/// What is said of a flow in a step that ends before a moment, where this was counted.
fn flow_step(nodes: &[Node], until: Time, flow: &FlowPart, counts: &FlowSummary) -> FlowStep
    ensures { (s : State) → parts_of nodes.now ≡ s.parts → result ≡ record { counts = counts.now; window = window_is s until flow.now } }
{
    FlowStep {
        counts: *counts,
        window: window_at(nodes, until, flow),
    }
}

/// What is said of the flows in a step that ends before a moment.
fn flow_steps(
    alloc: Global,
    scenario: &Scenario,
    until: Time,
    figures: &Figures,
    net: &Net,
) -> Result<Vec<FlowStep>, AllocError>
    requires scenario { IsScenario scenario.now }
    requires run { AreOfPart scenario.now figures.now net.now }
    requires few { figures.now.events ≤ MOST_EVENTS }
    ensures { IfOk result (λ all. (b : Base) (of : AreOfRun scenario.now b figures.now net.now) → all.items ≡ flows_are scenario.now until b (moments b.state of.count) net.now.state) }
{
    let flows = scenario.parts().flows.as_slice();
    let nodes = net.nodes();
    let summaries = flow_summaries(alloc, scenario, figures, net)?;
    let counts = summaries.as_slice();
    let mut all = Vec::new(alloc);
    for number in 0..flows.len() {
        all.push(flow_step(nodes, until, &flows[number], &counts[number]))?;
    }
    Ok(all)
}

/// Appends the rows of a step of a run, of which these figures were counted from its begin on, as the net is before the
/// first event past it. After an `Err` a part of them may stand there.
pub fn append_rows_of(
    column: &NameColumn,
    scenario: &Scenario,
    span: Span,
    figures: &Figures,
    net: &Net,
    text: &mut Vec<u8>,
) -> Result<(), AllocError>
    requires { AreOfPart scenario.now figures.now net.now }
    ensures { OnOk result ((b : Base) (of : AreOfRun scenario.now b figures.now net.now) → text.new.items ≡ text.old.items ++ rows_over column.now scenario.now span b (moments b.state of.count) net.now.state) }
{
    let alloc = *text.allocator();
    let _position = net.position();
    let end = span.until.min(scenario.parts().end);
    let flows = flow_steps(alloc, scenario, span.until, figures, net)?;
    let links = link_summaries(alloc, scenario, end, figures, net)?;
    append_step(span.begin, column, &flows, &links, text)
}

/// Whether a link is sending.
fn is_sending(link: &Link) -> bool
    ensures { result ≡ is_sending link.now }
{
    link.port().next_free().is_some()
}

/// Whether one of these links is sending.
fn sends_one(links: &[Link]) -> bool
    ensures { result ≡ list_any is_sending links.now }
{
    links.iter().any(|link| is_sending(link))
}

/// Whether a link of one of these nodes is sending.
fn sends_one_of(nodes: &[Node]) -> bool
    ensures { result ≡ list_any (λ node. sends_from node.part) nodes.now }
{
    nodes.iter().any(|node| sends_one(node.ports()))
}

/// Whether a link of a net is sending.
pub fn sends_any(net: &Net) -> bool
    ensures { result ≡ sends_any net.now.state }
{
    sends_one_of(net.nodes())
}
