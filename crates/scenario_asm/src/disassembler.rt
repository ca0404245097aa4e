//! From a scenario to its canonical text.
ghost use Rattle.std.specs.Prelude.{◌≡◌, ◌++◌, IfOk, OnOk};
ghost use Rattle.scenario_asm.specs.Meaning.{MeansScenario};
ghost use Rattle.scenario_asm.specs.Spelling.{text_for};
ghost use Rattle.scenario_asm.specs.CanonicalText.{node_statements, link_statements, flow_statements, route_statements, numbers_lost, lose_statements, canonical_text};

use crate::spelling::{put_flow, put_link, put_lose, put_node, put_route, put_sim};
use scenario_image::{FlowPart, LinkPart, NodeKind, RoutePart, Scenario, ScenarioParts};
use std::alloc::{AllocError, Global};

/// Appends the nodes. After an `Err` some of them may stand there.
fn put_nodes(text: &mut Vec<u8>, kinds: &[NodeKind]) -> Result<(), AllocError>
    ensures { OnOk result (text.new.items ≡ text.old.items ++ text_for (node_statements 0 kinds.now)) }
{
    for (number, kind) in kinds.iter().enumerate() {
        put_node(text, number as u64, *kind)?;
    }
    Ok(())
}

/// Appends the links. After an `Err` some of them may stand there.
fn put_links(text: &mut Vec<u8>, links: &[LinkPart]) -> Result<(), AllocError>
    ensures { OnOk result (text.new.items ≡ text.old.items ++ text_for (link_statements 0 links.now)) }
{
    for (number, link) in links.iter().enumerate() {
        put_link(text, number as u64, link)?;
    }
    Ok(())
}

/// Appends the flows. After an `Err` some of them may stand there.
fn put_flows(text: &mut Vec<u8>, flows: &[FlowPart]) -> Result<(), AllocError>
    ensures { OnOk result (text.new.items ≡ text.old.items ++ text_for (flow_statements 0 flows.now)) }
{
    for (number, flow) in flows.iter().enumerate() {
        put_flow(text, number as u64, *flow)?;
    }
    Ok(())
}

/// Appends the routes. After an `Err` some of them may stand there.
fn put_routes(text: &mut Vec<u8>, routes: &[RoutePart]) -> Result<(), AllocError>
    ensures { OnOk result (text.new.items ≡ text.old.items ++ text_for (route_statements routes.now)) }
{
    for route in routes {
        put_route(text, *route)?;
    }
    Ok(())
}

/// Appends the packets that a link loses. After an `Err` some of them may stand there.
fn put_numbers(text: &mut Vec<u8>, link: u64, numbers: &[u32]) -> Result<(), AllocError>
    ensures { OnOk result (text.new.items ≡ text.old.items ++ text_for (numbers_lost link numbers.now)) }
{
    for number in numbers {
        put_lose(text, link, *number)?;
    }
    Ok(())
}

/// Appends the packets that the links lose. After an `Err` some of them may stand there.
fn put_losses(text: &mut Vec<u8>, links: &[LinkPart]) -> Result<(), AllocError>
    ensures { OnOk result (text.new.items ≡ text.old.items ++ text_for (lose_statements 0 links.now)) }
{
    for (number, link) in links.iter().enumerate() {
        put_numbers(text, number as u64, link.lose.as_slice())?;
    }
    Ok(())
}

/// The canonical text of these parts.
fn text_of(alloc: Global, parts: &ScenarioParts) -> Result<Vec<u8>, AllocError>
    ensures { IfOk result (λ text. text.items ≡ canonical_text parts.now) }
{
    let mut text = Vec::new(alloc);
    put_sim(&mut text, parts.end)?;
    put_nodes(&mut text, parts.nodes.as_slice())?;
    put_links(&mut text, parts.links.as_slice())?;
    put_flows(&mut text, parts.flows.as_slice())?;
    put_routes(&mut text, parts.routes.as_slice())?;
    put_losses(&mut text, parts.links.as_slice())?;
    Ok(text)
}

/// The canonical text of a scenario, which means that scenario.
pub fn disassemble(alloc: Global, scenario: &Scenario) -> Result<Vec<u8>, AllocError>
    ensures text { IfOk result (λ text. text.items ≡ canonical_text scenario.now) }
    ensures meaning { IfOk result (λ text. MeansScenario text.items scenario.now) }
{
    text_of(alloc, scenario.parts())
}
