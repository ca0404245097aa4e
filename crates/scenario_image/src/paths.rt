//! Whether each path comes to its end.
ghost use Rattle.std.specs.Prelude.{◌≡◌, ◌<◌, ◌↔◌, IsTrue, length};
ghost use Rattle.scenario_image.specs.Limits.{IsInLimits};
ghost use Rattle.scenario_image.specs.Paths.{EachPath, data_path, ack_path, outgoing_link as link_out_of, hop_link as link_hopped, next_node as node_next, MayComeTo, MayPass, IsUnbroken, IsSimple, IsCourse};

use crate::kinds::kind_of;
use crate::parts::{FlowPart, LinkPart, NodeKind, ScenarioParts};
use crate::routes::route_link;

/// The path of a flow's data, from its sender to its receiver, or of its acknowledgements, back.
#[derive(Clone, Copy)]
pub struct Path {
    /// The node that it starts at.
    pub start: u16,
    /// The node that it is to end at.
    pub end: u16,
}

impl Path {
    /// From the sender to the receiver.
    pub fn of_data(flow: FlowPart) -> Path
        ensures { result ≡ data_path flow }
    {
        Path {
            start: flow.sender,
            end: flow.receiver,
        }
    }

    /// From the receiver to the sender.
    pub fn of_acks(flow: FlowPart) -> Path
        ensures { result ≡ ack_path flow }
    {
        Path {
            start: flow.receiver,
            end: flow.sender,
        }
    }
}

/// What becomes of a path.
enum PathOutcome {
    /// It comes only where it may, and to no node twice.
    Ends,
    /// It comes to a router without a route for its end, or to an end that is not its own.
    Breaks,
    /// It comes only where it may, and to a node again.
    Returns,
}

/// The number of the link that leaves a node, the first where there are several.
fn outgoing_link(links: &[LinkPart], node: u16) -> Option<usize>
    ensures { result ≡ link_out_of links.now node }
{
    links.iter().position(|link| link.from == node)
}

/// The number of the link that a path takes from a node.
pub fn hop_link(parts: &ScenarioParts, path: Path, node: u16) -> Option<usize>
    requires { IsInLimits parts.now }
    ensures { result ≡ link_hopped parts.now path node }
{
    if node == path.start {
        return outgoing_link(parts.links.as_slice(), node);
    }
    route_link(parts, node, path.end).map(usize::from)
}

/// The node that a path comes to from a node.
fn next_node(parts: &ScenarioParts, path: Path, node: u16) -> Option<u16>
    requires { IsInLimits parts.now }
    ensures { result ≡ node_next parts.now path node }
{
    let number = hop_link(parts, path, node)?;
    let link = parts.links.as_slice().get(number)?;
    Some(link.to)
}

/// Whether a path may come to a node of this kind.
fn may_come_to(parts: &ScenarioParts, path: Path, node: u16, kind: NodeKind) -> bool
    requires { IsInLimits parts.now }
    ensures { IsTrue result ↔ MayComeTo parts.now path node kind }
{
    match kind {
        NodeKind::Router => route_link(parts, node, path.end).is_some(),
        NodeKind::Sender | NodeKind::Receiver => node == path.end,
    }
}

/// Whether a path may come to a node. It may to one that is not there.
pub fn may_pass(parts: &ScenarioParts, path: Path, node: u16) -> bool
    requires { IsInLimits parts.now }
    ensures { IsTrue result ↔ MayPass parts.now path node }
{
    match kind_of(parts, node) {
        Some(kind) => may_come_to(parts, path, node, kind),
        None => true,
    }
}

/// What becomes of a path. One that goes on for as many hops as there are nodes comes to a node
/// again.
fn course_of(parts: &ScenarioParts, path: Path) -> PathOutcome
    requires limits { IsInLimits parts.now }
    requires start { path.start < length parts.now.nodes }
    ensures { IsCourse parts.now path result }
{
    let mut node = path.start;
    for _hops in 0..parts.nodes.len() {
        let Some(next) = next_node(parts, path, node) else {
            return PathOutcome::Ends;
        };
        if !may_pass(parts, path, next) {
            return PathOutcome::Breaks;
        }
        node = next;
    }
    PathOutcome::Returns
}

/// Whether a path comes only where it may.
fn is_unbroken(parts: &ScenarioParts, path: Path) -> bool
    requires limits { IsInLimits parts.now }
    requires start { path.start < length parts.now.nodes }
    ensures { IsTrue result ↔ IsUnbroken parts.now path }
{
    match course_of(parts, path) {
        PathOutcome::Breaks => false,
        PathOutcome::Ends | PathOutcome::Returns => true,
    }
}

/// Whether a path that comes only where it may is at no node twice.
fn is_simple(parts: &ScenarioParts, path: Path) -> bool
    requires limits { IsInLimits parts.now }
    requires start { path.start < length parts.now.nodes }
    requires unbroken { IsUnbroken parts.now path }
    ensures { IsTrue result ↔ IsSimple parts.now path }
{
    match course_of(parts, path) {
        PathOutcome::Ends => true,
        PathOutcome::Breaks | PathOutcome::Returns => false,
    }
}

/// Whether each path comes only where it may.
pub(crate) fn paths_are_unbroken(parts: &ScenarioParts) -> bool
    requires { IsInLimits parts.now }
    ensures { IsTrue result ↔ EachPath parts.now (IsUnbroken parts.now) }
{
    for flow in parts.flows.as_slice() {
        if !is_unbroken(parts, Path::of_data(*flow)) || !is_unbroken(parts, Path::of_acks(*flow)) {
            return false;
        }
    }
    true
}

/// Whether each path is at no node twice.
pub(crate) fn paths_are_simple(parts: &ScenarioParts) -> bool
    requires limits { IsInLimits parts.now }
    requires unbroken { EachPath parts.now (IsUnbroken parts.now) }
    ensures { IsTrue result ↔ EachPath parts.now (IsSimple parts.now) }
{
    for flow in parts.flows.as_slice() {
        if !is_simple(parts, Path::of_data(*flow)) || !is_simple(parts, Path::of_acks(*flow)) {
            return false;
        }
    }
    true
}
