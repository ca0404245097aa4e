//! Whether flows, links and routes name nodes of the right kinds.
ghost use Rattle.std.specs.Prelude.{◌≡◌, ◌≢◌, ◌↔◌, IsTrue, All, slice_get, Some};
ghost use Rattle.scenario_image.specs.Kinds.{IsNode, link_source, HasFlowItsKinds, HasRouteItsKinds, HasItsKinds};

use crate::parts::{FlowPart, NodeKind, RoutePart, ScenarioParts};

/// What a node does, if there is one of this number.
pub fn kind_of(parts: &ScenarioParts, node: u16) -> Option<NodeKind>
    ensures { result ≡ slice_get parts.now.nodes node }
{
    parts.nodes.as_slice().get(usize::from(node)).copied()
}

/// Whether a node is there, and of this kind.
fn is_node(parts: &ScenarioParts, kind: NodeKind, node: u16) -> bool
    ensures { IsTrue result ↔ IsNode parts.now kind node }
{
    match kind_of(parts, node) {
        Some(found) => found == kind,
        None => false,
    }
}

/// Whether a flow goes from a sender to a receiver.
pub fn flow_has_its_kinds(parts: &ScenarioParts, flow: FlowPart) -> bool
    ensures { IsTrue result ↔ HasFlowItsKinds parts.now flow }
{
    is_node(parts, NodeKind::Sender, flow.sender)
        && is_node(parts, NodeKind::Receiver, flow.receiver)
}

/// Whether the link of a number leaves a node.
fn link_leaves(parts: &ScenarioParts, number: u16, node: u16) -> bool
    ensures { IsTrue result ↔ (link_source parts.now.links number ≡ Some node) }
{
    match parts.links.as_slice().get(usize::from(number)) {
        Some(link) => link.from == node,
        None => false,
    }
}

/// Whether a route is a router's, for an end, over a link that leaves the router.
pub fn route_has_its_kinds(parts: &ScenarioParts, route: RoutePart) -> bool
    ensures { IsTrue result ↔ HasRouteItsKinds parts.now route }
{
    is_node(parts, NodeKind::Router, route.router)
        && !is_node(parts, NodeKind::Router, route.destination)
        && link_leaves(parts, route.link, route.router)
}

/// Whether each flow goes from a sender to a receiver.
fn flows_have_their_kinds(parts: &ScenarioParts) -> bool
    ensures { IsTrue result ↔ All (HasFlowItsKinds parts.now) parts.now.flows }
{
    let flows = parts.flows.as_slice();
    flows.iter().all(|flow| flow_has_its_kinds(parts, *flow))
}

/// Whether no link goes into the node that it leaves.
fn links_have_their_kinds(parts: &ScenarioParts) -> bool
    ensures { IsTrue result ↔ All (λ link. link.from ≢ link.to) parts.now.links }
{
    let links = parts.links.as_slice();
    links.iter().all(|link| link.from != link.to)
}

/// Whether each route is a router's, for an end, over a link that leaves the router.
fn routes_have_their_kinds(parts: &ScenarioParts) -> bool
    ensures { IsTrue result ↔ All (HasRouteItsKinds parts.now) parts.now.routes }
{
    let routes = parts.routes.as_slice();
    routes
        .iter()
        .all(|route| route_has_its_kinds(parts, *route))
}

/// Whether all flows and routes name nodes of the right kinds, and links two nodes.
pub(crate) fn has_its_kinds(parts: &ScenarioParts) -> bool
    ensures { IsTrue result ↔ HasItsKinds parts.now }
{
    flows_have_their_kinds(parts) && links_have_their_kinds(parts) && routes_have_their_kinds(parts)
}
