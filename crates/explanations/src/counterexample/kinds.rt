//! Flows, links and routes whose nodes are of the wrong kind.
ghost use Rattle.std.specs.Prelude.{IfSome};
ghost use Rattle.explanations.specs.Counterexample.{IsShown};
ghost use Rattle.scenario_image.specs.declared.fault.LoadFault.TheVariants.{L6};

use crate::counterexample::Counterexample;
use scenario_image::ScenarioParts;
use scenario_image::kinds::{flow_has_its_kinds, route_has_its_kinds};

/// The first flow that does not go from a sender to a receiver.
fn flow_between_others(parts: &ScenarioParts) -> Option<Counterexample>
    ensures { IfSome result (IsShown parts.now L6) }
{
    for (number, flow) in parts.flows.as_slice().iter().enumerate() {
        if !flow_has_its_kinds(parts, *flow) {
            return Some(Counterexample::FlowKinds { flow: number });
        }
    }
    None
}

/// The first link into the node that it leaves.
fn link_to_itself(parts: &ScenarioParts) -> Option<Counterexample>
    ensures { IfSome result (IsShown parts.now L6) }
{
    for (number, link) in parts.links.as_slice().iter().enumerate() {
        if link.from == link.to {
            return Some(Counterexample::LinkKinds { link: number });
        }
    }
    None
}

/// The first route that is not a router's, for a sender or receiver, over a link that leaves the router.
fn route_of_others(parts: &ScenarioParts) -> Option<Counterexample>
    ensures { IfSome result (IsShown parts.now L6) }
{
    for (number, route) in parts.routes.as_slice().iter().enumerate() {
        if !route_has_its_kinds(parts, *route) {
            return Some(Counterexample::RouteKinds { route: number });
        }
    }
    None
}

/// The first flow, link or route, looked for in this order, whose nodes are of the wrong kind.
pub(super) fn wrong_kind(parts: &ScenarioParts) -> Option<Counterexample>
    ensures { IfSome result (IsShown parts.now L6) }
{
    let flow = flow_between_others(parts);
    if flow.is_some() {
        return flow;
    }
    let link = link_to_itself(parts);
    if link.is_some() {
        return link;
    }
    route_of_others(parts)
}
