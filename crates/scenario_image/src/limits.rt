//! Whether the numbers of parts are in their ranges.
ghost use Rattle.std.specs.Prelude.{◌↔◌, IsTrue, All, AllPairs, length};
ghost use Rattle.std.specs.List.Sorted.{IsStrictlyIncreasing};
ghost use Rattle.sim_time.specs.QueueLimits.{IsCodelInLimits, IsQueueInLimits};
ghost use Rattle.scenario_image.specs.Range.{IsBetween};
ghost use Rattle.scenario_image.specs.LinkLimits.{IsLoseInLimits, IsLinkInLimits};
ghost use Rattle.scenario_image.specs.FlowLimits.{IsFlowInLimits};
ghost use Rattle.scenario_image.specs.RouteLimits.{IsRouteInLimits, IsRouteBefore};
ghost use Rattle.scenario_image.specs.Limits.{AreCountsInLimits, IsInLimits};

use crate::parts::{FlowPart, LinkPart, RoutePart, ScenarioParts};
pub use sim_time::LATEST_END;
use sim_time::{CodelParameters, QueueKind, Rate, Time};

/// The longest propagation delay, target and interval, in nanoseconds.
pub const LONGEST_DELAY: Time = 10_000_000_000;

/// The most bytes of data in a segment.
pub const GREATEST_MSS: u16 = 9_000;

/// The most segments of a flow, and the greatest number of a packet to be lost.
pub const MOST_SEGMENTS: u32 = 1_000_000_000;

/// The greatest window of a receiver, in bytes.
pub const GREATEST_RWND: u32 = 1_073_741_824;

/// The longest that a receiver delays an acknowledgement, in nanoseconds.
pub const LONGEST_DELACK: u32 = 500_000_000;

/// The most packets that a link loses by number.
pub const MOST_LOSE: usize = 64;

/// The fewest nodes of a scenario.
pub const FEWEST_NODES: usize = 2;

/// The most nodes of a scenario.
pub const MOST_NODES: usize = 256;

/// The most links of a scenario.
pub const MOST_LINKS: usize = 1_024;

/// The most outgoing links of a router.
pub const MOST_ROUTER_LINKS: usize = 16;

/// The most flows of a scenario.
pub const MOST_FLOWS: usize = 128;

/// The most routes of a scenario.
pub const MOST_ROUTES: usize = 65_536;

/// Whether a number is one of those from the least to the greatest.
fn is_between(least: u64, greatest: u64, n: u64) -> bool
    ensures { IsTrue result ↔ IsBetween least greatest n }
{
    least <= n && n <= greatest
}

/// Whether CoDel's parameters are in their ranges.
fn codel_is_in_limits(codel: CodelParameters) -> bool
    ensures { IsTrue result ↔ IsCodelInLimits codel }
{
    is_between(1, LONGEST_DELAY, codel.target)
        && is_between(1, LONGEST_DELAY, codel.interval)
        && codel.maxpacket >= 1
}

/// Whether a queue's parameters, if it has any, are in their ranges.
fn queue_is_in_limits(queue: QueueKind) -> bool
    ensures { IsTrue result ↔ IsQueueInLimits queue }
{
    match queue {
        QueueKind::DropTail => true,
        QueueKind::Codel(codel) => codel_is_in_limits(codel),
    }
}

/// Whether the numbers of the lost packets rise.
fn lose_rises(lose: &[u32]) -> bool
    ensures { IsTrue result ↔ IsStrictlyIncreasing lose.now }
{
    lose.is_sorted_by(|a, b| *a < *b)
}

/// Whether the numbers of the lost packets are few enough, in their range and rising.
fn lose_is_in_limits(lose: &[u32]) -> bool
    ensures { IsTrue result ↔ IsLoseInLimits lose.now }
{
    lose.len() <= MOST_LOSE
        && lose.iter().all(|n| 1 <= *n && *n <= MOST_SEGMENTS)
        && lose_rises(lose)
}

/// Whether a link between so many nodes has its numbers in their ranges.
fn link_is_in_limits(node_count: usize, link: &LinkPart) -> bool
    ensures { IsTrue result ↔ IsLinkInLimits node_count link.now }
{
    usize::from(link.from) < node_count
        && usize::from(link.to) < node_count
        && Rate::new(link.rate).is_some()
        && is_between(1, LONGEST_DELAY, link.delay)
        && queue_is_in_limits(link.queue)
        && link.capacity >= 1
        && lose_is_in_limits(link.lose.as_slice())
}

/// Whether a flow between so many nodes, in a scenario of this end, has its numbers in their
/// ranges.
fn flow_is_in_limits(node_count: usize, end: Time, flow: FlowPart) -> bool
    ensures { IsTrue result ↔ IsFlowInLimits node_count end flow }
{
    usize::from(flow.sender) < node_count
        && usize::from(flow.receiver) < node_count
        && 1 <= flow.mss
        && flow.mss <= GREATEST_MSS
        && 1 <= flow.segments
        && flow.segments <= MOST_SEGMENTS
        && flow.start < end
        && u32::from(flow.mss) <= flow.rwnd
        && flow.rwnd <= GREATEST_RWND
        && flow.delack <= LONGEST_DELACK
}

/// Whether a route between so many nodes and links names a node, a node and a link.
fn route_is_in_limits(node_count: usize, link_count: usize, route: RoutePart) -> bool
    ensures { IsTrue result ↔ IsRouteInLimits node_count link_count route }
{
    usize::from(route.router) < node_count
        && usize::from(route.destination) < node_count
        && usize::from(route.link) < link_count
}

/// Whether a route comes before another, by router and destination.
fn route_is_before(a: &RoutePart, b: &RoutePart) -> bool
    ensures { IsTrue result ↔ IsRouteBefore a.now b.now }
{
    a.router < b.router || (a.router == b.router && a.destination < b.destination)
}

/// Whether there are neither too few nor too many nodes, links, flows and routes.
fn counts_are_in_limits(parts: &ScenarioParts) -> bool
    ensures { IsTrue result ↔ AreCountsInLimits parts.now }
{
    FEWEST_NODES <= parts.nodes.len()
        && parts.nodes.len() <= MOST_NODES
        && 1 <= parts.links.len()
        && parts.links.len() <= MOST_LINKS
        && 1 <= parts.flows.len()
        && parts.flows.len() <= MOST_FLOWS
        && parts.routes.len() <= MOST_ROUTES
}

/// Whether each link's numbers are in their ranges.
fn links_are_in_limits(parts: &ScenarioParts) -> bool
    ensures { IsTrue result ↔ All (IsLinkInLimits (length parts.now.nodes)) parts.now.links }
{
    let node_count = parts.nodes.len();
    let links = parts.links.as_slice();
    links.iter().all(|link| link_is_in_limits(node_count, link))
}

/// Whether each flow's numbers are in their ranges.
fn flows_are_in_limits(parts: &ScenarioParts) -> bool
    ensures { IsTrue result ↔ All (IsFlowInLimits (length parts.now.nodes) parts.now.end) parts.now.flows }
{
    let node_count = parts.nodes.len();
    let end = parts.end;
    let flows = parts.flows.as_slice();
    flows
        .iter()
        .all(|flow| flow_is_in_limits(node_count, end, *flow))
}

/// Whether each route names a node, a node and a link.
fn routes_are_in_limits(parts: &ScenarioParts) -> bool
    ensures { IsTrue result ↔ All (IsRouteInLimits (length parts.now.nodes) (length parts.now.links)) parts.now.routes }
{
    let node_count = parts.nodes.len();
    let link_count = parts.links.len();
    let routes = parts.routes.as_slice();
    routes
        .iter()
        .all(|route| route_is_in_limits(node_count, link_count, *route))
}

/// Whether each route comes before all later ones.
fn routes_rise(parts: &ScenarioParts) -> bool
    ensures { IsTrue result ↔ AllPairs IsRouteBefore parts.now.routes }
{
    let routes = parts.routes.as_slice();
    routes.is_sorted_by(route_is_before)
}

/// Whether each number of the parts is in its range, and the routes rise.
pub fn is_in_limits(parts: &ScenarioParts) -> bool
    ensures { IsTrue result ↔ IsInLimits parts.now }
{
    is_between(1, LATEST_END, parts.end)
        && counts_are_in_limits(parts)
        && links_are_in_limits(parts)
        && flows_are_in_limits(parts)
        && routes_are_in_limits(parts)
        && routes_rise(parts)
}
