//! Whether each node has its links, and each end of a flow its flow.
ghost use Rattle.std.specs.Prelude.{◌≡◌, ◌<◌, ◌↔◌, IsTrue, length};
ghost use Rattle.scenario_image.specs.Ends.{outgoing_count, naming_count, HasItsLinks, HasItsEnds};

use crate::limits::MOST_ROUTER_LINKS;
use crate::parts::{FlowPart, LinkPart, NodeKind, ScenarioParts};

/// How many links leave a node.
pub fn count_outgoing(links: &[LinkPart], node: usize) -> usize
    ensures { result ≡ outgoing_count links.now node }
{
    links
        .iter()
        .filter(|link| usize::from(link.from) == node)
        .count()
}

/// How many flows name a node, at either end or at both.
pub fn count_naming(flows: &[FlowPart], node: usize) -> usize
    ensures { result ≡ naming_count flows.now node }
{
    flows
        .iter()
        .filter(|flow| usize::from(flow.sender) == node || usize::from(flow.receiver) == node)
        .count()
}

/// Whether a node of this kind has its links and, where it is a flow's end, its flow.
pub fn node_has_its_links(parts: &ScenarioParts, node: usize, kind: NodeKind) -> bool
    ensures { IsTrue result ↔ HasItsLinks parts.now node kind }
{
    let outgoing = count_outgoing(parts.links.as_slice(), node);
    match kind {
        NodeKind::Sender | NodeKind::Receiver => {
            outgoing == 1 && count_naming(parts.flows.as_slice(), node) == 1
        }
        NodeKind::Router => 1 <= outgoing && outgoing <= MOST_ROUTER_LINKS,
    }
}

/// Whether each node has its links and, where it is a flow's end, its flow.
pub(crate) fn has_its_ends(parts: &ScenarioParts) -> bool
    ensures { IsTrue result ↔ HasItsEnds parts.now }
{
    for (node, kind) in parts.nodes.as_slice().iter().enumerate() {
        if !node_has_its_links(parts, node, *kind) {
            return false;
        }
    }
    true
}
