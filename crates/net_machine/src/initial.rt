//! A scenario's nodes before anything is sent, and the ends of its links.
ghost use Rattle.std.specs.Prelude.{◌≡◌, ◌<◌, ◌≤◌, All, IfOk, length};
ghost use Rattle.scenario_image.specs.declared.parts.LinkPart.{LinkPart};
ghost use Rattle.net_machine.specs.Nodes.{initial_nodes};
ghost use Rattle.net_machine.specs.Wiring.{AreEnds};

use crate::places::{EndPlace, LinkEnds};
use node_core::Node;
use scenario_image::limits::MOST_NODES;
use scenario_image::{LinkPart, Scenario};
use std::alloc::{AllocError, Global};

/// The nodes of a scenario, each at its number, before anything is sent.
pub(crate) fn nodes_of(alloc: Global, scenario: &Scenario) -> Result<Vec<Node>, AllocError>
    ensures { IfOk result (λ nodes. nodes.items ≡ initial_nodes scenario.now) }
{
    let count = scenario.parts().nodes.len();
    let mut nodes = Vec::new(alloc);
    for number in 0..count {
        nodes.push(Node::new(alloc, scenario, number as u16)?)?;
    }
    Ok(nodes)
}

/// For each link where it leaves and ends.
pub(crate) fn ends_of(alloc: Global, links: &[LinkPart]) -> Result<Vec<LinkEnds>, AllocError>
    requires nodes { All (λ (link : LinkPart). link.to < 256) links.now }
    requires few { length links.now ≤ 1024 }
    ensures { IfOk result (λ ends. AreEnds links.now ends.items) }
{
    // How many of the links so far end at each node.
    let mut coming = [0u16; MOST_NODES];
    let mut ends = Vec::new(alloc);
    for link in links {
        let node = usize::from(link.to);
        let index = coming[node];
        coming[node] = index + 1;
        ends.push(LinkEnds {
            from: link.from,
            to: EndPlace {
                node: link.to,
                index,
            },
            delay: link.delay,
        })?;
    }
    Ok(ends)
}
