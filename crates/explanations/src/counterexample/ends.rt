//! Nodes without their flow or their links.
ghost use Rattle.std.specs.Prelude.{IfSome};
ghost use Rattle.explanations.specs.Counterexample.{IsShown};
ghost use Rattle.scenario_image.specs.declared.fault.LoadFault.TheVariants.{L5};

use crate::counterexample::Counterexample;
use scenario_image::ScenarioParts;
use scenario_image::ends::{count_naming, count_outgoing, node_has_its_links};

/// The first node without its flow or its links.
pub(super) fn end_without(parts: &ScenarioParts) -> Option<Counterexample>
    ensures { IfSome result (IsShown parts.now L5) }
{
    for (node, kind) in parts.nodes.as_slice().iter().enumerate() {
        if !node_has_its_links(parts, node, *kind) {
            return Some(Counterexample::Ends {
                node,
                kind: *kind,
                flows: count_naming(parts.flows.as_slice(), node),
                links: count_outgoing(parts.links.as_slice(), node),
            });
        }
    }
    None
}
