//! What shows that parts are no scenario: the first node, link, flow, route or path that is at fault.
ghost use Rattle.std.specs.Prelude.{IfSome, IfOk};
ghost use Rattle.explanations.specs.Counterexample.{IsShown, WitnessesShowFaults};
ghost use Rattle.scenario_image.specs.declared.fault.LoadFault.TheVariants.{L3};

mod ends;
mod kinds;
mod paths;

use crate::counterexample::ends::end_without;
use crate::counterexample::kinds::wrong_kind;
use crate::counterexample::paths::path_that;
use scenario_image::{LoadFault, NodeKind, ScenarioParts};
use std::alloc::{AllocError, Global};

/// What goes a path.
#[derive(Clone, Copy)]
pub enum Packets {
    /// Data, from a flow's sender to its receiver.
    Data,
    /// Acknowledgements, back.
    Acks,
}

/// Where a path comes to a node that it may not come to.
#[derive(Clone, Copy)]
pub struct PathEnd {
    /// The node before.
    pub from: u16,
    /// The link from there.
    pub link: usize,
    /// The node that it comes to.
    pub node: u16,
    /// Whether it was at that node before; else it may not be there at all.
    pub again: bool,
}

/// What a scenario has of which it can have too few.
#[derive(Clone, Copy)]
pub enum TooFew {
    /// Nodes, of which it has two at least.
    Nodes,
    /// Links.
    Links,
    /// Flows.
    Flows,
}

/// What shows that parts are no scenario.
#[derive(Clone, Copy)]
pub enum Counterexample {
    /// Too few of a sort (L3).
    Few {
        /// Of which.
        sort: TooFew,
        /// How many there are.
        count: usize,
    },
    /// A flow that starts at the end or later (L3).
    Late {
        /// The flow's number.
        flow: usize,
    },
    /// A node of this kind, with so many flows that name it and links that leave it (L5).
    Ends {
        /// The node's number.
        node: usize,
        /// What it does.
        kind: NodeKind,
        /// How many flows name it.
        flows: usize,
        /// How many links leave it.
        links: usize,
    },
    /// A flow that does not go from a sender to a receiver (L6).
    FlowKinds {
        /// The flow's number.
        flow: usize,
    },
    /// A link into the node that it leaves (L6).
    LinkKinds {
        /// The link's number.
        link: usize,
    },
    /// A route that is not a router's, for a sender or receiver, over a link that leaves the router
    /// (L6).
    RouteKinds {
        /// The route's number.
        route: usize,
    },
    /// A path that breaks (L7) or returns (L8).
    Path {
        /// The flow's number.
        flow: usize,
        /// Which of its two paths.
        packets: Packets,
        /// Where.
        stop: PathEnd,
    },
}

/// Too few nodes, links or flows.
fn too_few(parts: &ScenarioParts) -> Option<Counterexample>
    ensures { IfSome result (IsShown parts.now L3) }
{
    for (sort, count, least) in [
        (TooFew::Nodes, parts.nodes.len(), 2),
        (TooFew::Links, parts.links.len(), 1),
        (TooFew::Flows, parts.flows.len(), 1),
    ] {
        if count < least {
            return Some(Counterexample::Few { sort, count });
        }
    }
    None
}

/// The first flow that starts at the end or later.
fn late_flow(parts: &ScenarioParts) -> Option<Counterexample>
    ensures { IfSome result (IsShown parts.now L3) }
{
    for (number, flow) in parts.flows.as_slice().iter().enumerate() {
        if flow.start >= parts.end {
            return Some(Counterexample::Late { flow: number });
        }
    }
    None
}

/// What shows first that parts have a fault, one of L3 and L5 to L8, if it is found.
pub fn first_counterexample(
    alloc: Global,
    fault: LoadFault,
    parts: &ScenarioParts,
) -> Result<Option<Counterexample>, AllocError>
    ensures { IfOk result (λ found. IfSome found (IsShown parts.now fault)) }
{
    match fault {
        LoadFault::L3 => Ok(too_few(parts).or(late_flow(parts))),
        LoadFault::L5 => Ok(end_without(parts)),
        LoadFault::L6 => Ok(wrong_kind(parts)),
        LoadFault::L7 => path_that(alloc, parts, false),
        LoadFault::L8 => path_that(alloc, parts, true),
        LoadFault::L1 | LoadFault::L2 | LoadFault::L4 | LoadFault::NoMemory => Ok(None),
    }
}

/// Parts of which a counterexample says something have the fault that it shows.
pub fn witnesses_show_faults()
    ensures { WitnessesShowFaults }
{}
