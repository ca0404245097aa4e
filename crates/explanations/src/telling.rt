//! A counterexample as it is told: a line that says what is wrong where, and a line with a statement that
//! would mend it.

use crate::counterexample::{Counterexample, Packets, PathEnd, TooFew, first_counterexample};
use scenario_image::{LoadFault, NodeKind, ScenarioParts};
use std::alloc::{AllocError, Global};
use std::fmt;

/// What nodes, links and flows are called, by their numbers. What has no name is called by its number,
/// as all of an image are.
#[derive(Clone, Copy)]
pub struct Names<'a> {
    /// The nodes' names.
    pub nodes: &'a [&'a [u8]],
    /// The links' names.
    pub links: &'a [&'a [u8]],
    /// The flows' names.
    pub flows: &'a [&'a [u8]],
}

impl Names<'static> {
    /// Nothing has a name.
    pub const NONE: Names<'static> = Names {
        nodes: &[],
        links: &[],
        flows: &[],
    };
}

/// A thing by its name, or else by its number.
#[derive(Clone, Copy)]
struct Called<'a>(&'a [&'a [u8]], usize);

impl<'a> fmt::Display for Called<'a> {
    fn fmt<W: fmt::Write>(&self, f: &mut fmt::Formatter<W>) -> fmt::Result {
        let Some(name) = self.0.get(self.1) else {
            return write!(f, "{}", self.1);
        };
        for byte in *name {
            f.write_char(char::from(*byte))?;
        }
        Ok(())
    }
}

/// The parts of a refused input, with their names.
#[derive(Clone, Copy)]
struct Refused<'a> {
    parts: &'a ScenarioParts,
    names: &'a Names<'a>,
}

/// A node by what it does and by its name.
#[derive(Clone, Copy)]
struct Node<'a>(Refused<'a>, usize);

impl<'a> fmt::Display for Node<'a> {
    fn fmt<W: fmt::Write>(&self, f: &mut fmt::Formatter<W>) -> fmt::Result {
        f.write_str(match self.0.parts.nodes.as_slice().get(self.1) {
            Some(NodeKind::Sender) => "sender ",
            Some(NodeKind::Receiver) => "receiver ",
            Some(NodeKind::Router) => "router ",
            None => "node ",
        })?;
        Called(self.0.names.nodes, self.1).fmt(f)
    }
}

/// A node by its name, or by what it does where it has none.
#[derive(Clone, Copy)]
struct Goal<'a>(Refused<'a>, usize);

impl<'a> fmt::Display for Goal<'a> {
    fn fmt<W: fmt::Write>(&self, f: &mut fmt::Formatter<W>) -> fmt::Result {
        if self.1 < self.0.names.nodes.len() {
            Called(self.0.names.nodes, self.1).fmt(f)
        } else {
            Node(self.0, self.1).fmt(f)
        }
    }
}

/// The node that a link leaves, where there is the link.
#[derive(Clone, Copy)]
struct Of<'a>(Refused<'a>, usize);

impl<'a> fmt::Display for Of<'a> {
    fn fmt<W: fmt::Write>(&self, f: &mut fmt::Formatter<W>) -> fmt::Result {
        match self.0.parts.links.as_slice().get(self.1) {
            Some(link) => write!(f, " of {}", Node(self.0, usize::from(link.from))),
            None => Ok(()),
        }
    }
}

/// Too few of some things.
fn tell_few(
    out: &mut String,
    things: &str,
    count: usize,
    least: u8,
    statement: &str,
) -> Result<(), AllocError> {
    write!(
        out,
        "L3: {things} that are declared: {count}; wanted: {least} at least\n{statement}\n"
    )
}

impl<'a> Refused<'a> {
    /// The last flow that names a node.
    fn last_flow(self, node: usize) -> usize {
        let mut last = 0;
        for (number, flow) in self.parts.flows.as_slice().iter().enumerate() {
            if usize::from(flow.sender) == node || usize::from(flow.receiver) == node {
                last = number;
            }
        }
        last
    }

    /// The last link that leaves a node.
    fn last_link(self, node: usize) -> usize {
        let mut last = 0;
        for (number, link) in self.parts.links.as_slice().iter().enumerate() {
            if usize::from(link.from) == node {
                last = number;
            }
        }
        last
    }

    /// A flow that starts at the end or later.
    fn tell_late(self, out: &mut String, flow: usize) -> Result<(), AllocError> {
        let Some(part) = self.parts.flows.as_slice().get(flow) else {
            return Ok(());
        };
        let (name, start, end) = (Called(self.names.flows, flow), part.start, self.parts.end);
        let more = start.saturating_add(1);
        write!(
            out,
            "L3: flow {name} starts at {start}, and the end is {end}\nsim {more}\n"
        )
    }

    /// A node with another number of flows than one.
    fn tell_flows(
        self,
        out: &mut String,
        node: usize,
        kind: NodeKind,
        flows: usize,
    ) -> Result<(), AllocError> {
        let (whole, name) = (Node(self, node), Called(self.names.nodes, node));
        if flows > 0 {
            let last = Called(self.names.flows, self.last_flow(node));
            return write!(out, "L5: {flows} flows name {whole}\n# flow {last}\n");
        }
        write!(out, "L5: no flow names {whole}\nflow NAME ")?;
        match kind {
            NodeKind::Receiver => write!(out, "SENDER {name}")?,
            NodeKind::Sender | NodeKind::Router => write!(out, "{name} RECEIVER")?,
        }
        out.push_str(" MSS SEGMENTS START RWND DELACK\n")
    }

    /// A node with another number of links than may leave it.
    fn tell_links(self, out: &mut String, node: usize, links: usize) -> Result<(), AllocError> {
        let whole = Node(self, node);
        if links > 0 {
            let last = Called(self.names.links, self.last_link(node));
            return write!(out, "L5: {links} links leave {whole}\n# link {last}\n");
        }
        let name = Called(self.names.nodes, node);
        write!(
            out,
            "L5: no link leaves {whole}\nlink NAME {name} TO RATE DELAY droptail CAP\n"
        )
    }

    /// A flow that does not go from a sender to a receiver.
    fn tell_flow_kinds(self, out: &mut String, flow: usize) -> Result<(), AllocError> {
        let Some(part) = self.parts.flows.as_slice().get(flow) else {
            return Ok(());
        };
        let name = Called(self.names.flows, flow);
        let from = Node(self, usize::from(part.sender));
        let to = Node(self, usize::from(part.receiver));
        write!(
            out,
            "L6: flow {name} goes from {from} to {to}\nflow {name} SENDER RECEIVER MSS SEGMENTS START RWND DELACK\n"
        )
    }

    /// A link into the node that it leaves.
    fn tell_link_kinds(self, out: &mut String, link: usize) -> Result<(), AllocError> {
        let Some(part) = self.parts.links.as_slice().get(link) else {
            return Ok(());
        };
        let (name, node) = (Called(self.names.links, link), usize::from(part.from));
        let (whole, from) = (Node(self, node), Called(self.names.nodes, node));
        write!(
            out,
            "L6: link {name} leaves {whole} and comes to it\nlink {name} {from} TO RATE DELAY droptail CAP\n"
        )
    }

    /// A route that is not a router's, for a sender or receiver, over a link that leaves the router.
    fn tell_route_kinds(self, out: &mut String, route: usize) -> Result<(), AllocError> {
        let Some(part) = self.parts.routes.as_slice().get(route) else {
            return Ok(());
        };
        let (at, to) = (
            Node(self, usize::from(part.router)),
            Node(self, usize::from(part.destination)),
        );
        let number = usize::from(part.link);
        let (link, of) = (Called(self.names.links, number), Of(self, number));
        write!(
            out,
            "L6: route {route} is of {at}, for {to}, over link {link}{of}\nroute ROUTER DEST LINK\n"
        )
    }

    /// A path that comes where it may not, or returns: what goes it, and what to write.
    fn tell_path(
        self,
        out: &mut String,
        flow: usize,
        packets: Packets,
        stop: PathEnd,
    ) -> Result<(), AllocError> {
        let Some(part) = self.parts.flows.as_slice().get(flow) else {
            return Ok(());
        };
        let (word, goal) = match packets {
            Packets::Data => ("data", part.receiver),
            Packets::Acks => ("acknowledgements", part.sender),
        };
        let code = if stop.again { "L8" } else { "L7" };
        let name = Called(self.names.flows, flow);
        write!(out, "{code}: {word} of flow {name} ")?;
        self.tell_stop(out, stop, usize::from(goal))
    }

    /// Whether a node is a router.
    fn is_router(self, node: u16) -> bool {
        matches!(
            self.parts.nodes.as_slice().get(usize::from(node)),
            Some(NodeKind::Router)
        )
    }

    /// Where a path to a node stops: at one again, at a router without a route, or at another end.
    fn tell_stop(self, out: &mut String, stop: PathEnd, goal: usize) -> Result<(), AllocError> {
        if stop.again {
            self.tell_return(out, stop, goal)
        } else if self.is_router(stop.node) {
            self.tell_no_route(out, usize::from(stop.node), goal)
        } else {
            self.tell_other_end(out, stop, goal)
        }
    }

    /// A path that returns: the route of the last node is to be another.
    fn tell_return(self, out: &mut String, stop: PathEnd, goal: usize) -> Result<(), AllocError> {
        let (at, from) = (
            Node(self, usize::from(stop.node)),
            Node(self, usize::from(stop.from)),
        );
        let (last, to) = (
            Called(self.names.nodes, usize::from(stop.from)),
            Called(self.names.nodes, goal),
        );
        write!(
            out,
            "come to {at} again, from {from}\nroute {last} {to} LINK\n"
        )
    }

    /// A path that comes to a router without a route.
    fn tell_no_route(self, out: &mut String, node: usize, goal: usize) -> Result<(), AllocError> {
        let (at, to) = (Node(self, node), Goal(self, goal));
        let (router, end) = (
            Called(self.names.nodes, node),
            Called(self.names.nodes, goal),
        );
        write!(
            out,
            "stop at {at}: no route for {to}\nroute {router} {end} LINK\n"
        )
    }

    /// A path that comes to another end than its own: over a router's route, or over the link of its
    /// start.
    fn tell_other_end(
        self,
        out: &mut String,
        stop: PathEnd,
        goal: usize,
    ) -> Result<(), AllocError> {
        let (at, to) = (Node(self, usize::from(stop.node)), Goal(self, goal));
        let link = Called(self.names.links, stop.link);
        write!(out, "come to {at} over link {link}, and not to {to}\n")?;
        let (from, end) = (
            Called(self.names.nodes, usize::from(stop.from)),
            Called(self.names.nodes, goal),
        );
        if self.is_router(stop.from) {
            write!(out, "route {from} {end} LINK\n")
        } else {
            write!(out, "link {link} {from} {end} RATE DELAY droptail CAP\n")
        }
    }

    /// What shows that the parts are no scenario.
    fn tell(self, out: &mut String, counterexample: Counterexample) -> Result<(), AllocError> {
        match counterexample {
            Counterexample::Few { sort, count } => match sort {
                TooFew::Nodes => tell_few(out, "nodes", count, 2, "node NAME KIND"),
                TooFew::Links => tell_few(
                    out,
                    "links",
                    count,
                    1,
                    "link NAME FROM TO RATE DELAY droptail CAP",
                ),
                TooFew::Flows => tell_few(
                    out,
                    "flows",
                    count,
                    1,
                    "flow NAME SENDER RECEIVER MSS SEGMENTS START RWND DELACK",
                ),
            },
            Counterexample::Late { flow } => self.tell_late(out, flow),
            Counterexample::Ends {
                node,
                kind,
                flows,
                links,
            } => {
                if flows == 1 || matches!(kind, NodeKind::Router) {
                    self.tell_links(out, node, links)
                } else {
                    self.tell_flows(out, node, kind, flows)
                }
            }
            Counterexample::FlowKinds { flow } => self.tell_flow_kinds(out, flow),
            Counterexample::LinkKinds { link } => self.tell_link_kinds(out, link),
            Counterexample::RouteKinds { route } => self.tell_route_kinds(out, route),
            Counterexample::Path {
                flow,
                packets,
                stop,
            } => self.tell_path(out, flow, packets, stop),
        }
    }
}

/// The faults of which a counterexample is told, with their codes.
const TOLD: [(&str, LoadFault); 5] = [
    ("L3", LoadFault::L3),
    ("L5", LoadFault::L5),
    ("L6", LoadFault::L6),
    ("L7", LoadFault::L7),
    ("L8", LoadFault::L8),
];

/// What shows first that parts have the fault of this code, as it is told: a line that says it, and a line
/// with a statement that would mend it, or with a number sign before one that is too many.
pub fn tell_counterexample(
    alloc: Global,
    code: &str,
    parts: &ScenarioParts,
    names: &Names,
) -> Result<Option<String>, AllocError> {
    for (told, fault) in TOLD {
        if told == code {
            let Some(counterexample) = first_counterexample(alloc, fault, parts)? else {
                return Ok(None);
            };
            let mut text = String::new(alloc);
            Refused { parts, names }.tell(&mut text, counterexample)?;
            return Ok(Some(text));
        }
    }
    Ok(None)
}
