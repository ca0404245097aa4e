//! The parts of an image that is refused, read as they stand.
ghost use Rattle.std.specs.Prelude.{◌≡◌, IfSome, length};

use scenario_image::layout::{
    HEADER, LINK, LOST, LOST_COUNT, ROUTE, flow_count, flow_size, link_count, long_at, node_count,
    route_count, short_at, version_of,
};
use scenario_image::reading::{new_flow, node_of, route_of};
use scenario_image::{
    FlowPart, LinkPart, NodeKind, RENO, Records, RoutePart, ScenarioParts, Version, plain_link,
};
use std::alloc::{AllocError, Global};

/// The bytes that are still to be read.
#[derive(Drop)]
struct Left<'a> {
    bytes: &'a [u8],
}

impl<'a> Left<'a> {
    /// The next bytes, so many, if there are.
    fn take(&mut self, count: usize) -> Option<&'a [u8]>
        ensures { IfSome result (λ front. length front.now ≡ count) }
    {
        if count > self.bytes.len() {
            return None;
        }
        let (front, rest) = self.bytes.split_at(count);
        self.bytes = rest;
        Some(front)
    }
}

/// The nodes that bytes stand for.
fn read_nodes(alloc: Global, bytes: &[u8]) -> Result<Option<Records<NodeKind>>, AllocError> {
    let mut nodes = Vec::new(alloc);
    for byte in bytes {
        match node_of(*byte) {
            Some(kind) => nodes.push(kind)?,
            None => return Ok(None),
        }
    }
    Ok(Some(Records::new(nodes)))
}

/// The next link, without how its queue drops and which packets it loses.
fn read_link(alloc: Global, left: &mut Left<'_>) -> Option<LinkPart> {
    let bytes = left.take(LINK)?;
    let _lose = left.take(LOST * usize::from(bytes[LOST_COUNT]))?;
    Some(LinkPart {
        rate: long_at(bytes, 4),
        delay: long_at(bytes, 12),
        capacity: short_at(bytes, 21),
        ..plain_link(alloc, short_at(bytes, 0), short_at(bytes, 2))
    })
}

/// The next links, so many.
fn read_links(
    alloc: Global,
    count: usize,
    left: &mut Left<'_>,
) -> Result<Option<Records<LinkPart>>, AllocError> {
    let mut links = Vec::new(alloc);
    for _ in 0..count {
        match read_link(alloc, left) {
            Some(part) => links.push(part)?,
            None => return Ok(None),
        }
    }
    Ok(Some(Records::new(links)))
}

/// The next flows, so many, as those of the first variant.
fn read_flows(
    alloc: Global,
    version: Version,
    count: usize,
    left: &mut Left<'_>,
) -> Result<Option<Records<FlowPart>>, AllocError> {
    let mut flows = Vec::new(alloc);
    for _ in 0..count {
        match left.take(flow_size(version)) {
            Some(bytes) => flows.push(new_flow(bytes, RENO))?,
            None => return Ok(None),
        }
    }
    Ok(Some(Records::new(flows)))
}

/// The next routes, so many.
fn read_routes(
    alloc: Global,
    count: usize,
    left: &mut Left<'_>,
) -> Result<Option<Records<RoutePart>>, AllocError> {
    let mut routes = Vec::new(alloc);
    for _ in 0..count {
        match left.take(ROUTE) {
            Some(bytes) => routes.push(route_of(bytes))?,
            None => return Ok(None),
        }
    }
    Ok(Some(Records::new(routes)))
}

/// The parts of an image, as far as a counterexample needs them: without how queues drop, which packets are
/// lost, and the flows' variants. `None` where there are too few bytes, or a node is of no kind.
pub fn image_parts(alloc: Global, image: &[u8]) -> Result<Option<ScenarioParts>, AllocError> {
    let mut left = Left { bytes: image };
    let Some(header) = left.take(HEADER) else {
        return Ok(None);
    };
    let Some(bytes) = left.take(node_count(header)) else {
        return Ok(None);
    };
    let Some(nodes) = read_nodes(alloc, bytes)? else {
        return Ok(None);
    };
    let Some(links) = read_links(alloc, link_count(header), &mut left)? else {
        return Ok(None);
    };
    let Some(flows) = read_flows(alloc, version_of(header), flow_count(header), &mut left)? else {
        return Ok(None);
    };
    let Some(routes) = read_routes(alloc, route_count(header), &mut left)? else {
        return Ok(None);
    };
    Ok(Some(ScenarioParts {
        end: long_at(header, 4),
        nodes,
        links,
        flows,
        routes,
    }))
}
