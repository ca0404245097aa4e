//! Reading the parts of an image, whose bytes are known to be there.
ghost use Rattle.std.specs.Prelude.{◌≡◌, ◌≤◌, ◌*◌, ◌+◌, IfOk, length, take, drop, slice_index};
ghost use Rattle.byteorder.specs.Endian.{big_number};
ghost use Rattle.scenario_image.specs.Layout.{version_of as version_in, node_count as node_count_of, flow_count as flow_count_of, route_count as route_count_of, link_size as size_of_link, links_size, flow_size as size_of_flow, layout_size};
ghost use Rattle.scenario_image.specs.Reading.{Gives, each_at, node_of_byte, nodes_at, codel_at, queue_of_byte, link_with, link_in_front, links_at, variant_at as variant_in, flow_with, flow_at, flows_at, route_at, parts_behind, parts_at};

use crate::fault::LoadFault;
use crate::layout::{
    FLOW, HEADER, LINK, LOST, LOST_COUNT, ROUTE, behind, flow_count, flow_size, flows_size,
    link_count, link_size, long_at, node_count, number_at, route_count, short_at, version_of,
};
use crate::parts::{FlowPart, LinkPart, NodeKind, RoutePart, ScenarioParts};
use crate::records::Records;
use crate::variants::variant_of;
use crate::version::Version;
use byteorder::{BigEndian, ByteOrder};
use sim_time::{CodelParameters, QueueKind, RENO, Variant};
use std::alloc::{AllocError, Global};

/// The node that a byte stands for.
pub fn node_of(byte: u8) -> Option<NodeKind>
    ensures { result ≡ node_of_byte byte }
{
    match byte {
        0 => Some(NodeKind::Sender),
        1 => Some(NodeKind::Receiver),
        2 => Some(NodeKind::Router),
        _ => None,
    }
}

/// The nodes that bytes stand for.
fn nodes_of(alloc: Global, bytes: &[u8]) -> Result<Vec<NodeKind>, LoadFault>
    ensures { Gives (λ nodes. nodes.items) result (nodes_at bytes.now) }
{
    let mut nodes = Vec::new(alloc);
    for byte in bytes {
        match node_of(*byte) {
            Some(kind) => nodes.push(kind)?,
            None => return Err(LoadFault::L3),
        }
    }
    Ok(nodes)
}

/// The numbers where CoDel's stand in a link's bytes.
fn codel_of(bytes: &[u8]) -> CodelParameters
    requires { LINK ≤ length bytes.now }
    ensures { result ≡ codel_at bytes.now }
{
    CodelParameters {
        target: long_at(bytes, 23),
        interval: long_at(bytes, 31),
        maxpacket: short_at(bytes, 39),
    }
}

/// The queue that a byte stands for, with these numbers where CoDel's stand.
fn queue_of(byte: u8, codel: CodelParameters) -> Option<QueueKind>
    ensures { result ≡ queue_of_byte byte codel }
{
    let is_unset = codel.target == 0 && codel.interval == 0 && codel.maxpacket == 0;
    match byte {
        0 if is_unset => Some(QueueKind::DropTail),
        1 => Some(QueueKind::Codel(codel)),
        _ => None,
    }
}

/// So many numbers of lost packets.
fn lose_of(alloc: Global, count: usize, bytes: &[u8]) -> Result<Vec<u32>, AllocError>
    requires { LOST * count ≤ length bytes.now }
    ensures { IfOk result (λ lose. lose.items ≡ each_at LOST (big_number 4) count bytes.now) }
{
    let mut lose = Vec::new(alloc);
    let mut rest = bytes;
    for _ in 0..count {
        lose.push(BigEndian::read_u32(rest))?;
        rest = behind(rest, LOST);
    }
    Ok(lose)
}

/// The link at the front, with its queue and its lost packets.
fn new_link(bytes: &[u8], queue: QueueKind, lose: Records<u32>) -> LinkPart
    requires enough { LINK ≤ length bytes.now }
    requires lose { lose ≡ each_at LOST (big_number 4) (slice_index bytes.now LOST_COUNT) (drop LINK bytes.now) }
    ensures { result ≡ link_with bytes.now queue }
{
    LinkPart {
        from: BigEndian::read_u16(bytes),
        to: short_at(bytes, 2),
        rate: long_at(bytes, 4),
        delay: long_at(bytes, 12),
        queue,
        capacity: short_at(bytes, 21),
        lose,
    }
}

/// The link at the front.
fn link_of(alloc: Global, bytes: &[u8]) -> Result<LinkPart, LoadFault>
    requires { size_of_link bytes.now ≤ length bytes.now }
    ensures { Gives (λ link. link) result (link_in_front bytes.now) }
{
    let Some(queue) = queue_of(bytes[20], codel_of(bytes)) else {
        return Err(LoadFault::L3);
    };
    let lose = lose_of(alloc, usize::from(bytes[LOST_COUNT]), behind(bytes, LINK))?;
    Ok(new_link(bytes, queue, Records::new(lose)))
}

/// So many links, and the bytes behind them.
fn links_of(alloc: Global, count: usize, bytes: &[u8]) -> Result<(Vec<LinkPart>, &[u8]), LoadFault>
    requires { links_size count bytes.now ≤ length bytes.now }
    ensures { Gives (λ links. (links.0.items, links.1.now)) result (links_at count bytes.now) }
{
    let mut links = Vec::new(alloc);
    let mut rest = bytes;
    for _ in 0..count {
        links.push(link_of(alloc, rest)?)?;
        rest = behind(rest, link_size(rest));
    }
    Ok((links, rest))
}

/// The variant of the flow at the front.
fn variant_at(version: Version, bytes: &[u8]) -> Option<Variant>
    requires { size_of_flow version ≤ length bytes.now }
    ensures { result ≡ variant_in version bytes.now }
{
    match version {
        Version::One => Some(RENO),
        Version::Two => variant_of(bytes[FLOW]),
    }
}

/// The flow at the front, with its variant.
pub fn new_flow(bytes: &[u8], variant: Variant) -> FlowPart
    requires { FLOW ≤ length bytes.now }
    ensures { result ≡ flow_with bytes.now variant }
{
    FlowPart {
        sender: BigEndian::read_u16(bytes),
        receiver: short_at(bytes, 2),
        mss: short_at(bytes, 4),
        segments: number_at(bytes, 6),
        start: long_at(bytes, 10),
        rwnd: number_at(bytes, 18),
        delack: number_at(bytes, 22),
        variant,
    }
}

/// The flow at the front.
fn flow_of(version: Version, bytes: &[u8]) -> Option<FlowPart>
    requires { size_of_flow version ≤ length bytes.now }
    ensures { result ≡ flow_at version bytes.now }
{
    let variant = variant_at(version, bytes)?;
    Some(new_flow(bytes, variant))
}

/// So many flows.
fn flows_of(
    alloc: Global,
    version: Version,
    count: usize,
    bytes: &[u8],
) -> Result<Vec<FlowPart>, LoadFault>
    requires { size_of_flow version * count ≤ length bytes.now }
    ensures { Gives (λ flows. flows.items) result (flows_at version count bytes.now) }
{
    let mut flows = Vec::new(alloc);
    let mut rest = bytes;
    for _ in 0..count {
        let Some(flow) = flow_of(version, rest) else {
            return Err(LoadFault::L3);
        };
        flows.push(flow)?;
        rest = behind(rest, flow_size(version));
    }
    Ok(flows)
}

/// The route at the front.
pub fn route_of(bytes: &[u8]) -> RoutePart
    requires { ROUTE ≤ length bytes.now }
    ensures { result ≡ route_at bytes.now }
{
    RoutePart {
        router: BigEndian::read_u16(bytes),
        destination: short_at(bytes, 2),
        link: short_at(bytes, 4),
    }
}

/// So many routes.
fn routes_of(alloc: Global, count: usize, bytes: &[u8]) -> Result<Vec<RoutePart>, AllocError>
    requires { ROUTE * count ≤ length bytes.now }
    ensures { IfOk result (λ routes. routes.items ≡ each_at ROUTE route_at count bytes.now) }
{
    let mut routes = Vec::new(alloc);
    let mut rest = bytes;
    for _ in 0..count {
        routes.push(route_of(rest))?;
        rest = behind(rest, ROUTE);
    }
    Ok(routes)
}

/// The bytes of the nodes.
fn node_bytes(bytes: &[u8]) -> &[u8]
    requires header { HEADER ≤ length bytes.now }
    requires enough { node_count_of bytes.now ≤ length (drop HEADER bytes.now) }
    ensures { result.now ≡ take (node_count_of bytes.now) (drop HEADER bytes.now) }
{
    let (nodes, _) = behind(bytes, HEADER).split_at(node_count(bytes));
    nodes
}

/// The parts with these nodes and links, and the bytes behind them. The flows and routes stand at
/// the front of the rest.
fn parts_from<'a>(
    alloc: Global,
    bytes: &[u8],
    nodes: Records<NodeKind>,
    links: Records<LinkPart>,
    rest: &'a [u8],
) -> Result<(ScenarioParts, &'a [u8]), LoadFault>
    requires header { HEADER ≤ length bytes.now }
    requires enough { size_of_flow (version_in bytes.now) * flow_count_of bytes.now + ROUTE * route_count_of bytes.now ≤ length rest.now }
    ensures { Gives (λ parts. (parts.0, parts.1.now)) result (parts_behind bytes.now nodes (links, rest.now)) }
{
    let (version, count) = (version_of(bytes), flow_count(bytes));
    let flows = flows_of(alloc, version, count, rest)?;
    let rest = behind(rest, flows_size(version, count));
    let routes = routes_of(alloc, route_count(bytes), rest)?;
    let parts = ScenarioParts {
        end: long_at(bytes, 4),
        nodes,
        links,
        flows: Records::new(flows),
        routes: Records::new(routes),
    };
    Ok((parts, behind(rest, ROUTE * route_count(bytes))))
}

/// All parts of an image, and the bytes behind them.
pub(crate) fn parts_of(alloc: Global, bytes: &[u8]) -> Result<(ScenarioParts, &[u8]), LoadFault>
    requires { layout_size bytes.now ≤ length bytes.now }
    ensures { Gives (λ parts. (parts.0, parts.1.now)) result (parts_at bytes.now) }
{
    let nodes = nodes_of(alloc, node_bytes(bytes))?;
    let link_bytes = behind(bytes, HEADER + node_count(bytes));
    let (links, rest) = links_of(alloc, link_count(bytes), link_bytes)?;
    let (nodes, links) = (Records::new(nodes), Records::new(links));
    parts_from(alloc, bytes, nodes, links, rest)
}
