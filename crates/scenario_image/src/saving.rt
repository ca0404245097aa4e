//! Writing the image of a scenario, in version 2.
ghost use Rattle.std.specs.Prelude.{◌≡◌, ◌++◌, ◌<◌, length, map, OnOk, IfOk, All};
ghost use Rattle.std.specs.List.{flat_map};
ghost use Rattle.byteorder.specs.Endian.{big_bytes};
ghost use Rattle.scenario_image.specs.Limits.{AreCountsInLimits};
ghost use Rattle.scenario_image.specs.Image.{header_image, node_byte, queue_byte as byte_of_queue, codel_image, link_image, flow_image, route_image, image};
ghost use Rattle.scenario_image.specs.declared.version.Version.TheVariants.{Two};

use crate::parts::{FlowPart, LinkPart, NodeKind, RoutePart, ScenarioParts};
use crate::scenario::Scenario;
use crate::variants::byte_of;
use byteorder::{BigEndian, ByteOrder};
use sim_time::QueueKind;
use std::alloc::{AllocError, Global};

/// Adds a number of one byte.
fn put_u8(out: &mut Vec<u8>, n: u8) -> Result<(), AllocError>
    ensures { OnOk result (out.new.items ≡ out.old.items ++ big_bytes 1 n) }
{
    out.push(n)?;
    Ok(())
}

/// Adds a number of two bytes.
fn put_u16(out: &mut Vec<u8>, n: u16) -> Result<(), AllocError>
    ensures { OnOk result (out.new.items ≡ out.old.items ++ big_bytes 2 n) }
{
    let mut bytes = [0; 2];
    BigEndian::write_u16(&mut bytes, n);
    out.extend_from_slice(&bytes)?;
    Ok(())
}

/// Adds a number of four bytes.
fn put_u32(out: &mut Vec<u8>, n: u32) -> Result<(), AllocError>
    ensures { OnOk result (out.new.items ≡ out.old.items ++ big_bytes 4 n) }
{
    let mut bytes = [0; 4];
    BigEndian::write_u32(&mut bytes, n);
    out.extend_from_slice(&bytes)?;
    Ok(())
}

/// Adds a number of eight bytes.
fn put_u64(out: &mut Vec<u8>, n: u64) -> Result<(), AllocError>
    ensures { OnOk result (out.new.items ≡ out.old.items ++ big_bytes 8 n) }
{
    let mut bytes = [0; 8];
    BigEndian::write_u64(&mut bytes, n);
    out.extend_from_slice(&bytes)?;
    Ok(())
}

/// Adds the header.
fn put_header(out: &mut Vec<u8>, parts: &ScenarioParts) -> Result<(), AllocError>
    requires { AreCountsInLimits parts.now }
    ensures { OnOk result (out.new.items ≡ out.old.items ++ header_image Two parts.now) }
{
    out.extend_from_slice(b"TCB2")?;
    put_u64(out, parts.end)?;
    put_u16(out, parts.nodes.len() as u16)?;
    put_u16(out, parts.links.len() as u16)?;
    put_u16(out, parts.flows.len() as u16)?;
    put_u32(out, parts.routes.len() as u32)?;
    Ok(())
}

/// Adds the byte of each node.
fn put_nodes(out: &mut Vec<u8>, nodes: &[NodeKind]) -> Result<(), AllocError>
    ensures { OnOk result (out.new.items ≡ out.old.items ++ map node_byte nodes.now) }
{
    for kind in nodes {
        let byte = match kind {
            NodeKind::Sender => 0,
            NodeKind::Receiver => 1,
            NodeKind::Router => 2,
        };
        out.push(byte)?;
    }
    Ok(())
}

/// The byte that says which queue a link has.
fn queue_byte(queue: QueueKind) -> u8
    ensures { result ≡ byte_of_queue queue }
{
    match queue {
        QueueKind::DropTail => 0,
        QueueKind::Codel(_) => 1,
    }
}

/// Adds CoDel's target, interval and maxpacket, or zeros.
fn put_codel(out: &mut Vec<u8>, queue: QueueKind) -> Result<(), AllocError>
    ensures { OnOk result (out.new.items ≡ out.old.items ++ codel_image queue) }
{
    let (target, interval, maxpacket) = match queue {
        QueueKind::DropTail => (0, 0, 0),
        QueueKind::Codel(codel) => (codel.target, codel.interval, codel.maxpacket),
    };
    put_u64(out, target)?;
    put_u64(out, interval)?;
    put_u16(out, maxpacket)?;
    Ok(())
}

/// Adds the numbers of lost packets.
fn put_lose(out: &mut Vec<u8>, lose: &[u32]) -> Result<(), AllocError>
    ensures { OnOk result (out.new.items ≡ out.old.items ++ flat_map (big_bytes 4) lose.now) }
{
    for number in lose {
        put_u32(out, *number)?;
    }
    Ok(())
}

/// Adds a link.
fn put_link(out: &mut Vec<u8>, link: &LinkPart) -> Result<(), AllocError>
    requires { length link.now.lose < 256 }
    ensures { OnOk result (out.new.items ≡ out.old.items ++ link_image link.now) }
{
    put_u16(out, link.from)?;
    put_u16(out, link.to)?;
    put_u64(out, link.rate)?;
    put_u64(out, link.delay)?;
    put_u8(out, queue_byte(link.queue))?;
    put_u16(out, link.capacity)?;
    put_codel(out, link.queue)?;
    put_u8(out, link.lose.len() as u8)?;
    put_lose(out, link.lose.as_slice())?;
    Ok(())
}

/// Adds each link.
fn put_links(out: &mut Vec<u8>, links: &[LinkPart]) -> Result<(), AllocError>
    requires { All (λ link. length link.lose < 256) links.now }
    ensures { OnOk result (out.new.items ≡ out.old.items ++ flat_map link_image links.now) }
{
    for link in links {
        put_link(out, link)?;
    }
    Ok(())
}

/// Adds a flow.
fn put_flow(out: &mut Vec<u8>, flow: FlowPart) -> Result<(), AllocError>
    ensures { OnOk result (out.new.items ≡ out.old.items ++ flow_image Two flow) }
{
    put_u16(out, flow.sender)?;
    put_u16(out, flow.receiver)?;
    put_u16(out, flow.mss)?;
    put_u32(out, flow.segments)?;
    put_u64(out, flow.start)?;
    put_u32(out, flow.rwnd)?;
    put_u32(out, flow.delack)?;
    put_u8(out, byte_of(flow.variant))?;
    Ok(())
}

/// Adds each flow.
fn put_flows(out: &mut Vec<u8>, flows: &[FlowPart]) -> Result<(), AllocError>
    ensures { OnOk result (out.new.items ≡ out.old.items ++ flat_map (flow_image Two) flows.now) }
{
    for flow in flows {
        put_flow(out, *flow)?;
    }
    Ok(())
}

/// Adds each route.
fn put_routes(out: &mut Vec<u8>, routes: &[RoutePart]) -> Result<(), AllocError>
    ensures { OnOk result (out.new.items ≡ out.old.items ++ flat_map route_image routes.now) }
{
    for route in routes {
        put_u16(out, route.router)?;
        put_u16(out, route.destination)?;
        put_u16(out, route.link)?;
    }
    Ok(())
}

/// The image of a scenario, in version 2.
pub fn save(alloc: Global, scenario: &Scenario) -> Result<Vec<u8>, AllocError>
    ensures { IfOk result (λ bytes. bytes.items ≡ image Two scenario.now) }
{
    let parts = scenario.parts();
    let mut out = Vec::new(alloc);
    put_header(&mut out, parts)?;
    put_nodes(&mut out, parts.nodes.as_slice())?;
    put_links(&mut out, parts.links.as_slice())?;
    put_flows(&mut out, parts.flows.as_slice())?;
    put_routes(&mut out, parts.routes.as_slice())?;
    Ok(out)
}
