//! The packets of a flow that wait.
ghost use Rattle.std.specs.Prelude.{◌≡◌, ◌≤◌, ◌++◌, length, IfOk, OnOk};
ghost use Rattle.std.specs.List.{flat_map, enumerate_from};
ghost use Rattle.net_machine.specs.Nodes.{parts_of};
ghost use Rattle.trace_text.specs.Dump.{numbers_below};
ghost use Rattle.flow_waits.specs.Waits.{waiting_one, waiting_from, waiting_numbered};

use crate::awaited::Awaited;
use node_core::Node;
use node_core::link::Link;
use packet_chain::Iter;
use std::alloc::{AllocError, Global};

/// The packets of a flow that wait at the links of numbers below this one, link by link in rising number.
pub(crate) fn waiting(
    alloc: Global,
    flow: u16,
    count: u16,
    nodes: &[Node],
) -> Result<Vec<Awaited>, AllocError>
    ensures { IfOk result (λ all. all.items ≡ flat_map (waiting_numbered flow (parts_of nodes.now)) (numbers_below count)) }
{
    let mut all = Vec::new(alloc);
    for number in 0..count {
        gather_numbered(&mut all, flow, number, nodes)?;
    }
    Ok(all)
}

/// Gathers those at the link of a number, at whatever node it is. After an `Err`, as below, some of them may be there.
fn gather_numbered(
    all: &mut Vec<Awaited>,
    flow: u16,
    number: u16,
    nodes: &[Node],
) -> Result<(), AllocError>
    ensures { OnOk result (all.new.items ≡ all.old.items
        ++ waiting_numbered flow (parts_of nodes.now) number) }
{
    for node in nodes {
        gather_own(all, flow, number, node.ports())?;
    }
    Ok(())
}

/// Those at the link of a number, where it is one of these.
#[tactic(auto, unfolding(crate::specs::Waits::waiting_from))]
fn gather_own(
    all: &mut Vec<Awaited>,
    flow: u16,
    number: u16,
    links: &[Link],
) -> Result<(), AllocError>
    ensures { OnOk result (all.new.items ≡ all.old.items
        ++ waiting_from flow number links.now) }
{
    for link in links {
        // That a queue is short is known from asking for its length.
        if link.port().link() == number && link.port().queue().len() > 0 {
            gather_cells(all, flow, number, link.port().queue().packets())?;
        }
    }
    Ok(())
}

/// Those of these packets, the first of which is at place 1 of a link's queue.
fn gather_cells(
    all: &mut Vec<Awaited>,
    flow: u16,
    link: u16,
    cells: Iter<'_>,
) -> Result<(), AllocError>
    requires few { length cells ≤ 65535 }
    ensures { OnOk result (all.new.items ≡ all.old.items
        ++ flat_map (waiting_one flow link) (enumerate_from 1 cells.entry)) }
{
    let mut place: u64 = 1;
    for (packet, _) in cells {
        if packet.flow == flow {
            all.push(Awaited::Waits(packet, place, link))?;
        }
        place += 1;
    }
    Ok(())
}
