//! The packets of a flow, in cells.
ghost use Rattle.std.specs.Prelude.{◌≡◌, ◌+◌, ◌*◌, ◌^◌, ◌<◌, ◌≤◌, [], ◌∷◌, ◌++◌, IfOk, OnOk, length, map, option_to_list};
ghost use Rattle.reno_sender.specs.PlanView.{sent_of};
ghost use Rattle.reno_sender.specs.Sending.{spaced};
ghost use Rattle.node_core.specs.Links.{packets_of};
ghost use Rattle.node_core.specs.Row.{data_packet, ack_packet};

use crate::free_list::FreeList;
use packet_chain::{Kind, Packet, PacketBytes, PacketChain};
use reno_sender::{AckRun, Plan};
use std::alloc::{AllocError, Global};

/// Whose packets are made, and what their cells take their memory from.
#[derive(Clone, Copy)]
pub(crate) struct Origin {
    /// The heap of their cells.
    pub(crate) alloc: Global,
    /// The number of their flow.
    pub(crate) flow: u16,
}

// The segment of this number.
fn segment(flow: u16, mss: u64, number: u64) -> Packet
    requires { mss ≤ 9000 }
    ensures { result ≡ data_packet flow mss number }
{
    Packet {
        flow,
        kind: Kind::Data,
        number,
        bytes: PacketBytes::new((mss + 40) as u16).unwrap(),
    }
}

/// The acknowledgement of this number.
pub(crate) fn acknowledgement(flow: u16, number: u64) -> Packet
    ensures { result ≡ ack_packet flow number }
{
    Packet {
        flow,
        kind: Kind::Ack,
        number,
        bytes: PacketBytes::new(40).unwrap(),
    }
}

/// A chain of one packet.
#[inline(always)]
pub(crate) fn alone(
    origin: Origin,
    free_list: &mut FreeList,
    packet: Packet,
) -> Result<PacketChain, AllocError>
    ensures { IfOk result (λ cells. packets_of cells ≡ packet ∷ []) }
{
    let cell = free_list.take(origin.alloc, packet)?;
    let mut cells = PacketChain::new(origin.alloc);
    cells.push_back(cell);
    Ok(cells)
}

// Puts so many segments at the end, from the first on.
fn push_run(
    origin: Origin,
    free_list: &mut FreeList,
    cells: &mut PacketChain,
    mss: u64,
    first: u64,
    count: u64,
) -> Result<(), AllocError>
    requires mss { mss ≤ 9000 }
    requires numbers { first + count * mss < 2 ^ 63 }
    requires few { length cells.old + count ≤ 2 ^ 49 }
    ensures { OnOk result (packets_of cells.new ≡ packets_of cells.old ++ map (data_packet origin.flow mss) (spaced first mss count)) }
{
    let mut number = first;
    for _made in 0..count {
        let cell = free_list.take(origin.alloc, segment(origin.flow, mss, number))?;
        cells.push_back(cell);
        number += mss;
    }
    Ok(())
}

/// The segment that is sent again, if one is, and then so many segments from the first on.
pub(crate) fn segments(
    origin: Origin,
    free_list: &mut FreeList,
    mss: u64,
    resent: Option<u64>,
    first: u64,
    count: u64,
) -> Result<PacketChain, AllocError>
    requires mss { mss ≤ 9000 }
    requires numbers { first + count * mss < 2 ^ 63 }
    requires few { count ≤ 2 ^ 40 }
    ensures { IfOk result (λ cells. packets_of cells ≡ map (data_packet origin.flow mss) (option_to_list resent ++ spaced first mss count)) }
{
    let mut cells = PacketChain::new(origin.alloc);
    if let Some(number) = resent {
        let cell = free_list.take(origin.alloc, segment(origin.flow, mss, number))?;
        cells.push_back(cell);
    }
    push_run(origin, free_list, &mut cells, mss, first, count)?;
    Ok(cells)
}

/// The segments of a plan: all but the last in cells of their own, and the last, if there is one.
pub(crate) fn but_last(
    origin: Origin,
    free_list: &mut FreeList,
    plan: &Plan,
) -> Result<(PacketChain, Option<Packet>), AllocError>
    ensures { IfOk result (λ made. packets_of made.0 ++ option_to_list made.1 ≡ map (data_packet origin.flow plan.now.fields.mss) (sent_of plan.now)) }
{
    let (mss, first, count) = (plan.as_fields().mss, plan.first(), plan.count());
    if count == 0 {
        let cells = PacketChain::new(origin.alloc);
        return Ok((cells, again(origin.flow, mss, plan.resent())));
    }
    let cells = segments(origin, free_list, mss, plan.resent(), first, count - 1)?;
    let last = segment(origin.flow, mss, first + (count - 1) * mss);
    Ok((cells, Some(last)))
}

/// The segments of a run: all but the last in cells of their own, and the last, if there is one.
#[inline(always)]
pub(crate) fn run_but_last(
    origin: Origin,
    free_list: &mut FreeList,
    mss: u64,
    run: AckRun,
) -> Result<(PacketChain, Option<Packet>), AllocError>
    requires mss { mss ≤ 9000 }
    requires numbers { run.first + run.count * mss < 2 ^ 63 }
    requires few { run.count ≤ 2 ^ 40 }
    ensures { IfOk result (λ made. packets_of made.0 ++ option_to_list made.1 ≡ map (data_packet origin.flow mss) (spaced run.first mss run.count)) }
{
    if run.count == 0 {
        return Ok((PacketChain::new(origin.alloc), None));
    }
    let last = segment(origin.flow, mss, run.first + (run.count - 1) * mss);
    if run.count == 1 {
        return Ok((PacketChain::new(origin.alloc), Some(last)));
    }
    if run.count == 2 {
        // An acknowledgement of two segments lets two go: a loop for one cell would cost more than the cell.
        let first = segment(origin.flow, mss, run.first);
        return Ok((alone(origin, free_list, first)?, Some(last)));
    }
    let cells = segments(origin, free_list, mss, None, run.first, run.count - 1)?;
    Ok((cells, Some(last)))
}

// The segment that is sent again, if one is.
fn again(flow: u16, mss: u64, resent: Option<u64>) -> Option<Packet>
    requires { mss ≤ 9000 }
    ensures { option_to_list result ≡ map (data_packet flow mss) (option_to_list resent) }
{
    match resent {
        Some(number) => Some(segment(flow, mss, number)),
        None => None,
    }
}
