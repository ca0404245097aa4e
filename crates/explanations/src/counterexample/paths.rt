//! Paths that break or return.
ghost use Rattle.std.specs.Prelude.{◌≡◌, IfSome, IfOk, Some, length};
ghost use Rattle.std.specs.List.{slice_get};
ghost use Rattle.scenario_image.specs.Kinds.{link_target};
ghost use Rattle.scenario_image.specs.Limits.{IsInLimits};
ghost use Rattle.scenario_image.specs.Paths.{hop_link as link_hopped};
ghost use Rattle.scenario_image.specs.declared.parts.FlowPart.{FlowPart};
ghost use Rattle.explanations.specs.Counterexample.{flow_path, ArePassed, IsStopped, IsPathEnd, IsShown, path_fault};

use crate::counterexample::{Counterexample, Packets, PathEnd};
use scenario_image::limits::is_in_limits;
use scenario_image::paths::{hop_link, may_pass};
use scenario_image::{Path, ScenarioParts};
use std::alloc::{AllocError, Global};

/// The link that a path takes from a node, and the node that it comes to.
fn hop_from(parts: &ScenarioParts, path: Path, node: u16) -> Option<(usize, u16)>
    requires { IsInLimits parts.now }
    ensures over { IfSome result (λ hop. link_hopped parts.now path node ≡ Some hop.0) }
    ensures comes { IfSome result (λ hop. link_target parts.now.links hop.0 ≡ Some hop.1) }
{
    let link = hop_link(parts, path, node)?;
    let part = parts.links.as_slice().get(link)?;
    Some((link, part.to))
}

/// Where a node stands among some.
fn place_of(nodes: &[u16], node: u16) -> Option<usize>
    ensures { IfSome result (λ place. slice_get nodes.now place ≡ Some node) }
{
    nodes.iter().position(|other| *other == node)
}

/// Whether a path that passed some nodes stops at the one that it comes to: `Some(false)` where it may not
/// come there, and `Some(true)` where it was there.
fn stops_at(parts: &ScenarioParts, path: Path, passed: &[u16], node: u16) -> Option<bool>
    requires limits { IsInLimits parts.now }
    requires passed { ArePassed parts.now path passed.now }
    ensures { IfSome result (IsStopped parts.now path (length passed.now) node) }
{
    if !may_pass(parts, path, node) {
        return Some(false);
    }
    let _place = place_of(passed, node)?;
    Some(true)
}

/// Where a path first comes to a node that it may not come to or was at before, if it does.
fn stop_of(alloc: Global, parts: &ScenarioParts, path: Path) -> Result<Option<PathEnd>, AllocError>
    requires { IsInLimits parts.now }
    ensures { IfOk result (λ found. IfSome found (IsPathEnd parts.now path)) }
{
    let mut passed = Vec::new(alloc);
    let mut from = path.start;
    for _hops in 0..parts.nodes.len() {
        passed.push(from)?;
        let Some((link, node)) = hop_from(parts, path, from) else {
            return Ok(None);
        };
        if let Some(again) = stops_at(parts, path, &passed, node) {
            return Ok(Some(PathEnd {
                from,
                link,
                node,
                again,
            }));
        }
        from = node;
    }
    Ok(None)
}

/// Where one path of a flow breaks, or returns.
fn path_of_packets(
    alloc: Global,
    parts: &ScenarioParts,
    flow: usize,
    packets: Packets,
    path: Path,
    again: bool,
) -> Result<Option<Counterexample>, AllocError>
    requires limits { IsInLimits parts.now }
    requires flow { (part : FlowPart) × (slice_get parts.now.flows flow ≡ Some part) × (path ≡ flow_path packets part) }
    ensures { IfOk result (λ found. IfSome found (IsShown parts.now (path_fault again))) }
{
    match stop_of(alloc, parts, path)? {
        Some(stop) if stop.again == again => Ok(Some(Counterexample::Path {
            flow,
            packets,
            stop,
        })),
        _ => Ok(None),
    }
}

/// The first path that returns, or that breaks, of parts whose numbers are in their ranges.
pub(super) fn path_that(
    alloc: Global,
    parts: &ScenarioParts,
    again: bool,
) -> Result<Option<Counterexample>, AllocError>
    ensures { IfOk result (λ found. IfSome found (IsShown parts.now (path_fault again))) }
{
    if !is_in_limits(parts) {
        return Ok(None);
    }
    for (number, flow) in parts.flows.as_slice().iter().enumerate() {
        let data = path_of_packets(
            alloc,
            parts,
            number,
            Packets::Data,
            Path::of_data(*flow),
            again,
        )?;
        if data.is_some() {
            return Ok(data);
        }
        let acks = path_of_packets(
            alloc,
            parts,
            number,
            Packets::Acks,
            Path::of_acks(*flow),
            again,
        )?;
        if acks.is_some() {
            return Ok(acks);
        }
    }
    Ok(None)
}
