//! A good partition of a scenario's nodes, found from what its flows are expected to do.
ghost use Rattle.std.specs.Prelude.{◌≡◌, ◌<◌, ◌≤◌, All, IfSome, length};
ghost use Rattle.scenario_image.specs.declared.parts.LinkPart.{LinkPart};
ghost use Rattle.scenario_image.specs.Limits.{IsInLimits};

mod forecast;
mod packing;

use forecast::{Forecast, WHOLE, busy_nodes, forecast_of};
use packing::{packed, place_of_greatest};
use scenario_image::limits::MOST_NODES;
use scenario_image::{LinkPart, ScenarioParts};
use sim_time::Time;

// What a run costs, in tenths of an event of a run of one event at a time, which takes some 80
// nanoseconds: the most that each event may cost in a run in windows, so that it gains a tenth; each
// event of the group with the most, for which the others wait while they make text; and each window,
// for which threads are told of it and waited for (bench/RESULTS.md).
const MOST_AN_EVENT: u64 = 9;

const IN_FULLEST_GROUP: u64 = 13;

const A_WINDOW: u64 = 10_000;

// What a run in so many windows costs, in tenths of an event, where the group with the most has so many events.
fn cost(most: u64, windows: u64) -> u64 {
    windows
        .saturating_mul(A_WINDOW)
        .saturating_add(most.saturating_mul(IN_FULLEST_GROUP))
}

// The sum of these.
fn total(counts: &[u64]) -> u64 {
    let mut total: u64 = 0;
    for count in counts {
        total = total.saturating_add(*count);
    }
    total
}

// The longest delay of a link that is below another, in nanoseconds.
fn longest_below(links: &[LinkPart], other: Time) -> Option<Time> {
    let mut longest = None;
    for link in links {
        if link.delay < other && longest.is_none_or(|delay| delay < link.delay) {
            longest = Some(link.delay);
        }
    }
    longest
}

// Each node in a part of its own, of its number.
fn apart() -> [u8; 256] {
    let mut parts = [0; MOST_NODES];
    for node in 0..MOST_NODES {
        parts[node] = node as u8;
    }
    parts
}

// Puts all nodes of a part into another one.
fn join(parts: &mut [u8; 256], from: u8, to: u8) {
    for part in parts.iter_mut() {
        if *part == from {
            *part = to;
        }
    }
}

// The part of each node, where links with less than this delay join the nodes at their ends.
fn parts_of(links: &[LinkPart], ahead: Time) -> [u8; 256]
    requires { All (λ (link : LinkPart). (link.from < 256) × (link.to < 256)) links.now }
{
    let mut parts = apart();
    for link in links {
        let from = parts[usize::from(link.from)];
        let to = parts[usize::from(link.to)];
        if link.delay < ahead && from != to {
            join(&mut parts, from, to);
        }
    }
    parts
}

// How many windows of this lookahead come before a moment.
fn windows_before(end: Time, ahead: Time) -> u64 {
    (end / ahead.max(1)).saturating_add(1)
}

// How many events each part has, by its number.
fn events_of(events: &[u64; 256], parts: &[u8; 256]) -> [u64; 256] {
    let mut sums = [0u64; MOST_NODES];
    for node in 0..MOST_NODES {
        let part = usize::from(parts[node]);
        sums[part] = sums[part].saturating_add(events[node]);
    }
    sums
}

// The group of each node, by those of the parts.
fn groups_of_nodes(parts: &[u8; 256], groups: &[u8; 256], workers: usize) -> [u8; 256]
    requires some { 1 ≤ workers }
    requires each { All (λ group. group < workers) groups.now }
    ensures { All (λ group. group < workers) result }
{
    let mut of_nodes = [0; MOST_NODES];
    for node in 0..MOST_NODES {
        of_nodes[node] = groups[usize::from(parts[node])];
    }
    of_nodes
}

// In how much of the time the nodes of each part have packets, by its number, in parts of `WHOLE`: that of the node that has
// them most of it. A packet that leaves a node has arrived there.
fn busy_parts(busy: &[u64; 256], parts: &[u8; 256]) -> [u64; 256] {
    let mut most = [0u64; MOST_NODES];
    for node in 0..MOST_NODES {
        let part = usize::from(parts[node]);
        most[part] = most[part].max(busy[node] / 2);
    }
    most
}

// How many events one after another take as long as all of these by groups side by side, of which one has so many of
// them, and each has events in so much of the time: where one has some while the others have none, nothing is gained.
fn side_by_side(events: u64, most: u64, busy: &[u64]) -> u64 {
    let (mut idle, mut all): (u64, u64) = (WHOLE, 0);
    for share in busy {
        let share = (*share).min(WHOLE);
        idle = idle.saturating_mul(WHOLE - share) / WHOLE;
        all = all.saturating_add(share);
    }
    let together = events.saturating_mul(WHOLE.saturating_sub(idle)) / all.max(1);
    most.max(together)
}

// Groups, and what a run by them costs.
#[derive(Drop)]
struct Grouping {
    /// The group of each node.
    groups: [u8; 256],
    /// The cost, in tenths of an event.
    cost: u64,
}

// The group of each node where windows span this lookahead, if that costs less than so much.
fn grouping_at(
    parts: &ScenarioParts,
    forecast: &Forecast,
    ahead: Time,
    workers: usize,
    least: u64,
) -> Option<Grouping>
    requires limits { IsInLimits parts.now }
    requires workers { (1 ≤ workers) × (workers ≤ 64) }
    ensures { IfSome result (λ grouping. All (λ group. group < workers) grouping.groups) }
{
    let windows = windows_before(forecast.end, ahead);
    let of_nodes = parts_of(parts.links.as_slice(), ahead);
    let events = events_of(&forecast.events, &of_nodes);
    if cost(events[place_of_greatest(&events)], windows) >= least {
        return None;
    }
    let packing = packed(events, workers);
    if cost(packing.most, windows) >= least {
        return None;
    }
    let busy = busy_parts(&busy_nodes(parts, forecast, ahead), &of_nodes);
    let busy = events_of(&busy, &packing.groups);
    let most = side_by_side(total(&forecast.events), packing.most, &busy);
    let cost = cost(most, windows);
    if cost >= least {
        return None;
    }
    let groups = groups_of_nodes(&of_nodes, &packing.groups, workers);
    Some(Grouping { groups, cost })
}

/// The group of each node of a scenario, for so many workers: of the groupings that gain the one that costs least, of
/// two that cost as much that with the longer lookahead; one group where none gains.
pub(crate) fn found_groups(parts: &ScenarioParts, workers: usize) -> [u8; 256]
    requires limits { IsInLimits parts.now }
    requires workers { (1 ≤ workers) × (workers ≤ 64) }
    ensures each { All (λ group. group < workers) result }
    ensures size { length result ≡ 256 }
{
    let links = parts.links.as_slice();
    let forecast = forecast_of(parts);
    let events = total(&forecast.events);
    let mut found = Grouping {
        groups: [0; MOST_NODES],
        cost: events.saturating_mul(MOST_AN_EVENT),
    };
    let mut ahead = Time::MAX;
    for _delay in 0..=links.len() {
        let windows = windows_before(forecast.end, ahead);
        // Even equal groups would cost more, and the windows to come are shorter.
        if cost(events / workers as u64, windows) >= found.cost {
            break;
        }
        if let Some(better) = grouping_at(parts, &forecast, ahead, workers, found.cost) {
            found = better;
        }
        let Some(shorter) = longest_below(links, ahead) else {
            break;
        };
        ahead = shorter;
    }
    found.groups
}
