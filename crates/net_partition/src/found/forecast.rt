//! What the flows of a scenario are expected to do, reckoned before a run.
ghost use Rattle.std.specs.Prelude.{◌<◌, ◌≤◌, IfSome};
ghost use Rattle.scenario_image.specs.Limits.{IsInLimits};

use scenario_image::limits::{MOST_LINKS, MOST_NODES};
use scenario_image::{FlowPart, LinkPart, Path, ScenarioParts, route_link};
use sim_time::{Rate, Time, serial_ns};

/// Bytes of a packet's headers, and of an acknowledgement.
const HEADERS: u64 = 40;

/// A share of the time is told in so many parts of it.
pub(crate) const WHOLE: u64 = 1_024;

/// What is expected of all flows.
#[derive(Drop)]
pub(crate) struct Forecast {
    /// How many events each node has, by its number; none past the last node.
    pub events: [u64; 256],
    /// When the last flow is through, in nanoseconds, at most the scenario's end.
    pub end: Time,
    /// How many flows send data over each link, by its number.
    flows: [u16; 1024],
}

// A link that a path takes.
#[derive(Clone, Copy)]
struct Hop<'a> {
    /// Its number.
    number: usize,
    /// What it is.
    link: &'a LinkPart,
}

// How a path carries packets.
#[derive(Clone, Copy)]
struct Carriage {
    /// How long a packet is under way on all links together, in nanoseconds.
    delay: Time,
    /// How far apart packets leave the slowest link, in nanoseconds.
    gap: Time,
    /// The same if no other flow sent over it.
    alone: Time,
}

// What is expected of a flow.
#[derive(Clone, Copy)]
struct FlowLoad {
    /// How many segments are sent.
    packets: u64,
    /// When the last is acknowledged, in nanoseconds.
    end: Time,
    /// How long a packet and its acknowledgement are under way, in nanoseconds.
    round_trip: Time,
    /// In how much of that its packets follow each other, in parts of `WHOLE`: in all of it where a link is what holds
    /// them back, and not the window.
    share: u64,
}

// The link that a path takes from a node, if it goes on.
fn next_hop(parts: &ScenarioParts, path: Path, node: u16) -> Option<Hop<'_>>
    requires { IsInLimits parts.now }
    ensures { IfSome result (λ hop. (hop.number < 1024) × (hop.link.now.from < 256) × (hop.link.now.to < 256)) }
{
    let links = parts.links.as_slice();
    let number = if node == path.start {
        links.iter().position(|link| link.from == node)?
    } else {
        usize::from(route_link(parts, node, path.end)?)
    };
    let link = links.get(number)?;
    Some(Hop { number, link })
}

// Counts a flow at each link of a path.
fn count_on(parts: &ScenarioParts, path: Path, flows: &mut [u16; 1024])
    requires { IsInLimits parts.now }
{
    let mut node = path.start;
    for _hop in 0..parts.nodes.len() {
        let Some(hop) = next_hop(parts, path, node) else {
            return;
        };
        flows[hop.number] = flows[hop.number].saturating_add(1);
        node = hop.link.to;
    }
}

// How many flows send data over each link, by its number.
fn flows_on_links(parts: &ScenarioParts) -> [u16; 1024]
    requires { IsInLimits parts.now }
{
    let mut flows = [0; MOST_LINKS];
    for flow in parts.flows.as_slice() {
        count_on(parts, Path::of_data(*flow), &mut flows);
    }
    flows
}

// How far apart packets of so many bytes leave a link that so many flows share, in nanoseconds.
fn gap_on(link: &LinkPart, bytes: u64, flows: u16) -> Time
    requires { (1 ≤ bytes) × (bytes ≤ 9040) }
{
    match Rate::new(link.rate) {
        Some(rate) => serial_ns(bytes, rate).saturating_mul(u64::from(flows.max(1))),
        None => 0,
    }
}

// How a path carries packets of so many bytes.
fn carriage_of(parts: &ScenarioParts, path: Path, bytes: u64, flows: &[u16; 1024]) -> Carriage
    requires limits { IsInLimits parts.now }
    requires bytes { (1 ≤ bytes) × (bytes ≤ 9040) }
{
    let mut node = path.start;
    let mut delay: Time = 0;
    let (mut gap, mut alone): (Time, Time) = (0, 0);
    for _hop in 0..parts.nodes.len() {
        let Some(hop) = next_hop(parts, path, node) else {
            break;
        };
        delay = delay.saturating_add(hop.link.delay);
        gap = gap.max(gap_on(hop.link, bytes, flows[hop.number]));
        alone = alone.max(gap_on(hop.link, bytes, 1));
        node = hop.link.to;
    }
    Carriage { delay, gap, alone }
}

// In how much of the time the packets of a flow follow each other, in parts of `WHOLE`, where the slowest link would take them
// so fast, alone and beside other flows, and they are so far apart, all in nanoseconds.
fn share_of(alone: Time, by_links: Time, gap: Time) -> u64 {
    if gap <= by_links {
        return WHOLE;
    }
    (alone.saturating_mul(WHOLE) / gap.max(1)).max(1)
}

// What is expected of a flow: at most a window is sent in a round trip, and at most what the slowest
// link takes, there and back.
fn course_of(parts: &ScenarioParts, flow: FlowPart, flows: &[u16; 1024]) -> FlowLoad
    requires limits { IsInLimits parts.now }
    requires mss { flow.mss ≤ 9000 }
{
    let mss = u64::from(flow.mss);
    let there = carriage_of(parts, Path::of_data(flow), mss + HEADERS, flows);
    let back = carriage_of(parts, Path::of_acks(flow), HEADERS, flows);
    let round_trip = there.delay.saturating_add(back.delay);
    let by_window = round_trip.saturating_mul(mss) / u64::from(flow.rwnd.max(1));
    let by_links = there.gap.max(back.gap);
    let gap = by_links.max(by_window).max(1);
    let alone = there.alone.max(back.alone);
    let span = parts.end.saturating_sub(flow.start);
    let packets = u64::from(flow.segments).min(span / gap);
    let sending = packets.saturating_mul(gap).saturating_add(round_trip);
    FlowLoad {
        packets,
        end: flow.start.saturating_add(sending),
        round_trip,
        share: share_of(alone, by_links, gap),
    }
}

// Adds what so many packets are on a path to what each node has: they leave a node and arrive at the next.
fn add_events(parts: &ScenarioParts, path: Path, packets: u64, events: &mut [u64; 256])
    requires { IsInLimits parts.now }
{
    let mut node = path.start;
    for _hop in 0..parts.nodes.len() {
        let Some(hop) = next_hop(parts, path, node) else {
            return;
        };
        for end in [hop.link.from, hop.link.to] {
            let place = usize::from(end);
            events[place] = events[place].saturating_add(packets);
        }
        node = hop.link.to;
    }
}

/// What is expected of a scenario's flows.
pub(crate) fn forecast_of(parts: &ScenarioParts) -> Forecast
    requires { IsInLimits parts.now }
{
    let flows = flows_on_links(parts);
    let mut events = [0; MOST_NODES];
    let mut end: Time = 0;
    for flow in parts.flows.as_slice() {
        let course = course_of(parts, *flow, &flows);
        add_events(parts, Path::of_data(*flow), course.packets, &mut events);
        add_events(parts, Path::of_acks(*flow), course.packets, &mut events);
        end = end.max(course.end);
    }
    Forecast {
        events,
        end: end.min(parts.end),
        flows,
    }
}

/// In how much of the time packets leave each node and arrive there, both together, in parts of `WHOLE`, where windows
/// span so much time: a flow that its window holds back sends trains of packets, a round trip apart, and a window that
/// is as long has events of all its nodes.
pub(crate) fn busy_nodes(parts: &ScenarioParts, forecast: &Forecast, ahead: Time) -> [u64; 256]
    requires { IsInLimits parts.now }
{
    let mut busy = [0; MOST_NODES];
    for flow in parts.flows.as_slice() {
        let course = course_of(parts, *flow, &forecast.flows);
        let share = if course.round_trip <= ahead {
            WHOLE
        } else {
            course.share
        };
        add_events(parts, Path::of_data(*flow), share, &mut busy);
        add_events(parts, Path::of_acks(*flow), share, &mut busy);
    }
    busy
}
