//! How soon what one group of nodes does can reach another.
ghost use Rattle.std.specs.Prelude.{◌≡◌, ◌<◌, All, List, length, Option, Some};
ghost use Rattle.scenario_image.specs.declared.parts.LinkPart.{LinkPart};
ghost use Rattle.net_machine.specs.declared.places.LinkEnds.{LinkEnds};
ghost use Rattle.net_machine.specs.Wiring.{AreEnds};
ghost use Rattle.net_partition.specs.Partition.{group_in};
ghost use Rattle.window_law.specs.Lookahead.{lesser, lookahead};
ghost use Rattle.window_law.specs.Windows.{at_most, sum_of};

use net_machine::LinkEnds;
use net_partition::Partition;
use sim_time::Time;

// The lesser of a time, where there is one, and another.
fn lesser_of(least: Option<Time>, delay: Time) -> Option<Time>
    ensures { result ≡ lesser least (Some delay) }
{
    match least {
        Some(other) => Some(other.min(delay)),
        None => Some(delay),
    }
}

/// The least delay of a link whose ends are in two groups, in nanoseconds.
pub fn lookahead(links: &[LinkEnds], partition: &Partition) -> Option<Time>
    requires { All (λ (link : LinkEnds). (link.from < length partition.now) × (link.to.node < length partition.now)) links.now }
    ensures { (parts : List LinkPart) → AreEnds parts links.now → result ≡ lookahead (group_in partition.now) parts }
{
    let mut least: Option<Time> = None;
    for link in links {
        let from = partition.group(usize::from(link.from));
        let to = partition.group(usize::from(link.to.node));
        if from != to {
            least = lesser_of(least, link.delay);
        }
    }
    least
}

/// Where a window ends: by the run's end, and where the least pending moment and the lookahead are
/// there, by their sum.
pub fn window_end(soonest: Option<Time>, ahead: Option<Time>, end: Time) -> Time
    ensures { result ≡ at_most (sum_of soonest ahead) end }
{
    match (soonest, ahead) {
        (Some(time), Some(delay)) => time.saturating_add(delay).min(end),
        _ => end,
    }
}
