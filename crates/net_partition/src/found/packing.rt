//! Parts of a net, packed into groups of about the same weight.
ghost use Rattle.std.specs.Prelude.{◌<◌, ◌≤◌, All, length};

use crate::partition;
use scenario_image::limits::MOST_NODES;

/// The most groups, as a length.
const MOST_GROUPS: usize = partition::MOST_GROUPS as usize;

/// Parts in groups.
#[derive(Drop)]
pub(crate) struct Packing {
    /// The group of each part, by its number.
    pub groups: [u8; 256],
    /// How many events the group with the most has.
    pub most: u64,
}

/// The place of the greatest, the first where there are several.
pub(crate) fn place_of_greatest(counts: &[u64]) -> usize
    requires { 0 < length counts.now }
    ensures { result < length counts.now }
{
    let mut best = 0;
    for place in 0..counts.len() {
        if counts[place] > counts[best] {
            best = place;
        }
    }
    best
}

// The place of the least, the first where there are several.
fn place_of_least(counts: &[u64]) -> usize
    requires { 0 < length counts.now }
    ensures { result < length counts.now }
{
    let mut best = 0;
    for place in 0..counts.len() {
        if counts[place] < counts[best] {
            best = place;
        }
    }
    best
}

/// Puts parts with so many events into so many groups, the heaviest first, each into the lightest
/// group. Parts without events are in group 0.
pub(crate) fn packed(parts: [u64; 256], workers: usize) -> Packing
    requires { (1 ≤ workers) × (workers ≤ 64) }
    ensures { All (λ group. group < workers) result.groups }
{
    let mut left = parts;
    let mut groups = [0; MOST_NODES];
    let mut sums = [0u64; MOST_GROUPS];
    for _part in 0..MOST_NODES {
        let part = place_of_greatest(&left);
        if left[part] == 0 {
            break;
        }
        let group = place_of_least(&sums[..workers]);
        groups[part] = group as u8;
        sums[group] = sums[group].saturating_add(left[part]);
        left[part] = 0;
    }
    Packing {
        groups,
        most: sums[place_of_greatest(&sums)],
    }
}
