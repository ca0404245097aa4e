//! Which group each node of a net is in.
ghost use Rattle.std.specs.Prelude.{◌≡◌, ◌≤◌, ◌<◌, ◌*◌, ℕ, true, All, Contains, map as each, slice_index_or, take, length, replicate, max, if◌then◌else◌, Option, Some, None, Ok};
ghost use Rattle.std.specs.List.{list_all};
ghost use Rattle.std.specs.Prelude.{nat_lt};
ghost use Rattle.net_partition.specs.Partition.{is_partition, group_in, greatest_number, groups_of, alone};

use crate::found::found_groups;
use scenario_image::Scenario;
use scenario_image::limits::MOST_NODES;
use std::alloc::AllocError;
use std::marker::Model;

/// The most groups.
pub(crate) const MOST_GROUPS: u8 = 64;

/// The group of each node of a net. Groups are numbered from 0 to the greatest that a node is in,
/// and some may have no node.
#[derive(Drop)]
pub struct Partition {
    /// The group of each node, by its number; of no meaning past the last node.
    entries: [u8; 256],
    /// How many nodes.
    nodes: usize,
}

impl Model for Partition {
    ghost use Rattle.std.specs.Prelude.{List, ℕ, take, ◌≡◌, ◌≤◌, true};
    ghost use Rattle.net_partition.specs.Partition.{is_partition};

    ghost Value = { List ℕ };

    ghost view = { λ p. take p.nodes p.entries };

    ghost invariant = { λ p. (p.nodes ≤ 256) × (is_partition (take p.nodes p.entries) ≡ true) };
}

// Whether each of these is the number of a group.
fn are_groups(entries: &[u8]) -> bool
    ensures { result ≡ list_all (λ group. nat_lt group 64) entries.now }
{
    for entry in entries {
        if *entry >= MOST_GROUPS {
            return false;
        }
    }
    true
}

// The greatest of these; 0 where there is none.
fn greatest(entries: &[u8]) -> u8
    ensures { result ≡ greatest_number entries.now }
{
    let mut greatest = 0;
    for entry in entries {
        if *entry > greatest {
            greatest = *entry;
        }
    }
    greatest
}

// All in group 0.
fn zeros() -> [u8; 256]
    ensures { result ≡ replicate 256 0 }
{
    [0; 256]
}

// These, and behind them zeros.
fn laid_out(entries: &[u8]) -> [u8; 256]
    requires { length entries.now ≤ 256 }
    ensures { take (length entries.now) result ≡ entries.now }
{
    let mut all = zeros();
    for (node, entry) in entries.iter().enumerate() {
        all[node] = *entry;
    }
    all
}

// For each group how many below it have a node: its number, once groups without one are left out.
fn numbers_without_gaps(entries: &[u8]) -> [u8; 64]
    ensures below { All (λ number. number < 64) result }
    ensures rising { (g h : ℕ) → g < h → h < 64 → Contains entries.now g → slice_index_or result g 0 < slice_index_or result h 0 }
{
    let mut numbers = [0; 64];
    let mut count = 0;
    for group in 0..MOST_GROUPS {
        numbers[usize::from(group)] = count;
        if entries.contains(&group) {
            count += 1;
        }
    }
    numbers
}

// These groups by other numbers, and behind them zeros.
fn renumbered(groups: &[u8], numbers: &[u8; 64]) -> [u8; 256]
    requires few { length groups.now ≤ 256 }
    requires groups { All (λ group. group < 64) groups.now }
    requires numbers { All (λ number. number < 64) numbers.now }
    ensures numbered { take (length groups.now) result ≡ each (λ group. slice_index_or numbers.now group 0) groups.now }
    ensures below { All (λ group. group < 64) result }
{
    let mut all = zeros();
    for (node, group) in groups.iter().enumerate() {
        all[node] = numbers[usize::from(*group)];
    }
    all
}

impl Partition {
    /// Node k in the group of the k-th entry; none where there are fewer than 2 or more than 256
    /// entries, or one is over 63.
    pub fn new(entries: Vec<u8>) -> Option<Partition>
        ensures { result ≡ (if is_partition entries.items then Some entries.items else None) }
    {
        let nodes = entries.len();
        if nodes < 2 || nodes > MOST_NODES || !are_groups(&entries) {
            return None;
        }
        Some(Partition {
            entries: laid_out(&entries),
            nodes,
        })
    }

    /// All of so many nodes in one group.
    pub fn one(nodes: usize) -> Partition
        requires { (2 ≤ nodes) × (nodes ≤ 256) }
        ensures { result ≡ replicate nodes 0 }
    {
        Partition {
            entries: zeros(),
            nodes,
        }
    }

    /// Of so many nodes node k in group k mod 64.
    pub fn each(nodes: usize) -> Partition
        requires { (2 ≤ nodes) × (nodes ≤ 256) }
        ensures { result ≡ alone nodes }
    {
        let mut entries = zeros();
        for node in 0..nodes {
            entries[node] = (node % 64) as u8;
        }
        Partition { entries, nodes }
    }

    /// A good partition of a scenario's nodes for so many workers, of which more than 64 are as
    /// many as 64: links between groups are long, and the groups have about as many events each,
    /// reckoned from what the flows are expected to send. One group where a run in windows is not
    /// expected to gain a tenth. The same scenario and number of workers have the same partition.
    /// Which one it is no clause says, as a run gives the same trace in any. No memory is taken.
    pub fn found(scenario: &Scenario, workers: usize) -> Partition
        ensures nodes { length result ≡ length scenario.now.nodes }
        ensures few { groups_of result ≤ max 1 workers }
    {
        let parts = scenario.parts();
        Partition {
            entries: found_groups(parts, workers.clamp(1, 64)),
            nodes: parts.nodes.len(),
        }
    }

    /// The same once more. No memory is taken.
    pub fn copy(&self) -> Result<Partition, AllocError>
        ensures { result ≡ Ok self.now }
    {
        Ok(Partition {
            entries: self.entries,
            nodes: self.nodes,
        })
    }

    /// The same groups under other numbers, in the same order, so that each number up to the greatest is that of a
    /// group with a node. No memory is taken.
    pub fn without_gaps(&self) -> Partition
        ensures nodes { length result ≡ length self.now }
        ensures together { (a b : ℕ) → a < length self.now → b < length self.now → group_in self.now a ≡ group_in self.now b → group_in result a ≡ group_in result b }
        ensures apart { (a b : ℕ) → a < length self.now → b < length self.now → group_in result a ≡ group_in result b → group_in self.now a ≡ group_in self.now b }
    {
        let groups = &self.entries[..self.nodes];
        Partition {
            entries: renumbered(groups, &numbers_without_gaps(groups)),
            nodes: self.nodes,
        }
    }

    /// How many nodes.
    pub fn nodes(&self) -> usize
        ensures { result ≡ length self.now }
    {
        self.nodes
    }

    /// The group of a node.
    pub fn group(&self, node: usize) -> usize
        requires { node < length self.now }
        ensures { result ≡ group_in self.now node }
    {
        usize::from(self.entries[node])
    }

    /// How many groups.
    pub fn groups(&self) -> usize
        ensures count { result ≡ groups_of self.now }
        ensures each { (node : ℕ) → group_in self.now node < result }
        ensures most { result ≤ 64 }
    {
        usize::from(greatest(&self.entries[..self.nodes])) + 1
    }
}
