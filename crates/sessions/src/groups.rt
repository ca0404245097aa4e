//! Which group each node is in, as the command line says it.
ghost use Rattle.std.specs.Prelude.{◌≡◌, ◌==◌, ◌≤◌, ◌&&◌, if◌then◌else◌, ℕ, List, length, map, Some, None, IfOk, IfErr, IfSome, IsSome};
ghost use Rattle.std.specs.List.{slice_split};
ghost use Rattle.window_core.specs.Partition.{is_partition};
ghost use Rattle.sessions.specs.Groups.{MeansGroups, Lists, Names};
ghost use Rattle.sessions.specs.Nodes.{HasGroups, LacksGroups};

use crate::fault::SessionFault;
use command_line::sharing::Sharing;
use prompt_words::number_below;
use scenario_image::Scenario;
use std::alloc::{AllocError, Global};
use window_core::Partition;

/// The numbers of groups are below this.
const GROUPS: u64 = 64;

// What stands between commas.
fn words_of(alloc: Global, text: &str) -> Result<Vec<&str>, AllocError>
    ensures { IfOk result (λ v. map (λ w. w.now) v.items ≡ slice_split (λ b. b == 44) text.now) }
{
    text.split(',').collect(alloc)
}

// The groups that words name; none where one of the words is no group's number.
fn groups_named(alloc: Global, words: &[&str]) -> Result<Option<Vec<u8>>, AllocError>
    ensures named { IfOk result (λ found. IfSome found (λ v. Names (map (λ w. w.now) words.now) v.items)) }
    ensures only { (entries : List ℕ) → Names (map (λ w. w.now) words.now) entries → IfOk result (λ found. IsSome found) }
{
    let mut groups = Vec::new(alloc);
    for word in words {
        match number_below(word.as_bytes(), GROUPS) {
            Some(group) => groups.push(group as u8)?,
            None => return Ok(None),
        }
    }
    Ok(Some(groups))
}

// A partition of so many nodes, where these are the groups of one.
fn of_nodes(groups: Vec<u8>, nodes: usize) -> Option<Partition>
    ensures { result ≡ (if length groups.items == nodes && is_partition groups.items then Some groups.items else None) }
{
    if groups.len() == nodes {
        Partition::new(groups)
    } else {
        None
    }
}

// The groups that a text lists, one for each node.
fn listed(alloc: Global, text: &str, nodes: usize) -> Result<Option<Partition>, AllocError>
    ensures means { IfOk result (λ found. IfSome found (λ entries. Lists text.now nodes entries)) }
    ensures only { (entries : List ℕ) → Lists text.now nodes entries → IfOk result (λ found. found ≡ Some entries) }
{
    let words = words_of(alloc, text)?;
    match groups_named(alloc, &words)? {
        Some(groups) => Ok(of_nodes(groups, nodes)),
        None => Ok(None),
    }
}

/// The groups that a text means for so many nodes; none where it means nothing.
pub fn partition_of(
    alloc: Global,
    groups: &str,
    nodes: usize,
) -> Result<Option<Partition>, AllocError>
    requires { (2 ≤ nodes) × (nodes ≤ 256) }
    ensures means { IfOk result (λ found. IfSome found (λ entries. MeansGroups groups.now nodes entries)) }
    ensures only { (entries : List ℕ) → MeansGroups groups.now nodes entries → IfOk result (λ found. found ≡ Some entries) }
{
    if groups == "one" {
        Ok(Some(Partition::one(nodes)))
    } else if groups == "each" {
        Ok(Some(Partition::each(nodes)))
    } else {
        listed(alloc, groups, nodes)
    }
}

/// The groups in which the nodes of a scenario are, those that are found where the text leaves it to
/// the program.
pub(crate) fn groups_for(
    alloc: Global,
    sharing: &Sharing,
    scenario: &Scenario,
) -> Result<Partition, SessionFault>
    ensures named { IfOk result (λ _. HasGroups sharing.now.groups scenario.now) }
    ensures nodes { IfOk result (λ partition. length partition ≡ length scenario.now.nodes) }
    ensures faults { IfErr result (LacksGroups sharing.now.groups scenario.now) }
{
    let text = sharing.groups();
    if text == "auto" {
        return Ok(Partition::found(scenario, sharing.workers()));
    }
    let nodes = scenario.parts().nodes.len();
    match partition_of(alloc, text, nodes)? {
        // A group without a node would be a list more in each merge.
        Some(partition) => Ok(partition.without_gaps()),
        None => Err(SessionFault::Groups),
    }
}
