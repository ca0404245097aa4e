//! Groups that stand at one moment are put together into a net.
ghost use Rattle.std.specs.Prelude.{◌≡◌, ◌<◌, IfOk, false, is_some, length, slice_index_or, true, None};
ghost use Rattle.table_run.specs.State.{State};
ghost use Rattle.node_group.specs.Group.{member};
ghost use Rattle.window_core.specs.Together.{AreSeated, AreTogether};
ghost use Rattle.window_core.specs.Window.{IsFrom, states_of};
ghost use Rattle.window_law.specs.Windows.{none_fired};

use super::Window;
use net_machine::{LinkEnds, Net, NetParts, Spare};
use net_partition::Partition;
use node_core::Node;
use node_group::GroupState;
use std::alloc::{AllocError, Global};

// A node of a group, with packets in cells of its own.
fn copy_of(group_state: &GroupState, place: usize) -> Result<Node, AllocError>
    requires within { place < length group_state.now.seats }
    requires seated { is_some (slice_index_or group_state.now.seats place None) ≡ true }
    ensures { IfOk result (λ node. node ≡ member group_state.now place) }
{
    let node = group_state.node(place).unwrap();
    node.copy()
}

// All nodes, each from its group.
fn copies_of(
    alloc: Global,
    group_states: &[GroupState],
    partition: &Partition,
) -> Result<Vec<Node>, AllocError>
    requires { AreSeated partition.now group_states.now }
    ensures { IfOk result (λ nodes. AreTogether partition.now group_states.now (length partition.now) nodes.items) }
{
    let mut nodes = Vec::new(alloc);
    for number in 0..partition.nodes() {
        let group_state = &group_states[partition.group(number)];
        nodes.push(copy_of(group_state, number)?)?;
    }
    Ok(nodes)
}

// The same ends in memory of their own.
fn copied(links: &Vec<LinkEnds>) -> Result<Vec<LinkEnds>, AllocError>
    ensures { IfOk result (λ copy. copy.items ≡ links.now.items) }
{
    links.clone()
}

impl Window {
    /// The net where no event was run in the window yet, with packets in cells of its own.
    pub fn edge(&self) -> Result<Net, AllocError>
        requires inside { self.now.out ≡ false }
        requires unfired { none_fired (states_of self.now.groups) ≡ true }
        ensures { (edge : State) → IsFrom edge self.now → IfOk result (λ net. net ≡ record { state = edge; position = self.now.position }) }
    {
        let _ = self.partition.groups();
        let _ = self.group_table.reported();
        let nodes = copies_of(self.alloc, self.group_table.group_states(), &self.partition)?;
        let links = copied(&self.links)?;
        let spare = Spare::new(self.alloc, nodes.len())?;
        Ok(Net::of_parts(NetParts {
            nodes,
            links,
            end: self.end,
            position: self.position,
            spare,
        }))
    }
}
