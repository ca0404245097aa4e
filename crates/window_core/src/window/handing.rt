//! The messages between groups are handed over.
ghost use Rattle.std.specs.Prelude.{◌≡◌, [], None, IfSome};
ghost use Rattle.node_group.specs.Held.{WiresAreEmpty};
ghost use Rattle.window_core.specs.GroupTables.{nexts_of};
ghost use Rattle.window_core.specs.Turning.{AreReady, CanHandEach, HasHanded, HasHandedOne};
ghost use Rattle.window_core.specs.Window.{states_of, value_at};

use super::reading::next_of;
use net_machine::LinkEnds;
use net_partition::Partition;
use node_group::GroupState;
use packet_chain::PacketChain;
use sim_time::Time;
use std::alloc::Global;

// A group's outgoing messages of one link go to the group at the link's end, whose next moment is then
// read anew. The chain is empty. The answer is the link, or none where the group holds nothing back.
#[inline(never)]
fn hand_one(
    group_states: &mut [GroupState],
    nexts: &mut [Time],
    from: usize,
    partition: &Partition,
    links: &[LinkEnds],
    chain: &mut PacketChain,
) -> Option<usize>
    requires can { CanHandEach partition.now links.now group_states.old from }
    requires nexts { nexts.old ≡ nexts_of (states_of group_states.old) }
    requires empty { chain.old ≡ [] }
    ensures some { IfSome result (λ link. HasHandedOne partition.now links.now group_states.old group_states.new from link) }
    ensures none { result ≡ None → WiresAreEmpty (value_at group_states.old from).held × (group_states.new ≡ group_states.old) }
    ensures nexts { nexts.new ≡ nexts_of (states_of group_states.new) }
    ensures empty { chain.new ≡ [] }
{
    let link = group_states[from].release_next(chain)?;
    let to = partition.group(usize::from(links[link].to.node));
    let end = &mut group_states[to];
    let _ = end.number();
    end.deliver(link, chain);
    nexts[to] = next_of(end);
    Some(link)
}

// The same, in a few steps where the group holds nothing back.
#[inline(always)]
fn hand_next(
    group_states: &mut [GroupState],
    nexts: &mut [Time],
    from: usize,
    partition: &Partition,
    links: &[LinkEnds],
    chain: &mut PacketChain,
) -> Option<usize>
    requires can { CanHandEach partition.now links.now group_states.old from }
    requires nexts { nexts.old ≡ nexts_of (states_of group_states.old) }
    requires empty { chain.old ≡ [] }
    ensures some { IfSome result (λ link. HasHandedOne partition.now links.now group_states.old group_states.new from link) }
    ensures none { result ≡ None → WiresAreEmpty (value_at group_states.old from).held × (group_states.new ≡ group_states.old) }
    ensures nexts { nexts.new ≡ nexts_of (states_of group_states.new) }
    ensures empty { chain.new ≡ [] }
{
    if group_states[from].holds_nothing() {
        return None;
    }
    hand_one(group_states, nexts, from, partition, links, chain)
}

/// The outgoing messages of each group go to the others, and the next moment of each is read anew.
pub fn hand_all(
    group_states: &mut [GroupState],
    nexts: &mut [Time],
    partition: &Partition,
    links: &[LinkEnds],
    alloc: Global,
)
    requires ready { AreReady partition.now links.now group_states.old }
    requires nexts { nexts.old ≡ nexts_of (states_of group_states.old) }
    ensures handed { HasHanded partition.now links.now group_states.old group_states.new }
    ensures nexts { nexts.new ≡ nexts_of (states_of group_states.new) }
{
    let mut chain = PacketChain::new(alloc);
    for from in 0..group_states.len() {
        while hand_next(group_states, nexts, from, partition, links, &mut chain).is_some() {}
    }
}
