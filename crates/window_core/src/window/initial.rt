//! A net is split into groups, and its first window opens.
ghost use Rattle.std.specs.Prelude.{◌≡◌, ◌≤◌, ◌^◌, [], IfErr, IfOk, List, false, true, length, vec_capacity};
ghost use Rattle.scenario_image.specs.declared.parts.ScenarioParts.{ScenarioParts};
ghost use Rattle.scenario_image.specs.Scenario.{IsScenario};
ghost use Rattle.node_core.specs.TraceLine.{TraceLine};
ghost use Rattle.table_run.specs.Laws.{ComesTo};
ghost use Rattle.net_machine.specs.NetOf.{AreNetParts};
ghost use Rattle.window_core.specs.Acting.{nothing_after};
ghost use Rattle.window_law.specs.Lookahead.{lookahead};
ghost use Rattle.window_core.specs.Initial.{IsFirstWindow};
ghost use Rattle.net_partition.specs.Partition.{group_in, groups_of};
ghost use Rattle.node_group.specs.GroupStates.{AreJoined, AreRooms};
ghost use Rattle.window_core.specs.Window.{IsFrom, setting_in, states_of};
ghost use Rattle.window_law.specs.Windows.{none_fired, window_end};

use super::group_table::GroupTable;
use super::reading::soonest;
use super::{Window, set_until};
use crate::ahead::{lookahead, window_end};
use line_merge::Batch;
use net_machine::{LinkEnds, Net, NetParts};
use net_partition::Partition;
use node_core::Node;
use node_group::{Group, GroupState, GroupStateParts, rooms_of, share_out};
use sim_time::Time;
use std::alloc::{AllocError, Global};
use tournament::KeyTournament;

// Memory for a window of some groups.
#[derive(Drop)]
struct Room {
    rooms: Vec<GroupStateParts>,
    group_states: Vec<GroupState>,
    groups: Vec<Group>,
    times: Vec<Time>,
    nexts: Vec<usize>,
    tournament: KeyTournament,
}

// Takes the memory for a window of the groups of a partition.
fn room_for(
    alloc: Global,
    nodes: &[Node],
    links: &Vec<LinkEnds>,
    partition: &Partition,
) -> Result<Room, AllocError>
    requires joined { AreJoined links.now.items nodes.now }
    requires few { length partition.now ≤ 2 ^ 12 }
    ensures rooms { IfOk result (λ room. length room.rooms.items ≡ groups_of partition.now) }
    ensures each { IfOk result (λ room. AreRooms partition.now links.now.items nodes.now room.rooms.items) }
    ensures group_states { IfOk result (λ room. (room.group_states.items ≡ []) × (groups_of partition.now ≤ vec_capacity room.group_states)) }
    ensures out { IfOk result (λ room. (room.groups.items ≡ []) × (groups_of partition.now ≤ vec_capacity room.groups)) }
    ensures times { IfOk result (λ room. length room.times.items ≡ groups_of partition.now) }
    ensures merge { IfOk result (λ room. (length room.nexts.items ≡ groups_of partition.now) × (length room.tournament ≡ groups_of partition.now)) }
{
    let groups = partition.groups();
    Ok(Room {
        rooms: rooms_of(alloc, nodes, links, partition)?,
        group_states: Vec::with_capacity(alloc, groups)?,
        groups: Vec::with_capacity(alloc, groups)?,
        times: vec![in alloc; 0; groups]?,
        nexts: vec![in alloc; 0; groups]?,
        tournament: KeyTournament::new(alloc, groups)?,
    })
}

// The first window over a net of these parts. No memory is taken.
fn opened(alloc: Global, parts: NetParts, partition: Partition, room: Room) -> Window
    requires parts { AreNetParts parts.nodes.items parts.links.items parts.end parts.position }
    requires size { length partition ≡ length parts.nodes.items }
    requires rooms { length room.rooms.items ≡ groups_of partition }
    requires each { AreRooms partition parts.links.items parts.nodes.items room.rooms.items }
    requires group_states { (room.group_states.items ≡ []) × (groups_of partition ≤ vec_capacity room.group_states) }
    requires out { (room.groups.items ≡ []) × (groups_of partition ≤ vec_capacity room.groups) }
    requires times { length room.times.items ≡ groups_of partition }
    requires merge { (length room.nexts.items ≡ groups_of partition) × (length room.tournament ≡ groups_of partition) }
    ensures entries { result.entries ≡ partition }
    ensures position { result.position ≡ parts.position }
    ensures inside { result.out ≡ false }
    ensures taken { result.taken ≡ nothing_after parts.position }
    ensures first { IsFirstWindow parts.nodes.items parts.links.items parts.end result }
{
    let NetParts {
        nodes,
        links,
        end,
        position,
        spare: _,
    } = parts;
    let Room {
        rooms,
        mut group_states,
        groups,
        times,
        nexts,
        tournament,
    } = room;
    let _ = partition.groups();
    let ahead = lookahead(&links, &partition);
    share_out(
        alloc,
        nodes,
        &links,
        end,
        position,
        &partition,
        rooms,
        &mut group_states,
    );
    let until = window_end(soonest(&group_states), ahead, end);
    set_until(&mut group_states, until);
    Window {
        partition,
        links,
        ahead,
        end,
        until,
        position,
        group_table: GroupTable::new(group_states, times, groups),
        nexts,
        tournament,
        taken: Batch::new(alloc, position + 1),
        spare: Batch::new(alloc, 0),
        alloc,
    }
}

impl Window {
    /// The first window of a net whose nodes are in these groups, as many entries as nodes. Where
    /// memory is refused the net and the partition come back.
    pub fn new(
        alloc: Global,
        net: Net,
        partition: Partition,
    ) -> Result<Window, (Net, Partition, AllocError)>
        requires { length partition ≡ length net.state.parts }
        ensures from { IfOk result (λ w. IsFrom net.state w) }
        ensures entries { IfOk result (λ w. w.entries ≡ partition) }
        ensures position { IfOk result (λ w. w.position ≡ net.position) }
        ensures end { IfOk result (λ w. w.end ≡ net.state.end) }
        ensures inside { IfOk result (λ w. w.out ≡ false) }
        ensures taken { IfOk result (λ w. w.taken ≡ nothing_after net.position) }
        ensures unfired { IfOk result (λ w. none_fired (states_of w.groups) ≡ true) }
        ensures until { IfOk result (λ w. w.until ≡ window_end (setting_in w) (states_of w.groups)) }
        ensures ahead { IfOk result (λ w. (p : ScenarioParts) (before : List TraceLine) → IsScenario p → ComesTo p net.position before net.state → w.ahead ≡ lookahead (group_in partition) p.links) }
        ensures kept { IfErr result (λ back. (back.0 ≡ net) × (back.1 ≡ partition)) }
    {
        let parts = net.into_parts();
        match room_for(alloc, &parts.nodes, &parts.links, &partition) {
            Ok(room) => Ok(opened(alloc, parts, partition, room)),
            Err(error) => Err((Net::of_parts(parts), partition, error)),
        }
    }
}
