//! What is decided where packets pass a link and no timer moves.
ghost use Rattle.std.specs.Prelude.{◌≡◌, ◌<◌, ◌≤◌, ◌+◌, ◌-◌, ℕ, List, IfOk, length};
ghost use Rattle.sim_time.specs.Moment.{IsMoment};
ghost use Rattle.sim_time.specs.declared.key.Key.{Key};
ghost use Rattle.node_core.specs.declared.decision.Decision.TheVariants.{TakeNext};
ghost use Rattle.node_core.specs.declared.event.Event.TheVariants.{Arrive, Free};
ghost use Rattle.node_core.specs.declared.role.Role.{Role};
ghost use Rattle.node_core.specs.declared.role.Role.TheVariants.{Routes};
ghost use Rattle.node_core.specs.Decided.{IsDecided};
ghost use Rattle.node_core.specs.Part.{LinkState};
ghost use Rattle.node_core.specs.Ready.{IsExit, IsOfLink};
ghost use Rattle.node_core.specs.RouteTable.{exit_for};

use crate::decision::Decision;
use crate::link::Link;
use crate::routes::RouteTable;
use crate::timer::FIRST_FREE;
use packet_chain::Packet;
use port::Acts;
use sim_time::Key;
use std::alloc::AllocError;

/// A packet has come to a router, which offers it to the link of its route.
pub(crate) fn pass_packet(
    table: &RouteTable,
    packet: Packet,
    acts: &mut Acts,
) -> Result<Decision, AllocError>
    ensures decided { (key : Key) (links : List LinkState) → IsExit (length links) (exit_for table.now packet) → IfOk result (IsDecided (Routes table.now) (Routes table.now) links key (Arrive packet) acts.new.room) }
    ensures acts { acts.new.acts ≡ acts.old.acts }
{
    let Some(index) = table.exit(&packet) else {
        return Ok(Decision::Leave);
    };
    acts.reserve(1)?;
    Ok(Decision::PassOn(index))
}

// Room for so many acts, where there is room for one, as most events need no more.
#[inline(always)]
fn reserve_beyond_one(acts: &mut Acts, more: usize) -> Result<(), AllocError>
    requires { 1 ≤ acts.old.room }
    ensures same { acts.new.acts ≡ acts.old.acts }
    ensures ok { IfOk result (λ _. more ≤ acts.new.room) }
{
    if more <= 1 {
        return Ok(());
    }
    acts.reserve(more)
}

/// A link has sent a packet whole, and takes the next. The answer is the index of the link.
#[inline(always)]
pub(crate) fn free_link(links: &Vec<Link>, key: Key, acts: &mut Acts) -> Result<u16, AllocError>
    requires moment { IsMoment key.time }
    requires own { IsOfLink key.number (length links.now.items) (Free 0) }
    requires few { length links.now.items ≤ 1024 }
    requires room { 1 ≤ acts.old.room }
    ensures decided { IfOk result (λ index. (role : Role) (link : ℕ) → IsDecided role role links.now.items key (Free link) acts.new.room (TakeNext index)) }
    ensures acts { acts.new.acts ≡ acts.old.acts }
{
    let place = (key.number - FIRST_FREE as u64) as usize;
    reserve_beyond_one(acts, links[place].port().room_at(key.time))?;
    Ok(place as u16)
}
