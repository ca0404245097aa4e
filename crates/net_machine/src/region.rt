//! Some of a net's nodes, and the one way in which they run their events.
ghost use Rattle.std.specs.Prelude.{◌≡◌, [], OnOk, OnErr, replicate};
ghost use Rattle.sim_time.specs.declared.limits.TheConstants.{MOST_EVENTS};
ghost use Rattle.node_core.specs.TraceLine.{shown};
ghost use Rattle.net_machine.specs.Region.{CanRun, CanGoOn, HasHappened};

use crate::nodes::Nodes;
use crate::places::LinkEnds;
use node_core::{Line, Outbox};
use packet_chain::PacketChain;
use std::alloc::AllocError;

/// Some of a net's nodes, in a row, and where packets go that leave one of them. Clauses speak of a
/// node by its number in the net; what runs it goes by its place in the row.
pub trait Region {
    ghost use Rattle.std.specs.Prelude.{◌≡◌, ◌≢◌, ◌<◌, ◌≤◌, [], ℕ, List, All, IfOk, OnOk, OnErr, Some, None, length};
    ghost use Rattle.std.specs.Option.{option_map};
    ghost use Rattle.sim_time.specs.declared.key.Key.{Key};
    ghost use Rattle.packet_chain.specs.Stamped.{Stamped};
    ghost use Rattle.tournament.specs.Keyed.{least, next_key};
    ghost use Rattle.node_core.specs.declared.event.Event.{Event};
    ghost use Rattle.node_core.specs.Part.{link_at};
    ghost use Rattle.node_core.specs.Row.{Leaving};
    ghost use Rattle.node_core.specs.Ready.{IsRunnable};
    ghost use Rattle.node_core.specs.TraceLine.{shown};
    ghost use Rattle.node_core.specs.Node.{NodeState, HasFired};
    ghost use Rattle.net_machine.specs.declared.places.LinkEnds.{LinkEnds};
    ghost use Rattle.net_machine.specs.Nodes.{node_at};
    ghost use Rattle.net_machine.specs.Region.{effect_at};

    // The nodes, by number.
    ghost nodes: { Self → List NodeState };

    // The number of the node at a place of the row.
    ghost number_at: { Self → ℕ → ℕ };

    // A node in the place of that of its number.
    ghost put: { Self → ℕ → NodeState → Self };

    // Whether packets that left over a link of the net, by its number, can go on.
    ghost can_take: { List LinkEnds → Self → ℕ → List Stamped → Type 0 };

    // They have gone on.
    ghost takes: { List LinkEnds → Self → ℕ → List Stamped → Self → Type 0 };

    /// Runs the event of the least key of the node at a place. What it says and promises is that of
    /// [`node_core::Node::fire_into`].
    fn run_at(
        &mut self,
        at: usize,
        out: &mut Outbox,
        line: &mut Line,
    ) -> Result<Option<u16>, AllocError>
        requires within { number_at self.old at < length (nodes self.old) }
        requires pending { next_key (node_at (nodes self.old) (number_at self.old at)).pending ≢ None }
        requires due { let node = node_at (nodes self.old) (number_at self.old at) in (k : Key) (v : Event) → least node.pending ≡ Some (k, v) → IsRunnable node.part k v }
        requires chains { length (node_at (nodes self.old) (number_at self.old at)).part.links ≤ length out.old }
        requires room { All (λ chain. length chain < MOST_EVENTS) out.old }
        ensures fired { let number = number_at self.old at in OnOk result (HasFired (node_at (nodes self.old) number) (node_at (nodes self.new) number) out.old out.new (shown line.new)) }
        ensures put { let number = number_at self.old at in OnOk result (self.new ≡ put self.old number (node_at (nodes self.new) number)) }
        ensures count { OnOk result (length (nodes self.new) ≡ length (nodes self.old)) }
        ensures stays { OnOk result (number_at self.new at ≡ number_at self.old at) }
        ensures leaving { IfOk result (λ index. index ≡ option_map (λ (leaving : Leaving). leaving.index) (effect_at (nodes self.old) (number_at self.old at) line.new.key line.new.event).leaving) }
        ensures same { OnErr result (self.new ≡ self.old) }
        ensures same_out { OnErr result (out.new ≡ out.old) };

    /// The number of an outgoing link of the node at a place.
    fn link_of(&self, at: usize, index: usize) -> u16
        requires within { number_at self.now at < length (nodes self.now) }
        requires index { index < length (node_at (nodes self.now) (number_at self.now at)).part.links }
        ensures { result ≡ (link_at (node_at (nodes self.now) (number_at self.now at)).part.links index).port.link };

    /// Packets that left over a link go on: to the node at its end, or they are outgoing messages for it. The
    /// chain is then empty. It takes no memory.
    fn pass_on(&mut self, links: &[LinkEnds], link: usize, packets: &mut PacketChain)
        requires known { link < length links.now }
        requires can { can_take links.now self.old link packets.old }
        ensures taken { takes links.now self.old link packets.old self.new }
        ensures emptied { packets.new ≡ [] };
}

impl Region for Nodes {
    ghost use Rattle.std.specs.Prelude.{◌≡◌, slice_set};
    ghost use Rattle.net_machine.specs.Region.{CanCome, come_over};

    ghost nodes = { λ n. n };

    ghost number_at = { λ n at. at };

    ghost put = { λ n number node. slice_set n number node };

    ghost can_take = { λ links n link packets. CanCome links n link packets };

    ghost takes = { λ links n link packets new. new ≡ come_over links n link packets };

    #[inline(always)]
    fn run_at(
        &mut self,
        at: usize,
        out: &mut Outbox,
        line: &mut Line,
    ) -> Result<Option<u16>, AllocError> {
        self.fire_into(at, out, line)
    }

    #[inline(always)]
    fn link_of(&self, at: usize, index: usize) -> u16 {
        self.link_number(at, index)
    }

    #[inline(always)]
    fn pass_on(&mut self, links: &[LinkEnds], link: usize, packets: &mut PacketChain) {
        let end = links[link].to;
        self.deliver(usize::from(end.node), usize::from(end.index), packets);
    }
}

/// Runs the event of the least key of the node at a place of a region's row, and tells of it in
/// `line`: what leaves the node goes on. Where memory is refused, the region is as it was. `out` is
/// empty before and after.
#[inline(always)]
pub fn run_event<R: Region>(
    region: &mut R,
    out: &mut Outbox,
    links: &[LinkEnds],
    at: usize,
    line: &mut Line,
) -> Result<(), AllocError>
    requires can_run { CanRun links.now (R.nodes region.old) (R.number_at region.old at) }
    requires can_go_on { CanGoOn R.nodes R.put (R.can_take links.now) region.old (R.number_at region.old at) }
    requires empty { out.old ≡ replicate 16 [] }
    ensures ok { OnOk result (HasHappened R.nodes R.put (R.takes links.now) region.old region.new (R.number_at region.old at) (shown line.new)) }
    ensures err { OnErr result (region.new ≡ region.old) }
    ensures empty { out.new ≡ replicate 16 [] }
{
    match region.run_at(at, out, line)? {
        Some(index) => {
            let index = usize::from(index);
            let link = usize::from(region.link_of(at, index));
            let packets = out.chain(index);
            region.pass_on(links, link, packets);
            Ok(())
        }
        None => Ok(()),
    }
}
