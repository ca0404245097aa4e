//! Each event of a run by its node's own call, over a copy of the node. With each request for memory
//! refused in turn (dev/refuse_tests.sh) it passes as well: what is refused is asked for again.
ghost use Rattle.std.specs.Prelude.{◌≡◌, ◌≢◌, ◌<◌, ◌≤◌, ◌^◌, ℕ, [], All, IfOk, length, replicate, Some};
ghost use Rattle.sim_time.specs.declared.key.Key.{Key};
ghost use Rattle.sim_time.specs.declared.limits.TheConstants.{MOST_EVENTS};
ghost use Rattle.tournament.specs.Keyed.{least, next_key};
ghost use Rattle.node_core.specs.declared.event.Event.{Event};
ghost use Rattle.node_core.specs.Ready.{IsRunnable};

use super::is_same;
use super::two_flows::{LOST, SLOW, opened, run_next};
use net_machine::Net;
use net_machine::nodes::Nodes;
use node_core::{Act, DropReason, Line, Node, Outbox, TakeDrop};
use sim_time::MOST_EVENTS;
use std::alloc::Global;
use std::process::Abort;
use tournament::Timetable;

/// A copy of a net.
pub(super) fn copied(rt: &impl Abort, net: &Net) -> Net {
    match net.copy() {
        Ok(copy) => copy,
        Err(_) => net.copy().expect(rt, "one request is refused"),
    }
}

/// The same, of whose nodes those of these numbers are copied first.
pub(super) fn copied_in(rt: &impl Abort, net: &Net, order: &[u16]) -> Net {
    match net.copy_in(order) {
        Ok(copy) => copy,
        Err(_) => net.copy_in(order).expect(rt, "one request is refused"),
    }
}

// A timetable of so many nodes.
fn room(rt: &impl Abort, alloc: Global, nodes: usize) -> Timetable
    requires { nodes ≤ 2 ^ 12 }
    ensures { length result ≡ nodes }
{
    match Timetable::new(alloc, nodes) {
        Ok(timetable) => timetable,
        Err(_) => Timetable::new(alloc, nodes).expect(rt, "one request is refused"),
    }
}

// A chain for each link that a node can have.
fn outbox(rt: &impl Abort, alloc: Global) -> Outbox
    ensures { result ≡ replicate 16 [] }
{
    match Outbox::new(alloc, 16) {
        Ok(out) => out,
        Err(_) => Outbox::new(alloc, 16).expect(rt, "one request is refused"),
    }
}

// Runs a node's next event. Where memory is refused, the node and its chains are as they were, and
// the event is run once more: no router asks for any.
fn fired(rt: &impl Abort, node: &mut Node, out: &mut Outbox) -> Line
    requires pending { next_key node.old.pending ≢ None }
    requires due { (k : Key) (v : Event) → least node.old.pending ≡ Some (k, v) → IsRunnable node.old.part k v }
    requires chains { length node.old.part.links ≤ length out.old }
    requires room { All (λ chain. length chain < MOST_EVENTS) out.old }
{
    let next = node.least();
    match node.fire(out) {
        Ok(line) => line,
        Err(_) => {
            assert!(rt; node.sender().is_some() || node.receiver().is_some());
            assert_eq!(rt; node.least(), next);
            node.fire(out).expect(rt, "one request is refused")
        }
    }
}

// Runs the event that is due by its node's own call, at a copy, and then by the net, and compares
// what both tell. Whether there was one.
fn runs_by_both(rt: &impl Abort, alloc: Global, net: &mut Net, reported: &mut Line) -> bool {
    let parts = copied(rt, net).into_parts();
    assert!(rt; parts.nodes.len() <= 256);
    let timetable = room(rt, alloc, parts.nodes.len());
    let all = Nodes::of_parts(parts.nodes, timetable);
    let Some((place, time)) = all.first() else {
        return false;
    };
    if time >= parts.end || parts.position == MOST_EVENTS {
        return false;
    }
    let (mut nodes, _timetable) = all.into_parts();
    let mut out = outbox(rt, alloc);
    let node = &mut nodes[place];
    let line = fired(rt, node, &mut out);
    let ran = run_next(rt, net, reported);
    assert!(rt; ran);
    is_same(rt, &line, reported);
    let there = net.nodes().get(place).expect(rt, "the node");
    assert_eq!(rt; node.least(), there.least());
    true
}

// Whether CoDel dropped a packet in a line's event.
fn tells_of_codel(line: &Line) -> bool {
    for act in line.acts.as_slice() {
        if let Act::Dropped(_, DropReason::Take(TakeDrop::Codel), _) = act {
            return true;
        }
    }
    false
}

// Runs all events. How many there were, and whether CoDel dropped a packet.
fn runs_all(rt: &impl Abort, alloc: Global, net: &mut Net) -> (u64, bool) {
    let mut reported = Line::new(alloc);
    let mut dropped = false;
    for _event in 0..200 {
        if !runs_by_both(rt, alloc, net, &mut reported) {
            break;
        }
        dropped = dropped || tells_of_codel(&reported);
    }
    let left = run_next(rt, net, &mut reported);
    assert!(rt; !left);
    (net.position(), dropped)
}

#[test]
fn nodes_run_their_events_as_the_net_does(rt: HostRuntime) {
    let mut net = opened(&rt, rt.alloc(), LOST);
    let (count, dropped) = runs_all(&rt, rt.alloc(), &mut net);
    assert_eq!(rt; (count, dropped), (28, false));
    drop(net);
}

// The receiver holds segments, for which it asks for memory, and CoDel drops one at the router.
#[test]
fn receivers_hold_segments_and_codel_drops_as_in_the_net(rt: HostRuntime) {
    let mut net = opened(&rt, rt.alloc(), SLOW);
    let (count, dropped) = runs_all(&rt, rt.alloc(), &mut net);
    assert!(rt; count > 28 && dropped);
    drop(net);
}
