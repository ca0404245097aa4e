//! Groups fire and take turns in an order that is drawn: the lines are those of the net event by
//! event, and at each turn the net is that one.
ghost use Rattle.std.specs.Prelude.{◌≡◌, ◌<◌, ◌≤◌, false};

use super::acts;
use super::nets::{SIX_EACH, crossed, grouped};
use crate::nets::is_same;
use net_machine::Net;
use node_core::Line;
use std::alloc::Global;
use std::process::Abort;
use window_core::{Action, Batch, Window};

// Numbers that look drawn (a linear congruential generator).
#[derive(Drop)]
struct Draws {
    state: u64,
}

impl Draws {
    fn below(&mut self, bound: u64) -> u64
        requires { 0 < bound }
        ensures { result < bound }
    {
        self.state = self
            .state
            .wrapping_mul(6_364_136_223_846_793_005)
            .wrapping_add(1_442_695_040_888_963_407);
        (self.state >> 33) % bound
    }
}

/// The next event's line, where one is due. What is refused memory is asked for once more.
pub(super) fn stepped(rt: &impl Abort, net: &mut Net) -> Option<Line> {
    match net.step() {
        Ok(line) => line,
        Err(_) => net.step().ok().expect(rt, "one request is refused"),
    }
}

/// The lines are those that the net tells next.
pub(super) fn steps_as(rt: &impl Abort, net: &mut Net, batch: &Batch) {
    assert_eq!(rt; batch.first(), net.position().saturating_add(1));
    for index in 0..batch.len() {
        let line = stepped(rt, net).expect(rt, "an event that is due");
        is_same(rt, batch.line(index), &line);
        drop(line);
    }
}

// Both nets go on alike to the end, which comes before so many events.
fn go_on_alike(rt: &impl Abort, one: &mut Net, other: &mut Net) {
    assert_eq!(rt; one.position(), other.position());
    for _event in 0..1_000 {
        match (stepped(rt, one), stepped(rt, other)) {
            (Some(line), Some(same)) => {
                is_same(rt, &line, &same);
                drop((line, same));
            }
            (None, None) => return,
            (line, same) => {
                drop((line, same));
                break;
            }
        }
    }
    assert!(rt; false, "both end alike");
}

// Takes a turn where it is possible: its lines are the net's next, and the net is then the
// window's. Then the next window is bounded.
fn turns(rt: &impl Abort, window: &mut Window, net: &mut Net, bound: u64)
    requires { window.old.out ≡ false }
    ensures { window.new.out ≡ false }
{
    if !window.act(Action::Turn).ok().expect(rt, "a turn") {
        return;
    }
    steps_as(rt, net, window.taken());
    let mut edge = window.edge().expect(rt, "the edge");
    let mut copy = net.copy().expect(rt, "a copy");
    go_on_alike(rt, &mut edge, &mut copy);
    drop(edge);
    drop(copy);
    if let Some(next) = window.next() {
        window.limit(next.saturating_add(bound));
    }
}

// Draws actions, more than there are events: the window's lines are the net's.
fn acts_as_drawn(rt: &impl Abort, window: &mut Window, net: &mut Net, groups: usize, seed: u64)
    requires window { window.old.out ≡ false }
    requires few { groups ≤ 64 }
{
    let mut draws = Draws { state: seed };
    for _action in 0..3_000 {
        let drawn = draws.below(groups as u64 + 1) as usize;
        if drawn < groups {
            let _ = acts(rt, window, Action::Fire(drawn));
        } else {
            let bound = draws.below(1_500_000);
            turns(rt, window, net, bound);
        }
    }
}

// A window of these groups that acts as drawn tells what the net does, up to the end.
fn runs_as_stepped(rt: &impl Abort, alloc: Global, mut net: Net, entries: &[u8], seed: u64) {
    let copied = net.copy().expect(rt, "a copy");
    let mut window = grouped(rt, alloc, copied, entries);
    let groups = window.groups();
    assert!(rt; groups <= 64);
    acts_as_drawn(rt, &mut window, &mut net, groups, seed);
    drop(window);
    let left = stepped(rt, &mut net);
    assert!(rt; left.is_none());
    drop(net);
}

#[test]
fn any_order_of_actions_tells_what_stepping_does(rt: HostRuntime) {
    let alloc = rt.alloc();
    let tables: [[u8; 5]; 5] = [
        [0, 1, 2, 3, 4],
        [0, 1, 0, 0, 0],
        [0, 0, 0, 0, 0],
        [1, 0, 2, 0, 2],
        [0, 0, 3, 1, 1],
    ];
    for (number, entries) in tables.iter().enumerate() {
        for seed in 1..4 {
            let net = crossed(&rt, alloc, SIX_EACH);
            runs_as_stepped(&rt, alloc, net, entries, seed * 100 + number as u64);
        }
    }
}
