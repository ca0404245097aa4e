//! Windows action by action. The moments and keys are reckoned by hand: a packet of 1,000 bytes is
//! 1,040,000 ns on its way to a link and a millisecond on it, an acknowledgement 40,000 ns.
ghost use Rattle.std.specs.Prelude.{◌≡◌, false};

use super::acts;
use super::nets::{ONE_EACH, crossed, grouped, opened, pair};
use std::process::Abort;
use window_core::{Action, Batch, Partition, Window};

// Time, node, source and number of an event.
type KeyParts = (u64, u16, u16, u64);

// An action and whether it is possible; then where the window ends, how many lines were given
// before those that are taken, and how many these are.
type ActionRow = (Action, bool, u64, usize, usize);

// The key of a line, where there is such a line.
fn key_of(batch: &Batch, index: usize) -> Option<KeyParts> {
    if index >= batch.len() {
        return None;
    }
    let key = batch.line(index).key;
    Some((key.time, key.node, key.source, key.number))
}

// The batch has so many lines of those of a run with these keys, behind so many others.
fn is_taken(rt: &impl Abort, batch: &Batch, keys: &[KeyParts], before: usize, count: usize) {
    assert_eq!(rt; batch.first(), (before as u64).saturating_add(1));
    assert_eq!(rt; batch.len(), count);
    for index in 0..count {
        let key = keys.get(before.saturating_add(index)).copied();
        assert!(rt; key_of(batch, index) == key && key.is_some());
    }
}

// Does the actions, and compares what comes of each.
fn follows(rt: &impl Abort, window: &mut Window, keys: &[KeyParts], rows: &[ActionRow])
    requires { window.old.out ≡ false }
{
    for (action, possible, end, before, count) in rows {
        let done = acts(rt, window, *action);
        assert!(rt; done == *possible && window.end() == *end);
        is_taken(rt, window.taken(), keys, *before, *count);
    }
}

// The start, the segment's way there, and the acknowledgement's way back.
const PAIR: [KeyParts; 5] = [
    (0, 0, 0, 0),
    (1_040_000, 0, 0, 3),
    (2_040_000, 1, 1, 1),
    (2_080_000, 1, 0, 3),
    (3_080_000, 0, 2, 1),
];

// Two starts, two segments sent, and both at the router.
const CROSSED: [KeyParts; 6] = [
    (0, 0, 0, 0),
    (0, 1, 0, 0),
    (1_040_000, 0, 0, 3),
    (1_040_000, 1, 0, 3),
    (2_040_000, 2, 1, 1),
    (2_040_000, 2, 2, 1),
];

#[test]
fn two_groups_of_one_node_take_turns(rt: HostRuntime) {
    let mut window = opened(&rt, rt.alloc(), pair(&rt, rt.alloc()), Partition::each(2));
    assert_eq!(rt; window.lookahead(), Some(1_000_000));
    assert_eq!(rt; window.end(), 1_000_000);
    is_taken(&rt, window.taken(), &PAIR, 0, 0);
    let rows = [
        (Action::Fire(1), false, 1_000_000, 0, 0),
        (Action::Fire(2), false, 1_000_000, 0, 0),
        (Action::Turn, false, 1_000_000, 0, 0),
        (Action::Fire(0), true, 1_000_000, 0, 0),
        (Action::Fire(0), false, 1_000_000, 0, 0),
        (Action::Turn, true, 2_040_000, 0, 1),
        (Action::Fire(1), false, 2_040_000, 0, 1),
        (Action::Fire(0), true, 2_040_000, 0, 1),
        (Action::Turn, true, 3_040_000, 1, 1),
        (Action::Fire(1), true, 3_040_000, 1, 1),
        (Action::Fire(1), true, 3_040_000, 1, 1),
        (Action::Turn, true, 4_080_000, 2, 2),
        (Action::Fire(0), true, 4_080_000, 2, 2),
        (Action::Turn, true, 1_000_000_000, 4, 1),
        (Action::Turn, true, 1_000_000_000, 5, 0),
    ];
    follows(&rt, &mut window, &PAIR, &rows);
    drop(window);
}

#[test]
fn one_group_has_one_window(rt: HostRuntime) {
    let mut window = opened(&rt, rt.alloc(), pair(&rt, rt.alloc()), Partition::one(2));
    assert_eq!(rt; window.lookahead(), None);
    let fire = (Action::Fire(0), true, 1_000_000_000, 0, 0);
    let rows = [
        fire,
        fire,
        fire,
        fire,
        fire,
        (Action::Fire(0), false, 1_000_000_000, 0, 0),
        (Action::Turn, true, 1_000_000_000, 0, 5),
    ];
    follows(&rt, &mut window, &PAIR, &rows);
    drop(window);
}

#[test]
fn lines_are_in_the_order_of_keys_whoever_fired_first(rt: HostRuntime) {
    let net = crossed(&rt, rt.alloc(), ONE_EACH);
    let mut window = opened(&rt, rt.alloc(), net, Partition::each(5));
    let rows = [
        (Action::Fire(1), true, 1_000_000, 0, 0),
        (Action::Fire(0), true, 1_000_000, 0, 0),
        (Action::Fire(4), false, 1_000_000, 0, 0),
        (Action::Turn, true, 2_040_000, 0, 2),
    ];
    follows(&rt, &mut window, &CROSSED, &rows);
    drop(window);
}

#[test]
fn links_between_two_groups_bound_the_window(rt: HostRuntime) {
    let alloc = rt.alloc();
    let net = crossed(&rt, alloc, ONE_EACH);
    let mut window = grouped(&rt, alloc, net, &[0, 1, 0, 0, 0]);
    assert_eq!(rt; window.lookahead(), Some(1_000_000));
    let rows = [
        (Action::Fire(0), true, 1_000_000, 0, 0),
        (Action::Fire(1), true, 1_000_000, 0, 0),
        (Action::Turn, true, 2_040_000, 0, 2),
        (Action::Fire(1), true, 2_040_000, 0, 2),
        (Action::Fire(0), true, 2_040_000, 0, 2),
        (Action::Turn, true, 2_040_001, 2, 2),
        (Action::Fire(0), true, 2_040_001, 2, 2),
        (Action::Fire(0), true, 2_040_001, 2, 2),
        (Action::Fire(0), false, 2_040_001, 2, 2),
        (Action::Turn, true, 2_040_001, 4, 2),
    ];
    follows(&rt, &mut window, &CROSSED, &rows);
    drop(window);
}
