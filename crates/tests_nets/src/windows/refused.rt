//! Windows where memory is refused. Each test passes whichever one request is refused, as
//! dev/refuse_tests.sh tries: what is refused is asked for once more.
ghost use Rattle.std.specs.Prelude.{◌≡◌, ◌<◌, false, length};

use super::nets::{TWO_EACH, crossed, opened, pair};
use super::schedules::{stepped, steps_as};
use net_machine::Net;
use sim_time::Time;
use std::alloc::Global;
use std::process::Abort;
use window_core::{Action, Partition, Window};

// Runs a group up to the window's end. Where memory was refused, one more of its events is due
// below that end, and the group is run once more.
fn runs(rt: &impl Abort, window: &mut Window, group: usize)
    requires inside { window.old.out ≡ false }
    requires within { group < length window.old.groups }
    ensures { window.new.out ≡ false }
{
    if window.run_group(group).is_ok() {
        return;
    }
    let next = window.next().expect(rt, "an event that is due");
    assert!(rt; next < window.end() && group < window.groups());
    let again = window.run_group(group);
    assert!(rt; again.is_ok());
}

// What stands as it did where a turn is refused: the window's end, the events that were run, when
// the next is, and how many lines were taken from which on.
fn reported(window: &Window) -> (Time, u64, Option<Time>, u64, usize)
    requires { window.now.out ≡ false }
{
    let taken = window.taken();
    (
        window.end(),
        window.position(),
        window.next(),
        taken.first(),
        taken.len(),
    )
}

// Takes a turn. Where memory was refused, nothing has changed, and the turn is taken once more.
fn turns(rt: &impl Abort, window: &mut Window)
    requires { window.old.out ≡ false }
    ensures { window.new.out ≡ false }
{
    let before = reported(window);
    match window.act(Action::Turn) {
        Ok(done) => assert!(rt; done),
        Err(_) => {
            assert_eq!(rt; reported(window), before);
            let again = window.act(Action::Turn);
            assert!(rt; matches!(again, Ok(true)));
        }
    }
}

// Runs each group up to the window's end, and takes a turn: its lines are those that the net tells
// next. Whether there were some.
fn goes_on(rt: &impl Abort, window: &mut Window, net: &mut Net) -> bool
    requires { window.old.out ≡ false }
    ensures { window.new.out ≡ false }
{
    for group in 0..window.groups() {
        assert!(rt; group < window.groups());
        runs(rt, window, group);
    }
    turns(rt, window);
    steps_as(rt, net, window.taken());
    !window.taken().is_empty()
}

// Runs all windows of a net that is alike: how many have lines.
fn windows_of(rt: &impl Abort, window: &mut Window, net: &mut Net) -> u64
    requires { window.old.out ≡ false }
{
    for count in 0..100 {
        if !goes_on(rt, window, net) {
            return count;
        }
    }
    assert!(rt; false, "at most a hundred windows");
    0
}

// The same, with the nodes in these groups. No event is left then.
fn windows_with_lines(
    rt: &impl Abort,
    alloc: Global,
    net: Net,
    alike: Net,
    partition: Partition,
) -> u64 {
    let mut window = opened(rt, alloc, net, partition);
    let mut alike = alike;
    let count = windows_of(rt, &mut window, &mut alike);
    let left = stepped(rt, &mut alike);
    assert!(rt; left.is_none());
    drop(window);
    drop(alike);
    count
}

// The net and the partition come back, and open the window.
#[test]
fn a_refused_window_gives_the_net_back(rt: HostRuntime) {
    let alloc = rt.alloc();
    let mut net = pair(&rt, alloc);
    drop(stepped(&rt, &mut net));
    let mut alike = pair(&rt, alloc);
    drop(stepped(&rt, &mut alike));
    let windows = windows_with_lines(&rt, alloc, net, alike, Partition::each(2));
    assert_eq!(rt; windows, 3);
}

#[test]
fn a_refused_turn_leaves_the_window(rt: HostRuntime) {
    let alloc = rt.alloc();
    let net = crossed(&rt, alloc, TWO_EACH);
    let alike = crossed(&rt, alloc, TWO_EACH);
    let windows = windows_with_lines(&rt, alloc, net, alike, Partition::each(5));
    assert!(rt; windows > 1);
}

// All nodes are in one group, which has all events in one window.
#[test]
fn a_refused_group_stands_after_whole_events(rt: HostRuntime) {
    let alloc = rt.alloc();
    let net = crossed(&rt, alloc, TWO_EACH);
    let alike = crossed(&rt, alloc, TWO_EACH);
    let windows = windows_with_lines(&rt, alloc, net, alike, Partition::one(5));
    assert_eq!(rt; windows, 1);
}
