ghost use Rattle.std.specs.Prelude.{◌≡◌, false};

mod acting;
mod apart;
pub(crate) mod nets;
mod refused;
mod schedules;

use sim_time::Time;
use std::alloc::Global;
use std::process::Abort;
use window_core::{Action, Partition, Window, window_end};

/// Does an action. Whether it was possible.
fn acts(rt: &impl Abort, window: &mut Window, action: Action) -> bool
    requires { window.old.out ≡ false }
    ensures { window.new.out ≡ false }
{
    window.act(action).ok().expect(rt, "an action")
}

// Whether these entries are a partition.
fn is_partition(rt: &impl Abort, alloc: Global, entries: &[u8]) -> bool {
    let entries = Vec::from_slice(alloc, entries).expect(rt, "entries");
    Partition::new(entries).is_some()
}

// The partition has so many nodes and groups, and this node is in this group.
fn expect_group(
    rt: &impl Abort,
    partition: &Partition,
    (nodes, groups): (usize, usize),
    node: usize,
    group: usize,
) {
    assert_eq!(rt; (partition.nodes(), partition.groups()), (nodes, groups));
    assert!(rt; node < partition.nodes());
    assert_eq!(rt; partition.group(node), group);
}

#[test]
fn two_to_256_entries_of_0_to_63_are_a_partition(rt: HostRuntime) {
    let alloc = rt.alloc();
    assert!(rt; !is_partition(&rt, alloc, &[0]));
    assert!(rt; !is_partition(&rt, alloc, &[0; 257]));
    assert!(rt; !is_partition(&rt, alloc, &[0, 64]));
    assert!(rt; is_partition(&rt, alloc, &[0; 256]));
    let entries = Vec::from_slice(alloc, &[63, 0]).expect(&rt, "entries");
    let partition = Partition::new(entries).expect(&rt, "two groups");
    expect_group(&rt, &partition, (2, 64), 0, 63);
    expect_group(&rt, &partition, (2, 64), 1, 0);
}

#[test]
fn one_group_has_all_nodes(rt: HostRuntime) {
    let partition = Partition::one(256);
    expect_group(&rt, &partition, (256, 1), 255, 0);
}

#[test]
fn the_65th_node_shares_the_first_ones_group(rt: HostRuntime) {
    let partition = Partition::each(65);
    expect_group(&rt, &partition, (65, 64), 1, 1);
    expect_group(&rt, &partition, (65, 64), 63, 63);
    expect_group(&rt, &partition, (65, 64), 64, 0);
}

// A run of a second ends a window there, with the least event and the lookahead at these times.
fn expect_end(rt: &impl Abort, soonest: Option<Time>, ahead: Option<Time>, end: Time) {
    assert_eq!(rt; window_end(soonest, ahead, 1_000_000_000), end);
}

#[test]
fn a_window_ends_by_the_least_event_and_the_lookahead(rt: HostRuntime) {
    let ahead = Some(1_000_000);
    expect_end(&rt, Some(1_040_000), ahead, 2_040_000);
    expect_end(&rt, Some(999_500_000), ahead, 1_000_000_000);
    expect_end(&rt, None, ahead, 1_000_000_000);
    expect_end(&rt, Some(1_040_000), None, 1_000_000_000);
}
