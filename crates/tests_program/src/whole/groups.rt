//! What texts of groups mean. Those that mean nothing are tried on the built program: dev/test_whole.py.

use sessions::groups::partition_of;
use std::process::Abort;
use window_core::Partition;

/// What a text means for so many nodes.
fn meaning(rt: &(impl Abort + AllocGlobal), text: &str, nodes: usize) -> Partition {
    assert!(rt; 2 <= nodes && nodes <= 256);
    let found = partition_of(rt.alloc(), text, nodes).expect(rt, "memory");
    found.expect(rt, "a partition")
}

/// The group of a node.
fn group(rt: &impl Abort, partition: &Partition, node: usize) -> usize {
    assert!(rt; node < partition.nodes());
    partition.group(node)
}

/// A text means these groups, one a node.
fn expect(rt: &(impl Abort + AllocGlobal), text: &str, groups: &[usize]) {
    let partition = meaning(rt, text, groups.len());
    assert_eq!(rt; partition.nodes(), groups.len());
    for (node, wanted) in groups.iter().enumerate() {
        assert!(rt; group(rt, &partition, node) == *wanted, "{text}");
    }
}

#[test]
fn texts_mean_groups(rt: HostRuntime) {
    expect(&rt, "one", &[0, 0]);
    expect(&rt, "one", &[0, 0, 0, 0, 0]);
    expect(&rt, "each", &[0, 1, 2]);
    expect(&rt, "0,1", &[0, 1]);
    expect(&rt, "63,0,10", &[63, 0, 10]);
    expect(&rt, "7,7,7", &[7, 7, 7]);
}

#[test]
fn each_of_many_nodes_has_one_of_64_groups(rt: HostRuntime) {
    let partition = meaning(&rt, "each", 256);
    assert_eq!(rt; partition.nodes(), 256);
    for (node, wanted) in [(63, 63), (64, 0), (255, 63)] {
        assert_eq!(rt; group(&rt, &partition, node), wanted);
    }
}
