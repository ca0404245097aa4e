//! Groups that the program finds. That they change no byte is tried on the built program: dev/test_whole.py.

use net_partition::Partition;
use scenario_asm::assemble;
use std::process::Abort;

/// One sender and its receiver.
const FIRST: &str = "sim 1000000000
node s sender
node r receiver
link a s r 8000000 1000000 droptail 10
link b r s 8000000 1000000 droptail 10
flow f s r 1000 1 0 64000 0
";

/// Three senders, each with a receiver of its own.
const ISLANDS: &str = "sim 1000000000
node a sender
node b receiver
node c sender
node d receiver
node e sender
node f receiver
link ab a b 800000000 100000 droptail 100
link ba b a 800000000 100000 droptail 100
link cd c d 800000000 100000 droptail 100
link dc d c 800000000 100000 droptail 100
link ef e f 800000000 100000 droptail 100
link fe f e 800000000 100000 droptail 100
flow g a b 1000 1000 0 64000 0
flow h c d 1000 1000 0 64000 0
flow i e f 1000 1000 0 64000 0
";

/// Two of them.
const TWO_ISLANDS: &str = "sim 1000000000
node a sender
node b receiver
node c sender
node d receiver
link ab a b 800000000 100000 droptail 100
link ba b a 800000000 100000 droptail 100
link cd c d 800000000 100000 droptail 100
link dc d c 800000000 100000 droptail 100
flow g a b 1000 1000 0 64000 0
flow h c d 1000 1000 0 64000 0
";

/// Four parts of a router and two ends each, in a ring of links of 10 to 13 ms.
const RING: &str = "sim 100000000000
node a router
node b router
node c router
node d router
node e sender
node f receiver
node g sender
node h receiver
node i sender
node j receiver
node k sender
node l receiver
link ab a b 1000000000 10000000 droptail 100
link bc b c 1000000000 11000000 droptail 100
link cd c d 1000000000 12000000 droptail 100
link da d a 1000000000 13000000 droptail 100
link ea e a 1000000000 100000 droptail 100
link ae a e 1000000000 100000 droptail 100
link fa f a 1000000000 100000 droptail 100
link af a f 1000000000 100000 droptail 100
link gb g b 1000000000 100000 droptail 100
link bg b g 1000000000 100000 droptail 100
link hb h b 1000000000 100000 droptail 100
link bh b h 1000000000 100000 droptail 100
link ic i c 1000000000 100000 droptail 100
link ci c i 1000000000 100000 droptail 100
link jc j c 1000000000 100000 droptail 100
link cj c j 1000000000 100000 droptail 100
link kd k d 1000000000 100000 droptail 100
link dk d k 1000000000 100000 droptail 100
link ld l d 1000000000 100000 droptail 100
link dl d l 1000000000 100000 droptail 100
flow m e f 1000 20000 0 64000 0
flow n g h 1000 20000 0 64000 0
flow o i j 1000 20000 0 64000 0
flow p k l 1000 20000 0 64000 0
route a e ae
route a f af
route b g bg
route b h bh
route c i ci
route c j cj
route d k dk
route d l dl
";

/// One flow whose window is a twelfth of what is under way on a full line.
const SMALL_WINDOW: &str = "sim 1000000000000
node s sender
node r receiver
link a s r 10000000000 100000000 droptail 20000
link b r s 10000000000 50000000 droptail 20000
flow f s r 1460 200000 0 14600000 0
";

/// The same with a window of more than that.
const FULL_LINE: &str = "sim 1000000000000
node s sender
node r receiver
link a s r 10000000000 100000000 droptail 20000
link b r s 10000000000 50000000 droptail 20000
flow f s r 1460 400000 0 400000000 0
";

/// The groups that are found for so many workers.
fn found(rt: &(impl Abort + AllocGlobal), text: &str, workers: usize) -> Partition {
    let scenario = assemble(rt.alloc(), text.as_bytes()).ok();
    let scenario = scenario.expect(rt, "a scenario");
    Partition::found(&scenario, workers)
}

/// Each node is in its group.
fn expect_groups(rt: &(impl Abort + AllocGlobal), partition: &Partition, groups: &[usize]) {
    assert_eq!(rt; partition.nodes(), groups.len());
    for (node, group) in groups.iter().enumerate() {
        assert!(rt; node < partition.nodes());
        assert_eq!(rt; partition.group(node), *group);
    }
}

/// Each node is found in its group.
fn expect_found(rt: &(impl Abort + AllocGlobal), text: &str, workers: usize, groups: &[usize]) {
    expect_groups(rt, &found(rt, text, workers), groups);
}

#[test]
fn islands_are_found_for_as_many_workers(rt: HostRuntime) {
    expect_found(&rt, ISLANDS, 3, &[0, 0, 1, 1, 2, 2]);
    expect_found(&rt, ISLANDS, 64, &[0, 0, 1, 1, 2, 2]);
    expect_found(&rt, ISLANDS, 1, &[0, 0, 0, 0, 0, 0]);
    expect_found(&rt, FIRST, 64, &[0, 0]);
}

#[test]
fn two_equal_halves_are_found(rt: HostRuntime) {
    expect_found(&rt, TWO_ISLANDS, 2, &[0, 0, 1, 1]);
    expect_found(&rt, TWO_ISLANDS, 4, &[0, 0, 1, 1]);
}

#[test]
fn more_groups_are_worth_more_windows(rt: HostRuntime) {
    expect_found(&rt, RING, 2, &[0, 0, 1, 1, 0, 0, 0, 0, 1, 1, 1, 1]);
    expect_found(&rt, RING, 4, &[0, 1, 2, 3, 0, 0, 1, 1, 2, 2, 3, 3]);
}

#[test]
fn ends_that_take_turns_stay_together(rt: HostRuntime) {
    expect_found(&rt, SMALL_WINDOW, 4, &[0, 0]);
    expect_found(&rt, FULL_LINE, 4, &[0, 1]);
}

#[test]
fn groups_without_a_node_are_left_out(rt: HostRuntime) {
    let entries = vec![in rt.alloc(); 13u8, 0, 13, 63, 4].ok();
    let partition = Partition::new(entries.expect(&rt, "memory"));
    let partition = partition.expect(&rt, "groups");
    expect_groups(&rt, &partition.without_gaps(), &[2, 0, 2, 3, 1]);
}
