ghost use Rattle.std.specs.Prelude.{◌≡◌};

use node_core::{Event, Wire};
use packet_chain::{Kind, Packet, PacketBytes, PacketCell, PacketChain};
use sim_time::{Key, Time};
use std::alloc::Global;
use std::process::Abort;

// A segment of flow 0 that begins with this byte.
fn segment(rt: &impl Abort, number: u64) -> Packet {
    Packet {
        flow: 0,
        kind: Kind::Data,
        number,
        bytes: PacketBytes::new(1_040).expect(rt, "a size"),
    }
}

// The segment, on its way until that time.
fn sent(rt: &impl Abort, alloc: Global, number: u64, time: Time) -> PacketCell
    ensures { result.1 ≡ time }
{
    let mut cell = PacketCell::new(alloc, segment(rt, number)).expect(rt, "a cell");
    cell.set_stamp(time);
    cell
}

// When and as what it arrives at node 3 over link 7.
fn arrival(rt: &impl Abort, number: u64, time: Time, count: u64) -> (Key, Event) {
    let key = Key {
        time,
        node: 3,
        source: 8,
        number: count,
    };
    (key, Event::Arrive(segment(rt, number)))
}

// Three segments on their way to node 3 over link 7.
fn under_way(rt: &impl Abort, alloc: Global) -> Wire {
    let mut wire = Wire::new(alloc, 3, 7);
    assert!(rt; wire.head().is_none());
    let mut chain = PacketChain::new(alloc);
    chain.push_back(sent(rt, alloc, 0, 50));
    chain.push_back(sent(rt, alloc, 1_000, 60));
    chain.push_back(sent(rt, alloc, 2_000, 70));
    wire.append(&mut chain);
    assert_eq!(rt; chain.len(), 0);
    wire
}

// The segment arrives next.
fn expect_next(rt: &impl Abort, wire: &mut Wire, number: u64, time: Time, count: u64) {
    let (key, event) = arrival(rt, number, time, count);
    assert_eq!(rt; wire.next_time(), Some(time));
    assert!(rt; wire.head() == Some((key, event)));
    let cell = wire.pop().expect(rt, "under way");
    assert_eq!(rt; cell.packet().number, number);
}

#[test]
fn packets_arrive_in_turn(rt: HostRuntime) {
    let mut wire = under_way(&rt, rt.alloc());
    let copy = wire.copy().expect(&rt, "a copy");
    expect_next(&rt, &mut wire, 0, 50, 1);
    expect_next(&rt, &mut wire, 1_000, 60, 2);
    expect_next(&rt, &mut wire, 2_000, 70, 3);
    assert!(rt; wire.pop().is_none());
    assert_eq!(rt; wire.taken(), 3);
    assert!(rt; copy.head() == Some(arrival(&rt, 0, 50, 1)));
}
