//! Copies of a link. What links do at each moment is tried on the built program, which runs
//! dev/whole/codel_drops_before_it_sends.txt and dev/whole/lost_by_number_and_full.txt.
use aqm::{DropTail, Queue};
use packet_chain::{Kind, Packet, PacketBytes, PacketCell, PacketChain};
use port::{Acts, Port};
use sim_time::Rate;
use std::alloc::{AllocError, Global};
use std::process::Abort;

/// A cell with a packet of 1,040 bytes, known by its number.
fn cell(rt: &impl Abort, alloc: Global, number: u64) -> Result<PacketCell, AllocError> {
    let packet = Packet {
        flow: 0,
        kind: Kind::Data,
        number,
        bytes: PacketBytes::new(1040).expect(rt, "a size"),
    };
    let cell = PacketCell::new(alloc, packet)?;
    Ok(cell)
}

/// A link of 8 Mbit/s and 1 ms, of number 7, with room for three packets, that loses the first and
/// the seventh.
fn new_port(rt: &impl Abort, alloc: Global) -> Result<Port, AllocError> {
    let rate = Rate::new(8_000_000).expect(rt, "a rate");
    let lose = vec![in alloc; 1, 7]?;
    let queue = Queue::DropTail(DropTail::new(alloc, 3));
    Ok(Port::new(alloc, 7, rate, 1_000_000, queue, lose))
}

/// Offers a packet of this number at the beginning.
fn offer(
    rt: &impl Abort,
    alloc: Global,
    port: &mut Port,
    number: u64,
    acts: &mut Acts,
) -> Result<(), AllocError> {
    acts.reserve(port.room())?;
    let cell = cell(rt, alloc, number)?;
    let mut out = PacketChain::new(alloc);
    assert!(rt; port.sent() < 100);
    assert!(rt; port.offered() < 100);
    port.send(cell, 0, acts, &mut out);
    Ok(())
}

/// Offers packets 0 to 3.
fn offer_four(rt: &impl Abort, alloc: Global, port: &mut Port) -> Result<(), AllocError> {
    let mut acts = Acts::new(alloc);
    for number in 0..4 {
        offer(rt, alloc, port, number, &mut acts)?;
    }
    Ok(())
}

/// A port that has lost a packet and sent one, and with which two wait.
fn used_port(rt: &impl Abort, alloc: Global) -> Result<Port, AllocError> {
    let mut port = new_port(rt, alloc)?;
    match offer_four(rt, alloc, &mut port) {
        Ok(()) => Ok(port),
        Err(error) => {
            drop(port);
            Err(error)
        }
    }
}

/// The port is as `used_port` makes it.
fn expect_used(rt: &impl Abort, port: &Port) {
    assert_eq!(rt; (port.link(), port.offered(), port.sent()), (7, 4, 1));
    assert_eq!(rt; port.next_free(), Some(1_040_000));
    let mut packets = port.queue().packets();
    for number in 2..4 {
        assert_eq!(rt;
            packets.next().map(|(packet, _entered)| packet.number),
            Some(number)
        );
    }
    assert!(rt; packets.next().is_none());
}

// The same. What is refused is asked for once more.
fn made(rt: &impl Abort, alloc: Global) -> Port {
    match used_port(rt, alloc) {
        Ok(port) => port,
        Err(_) => used_port(rt, alloc).expect(rt, "one request is refused"),
    }
}

// A refused copy leaves the source, and a second one is made. The gate refuses none, as no test can
// make the heap refuse: dev/refuse_tests.sh runs this with each request for memory refused in
// turn.
#[test]
fn copies_are_in_the_same_state(rt: HostRuntime) {
    let source = made(&rt, rt.alloc());
    let copied = match source.copy() {
        Ok(copied) => copied,
        Err(_) => {
            expect_used(&rt, &source);
            source.copy().expect(&rt, "one request is refused")
        }
    };
    expect_used(&rt, &source);
    expect_used(&rt, &copied);
}
