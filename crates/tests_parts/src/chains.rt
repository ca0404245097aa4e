use packet_chain::{Kind, Packet, PacketBytes, PacketCell, PacketChain};
use std::alloc::{AllocError, Global};
use std::process::Abort;

fn packet(rt: &impl Abort, number: u64) -> Packet {
    Packet {
        flow: 7,
        kind: Kind::Data,
        number,
        bytes: PacketBytes::new(1000).expect(rt, "a size"),
    }
}

// Puts a packet of that number at the end, with twice the number as its stamp.
fn push(
    rt: &impl Abort,
    alloc: Global,
    chain: &mut PacketChain,
    number: u32,
) -> Result<(), AllocError> {
    let mut cell = PacketCell::new(alloc, packet(rt, u64::from(number)))?;
    cell.set_stamp(2 * u64::from(number));
    assert!(rt; chain.len() < 1 << 40);
    chain.push_back(cell);
    Ok(())
}

// The same, where memory is there.
fn put(rt: &impl Abort, alloc: Global, chain: &mut PacketChain, number: u32) {
    push(rt, alloc, chain, number).expect(rt, "a cell");
}

fn chain_of(rt: &impl Abort, alloc: Global, numbers: &[u32]) -> Result<PacketChain, AllocError> {
    let mut chain = PacketChain::new(alloc);
    for number in numbers {
        push(rt, alloc, &mut chain, *number)?;
    }
    Ok(chain)
}

// A chain of these packets. What is refused is asked for once more.
fn made(rt: &impl Abort, alloc: Global, numbers: &[u32]) -> PacketChain {
    match chain_of(rt, alloc, numbers) {
        Ok(chain) => chain,
        Err(_) => chain_of(rt, alloc, numbers).expect(rt, "one request is refused"),
    }
}

// The packet and its stamp are those of that number.
fn is_numbered(rt: &impl Abort, (found, stamp): (Packet, u64), number: u64) {
    assert_eq!(rt; found, packet(rt, number));
    assert_eq!(rt; Some(stamp), number.checked_mul(2));
}

// The chain has these numbers, their stamps, and the length and the bytes that go with them.
fn expect_numbers(rt: &impl Abort, chain: &PacketChain, numbers: &[u64]) {
    assert_eq!(rt; chain.len(), numbers.len());
    assert_eq!(rt;
        Some(chain.bytes()),
        1000u64.checked_mul(numbers.len() as u64)
    );
    let mut rest = chain.iter();
    for number in numbers {
        is_numbered(rt, rest.next().expect(rt, "a packet"), *number);
    }
    assert!(rt; rest.next().is_none());
}

// Appends a chain to another.
fn appended(rt: &impl Abort, first: &mut PacketChain, second: &mut PacketChain) {
    assert!(rt; first.len() < 1 << 40 && second.len() < 1 << 40);
    first.append(second);
}

// Of two chains the second is appended to the first, then 4 is pushed to that and 5 to the second.
fn appends(rt: &impl Abort, alloc: Global, first: &[u32], second: &[u32], after: &[u64]) {
    let mut a = made(rt, alloc, first);
    let mut b = made(rt, alloc, second);
    appended(rt, &mut a, &mut b);
    expect_numbers(rt, &b, &[]);
    put(rt, alloc, &mut a, 4);
    put(rt, alloc, &mut b, 5);
    expect_numbers(rt, &a, after);
    expect_numbers(rt, &b, &[5]);
}

#[test]
fn appends_and_pushes_to_both(rt: HostRuntime) {
    let alloc = rt.alloc();
    appends(&rt, alloc, &[1, 2], &[3], &[1, 2, 3, 4]);
    appends(&rt, alloc, &[], &[1, 2], &[1, 2, 4]);
    appends(&rt, alloc, &[1], &[], &[1, 4]);
    appends(&rt, alloc, &[], &[], &[4]);
}

#[test]
fn pops_past_the_end_and_pushes_again(rt: HostRuntime) {
    let alloc = rt.alloc();
    let mut chain = made(&rt, alloc, &[1]);
    assert_eq!(rt; chain.front().map(|front| front.0.number), Some(1));
    let mut cell = chain.pop_front().expect(&rt, "a cell");
    is_numbered(&rt, (cell.packet(), cell.stamp()), 1);
    cell.set_packet(packet(&rt, 3));
    assert_eq!(rt; cell.stamp(), 2);
    assert!(rt; chain.pop_front().is_none());
    assert!(rt; chain.front().is_none());
    expect_numbers(&rt, &chain, &[]);
    assert_eq!(rt; cell.into_packet().number, 3);
    put(&rt, alloc, &mut chain, 2);
    expect_numbers(&rt, &chain, &[2]);
}

// A refused copy leaves the source its four packets, and a second one has them. The gate refuses
// none: cells come from the C library's heap alone, and no test can make that refuse. So
// dev/refuse_tests.sh runs this with each request for memory refused in turn.
#[test]
fn a_refused_copy_leaves_its_source(rt: HostRuntime) {
    let source = made(&rt, rt.alloc(), &[1, 2, 3, 4]);
    let copied = copy_of(&rt, &source, &[1, 2, 3, 4]);
    expect_numbers(&rt, &source, &[1, 2, 3, 4]);
    expect_numbers(&rt, &copied, &[1, 2, 3, 4]);
}

// A copy of a chain of these numbers.
fn copy_of(rt: &impl Abort, source: &PacketChain, numbers: &[u64]) -> PacketChain {
    match source.copy() {
        Ok(copied) => copied,
        Err(_) => {
            expect_numbers(rt, source, numbers);
            source.copy().expect(rt, "one request is refused")
        }
    }
}

// The chain has a million packets, numbered from 0.
fn expect_million(rt: &impl Abort, chain: &PacketChain) {
    assert_eq!(rt; chain.len(), 1_000_000);
    assert_eq!(rt; chain.bytes(), 1_000_000_000);
    let mut rest = chain.iter();
    for number in 0..1_000_000 {
        is_numbered(rt, rest.next().expect(rt, "a packet"), number);
    }
    assert!(rt; rest.next().is_none());
}

#[test]
fn holds_a_million_cells(rt: HostRuntime) {
    let alloc = rt.alloc();
    let mut chain = PacketChain::new(alloc);
    let mut more = PacketChain::new(alloc);
    for number in 0..500_000 {
        put(&rt, alloc, &mut chain, number);
        put(&rt, alloc, &mut more, 500_000 + number);
    }
    appended(&rt, &mut chain, &mut more);
    let copied = chain.copy().expect(&rt, "a copy");
    expect_million(&rt, &copied);
}

fn sent<T: Send>(value: T) -> T {
    value
}

#[test]
fn may_move_to_other_threads(rt: HostRuntime) {
    let chain = sent(made(&rt, rt.alloc(), &[1]));
    expect_numbers(&rt, &chain, &[1]);
    let cell = PacketCell::new(rt.alloc(), packet(&rt, 2)).expect(&rt, "a cell");
    assert_eq!(rt; sent(cell).packet().number, 2);
}
