//! Numbers of each length in lines, which no run comes to. Lines of each form, as a run has them, are in the
//! traces beside the texts of dev/whole/, which dev/test_whole.py compares on the built program.
use node_core::{Act, Acts, After, Event, Line, SenderShown};
use packet_chain::{Kind, Packet, PacketBytes};
use reno_sender::{Sender, SenderFields, SenderSettings};
use scenario_image::RENO;
use sim_time::Key;
use std::alloc::Global;
use std::process::Abort;
use trace_text::{end_text, line_text};

fn key(time: u64, node: u16, source: u16, number: u64) -> Key {
    Key {
        time,
        node,
        source,
        number,
    }
}

// A sender with these windows, that is in recovery where nothing is above the greatest number.
fn sender(una: u64, nxt: u64, cwnd: u64, ssthresh: u64) -> After {
    let settings = SenderSettings {
        mss: 1000,
        segments: 10,
        rwnd: 64000,
        variant: RENO,
    };
    After::AtSender(SenderShown::of(&SenderFields {
        una,
        nxt,
        high: nxt,
        cwnd,
        ssthresh,
        recovery: una == u64::MAX,
        ..Sender::new(settings).fields()
    }))
}

fn packet(rt: &impl Abort, kind: Kind, flow: u16, number: u64) -> Packet {
    Packet {
        flow,
        kind,
        number,
        bytes: PacketBytes::new(40).expect(rt, "a size"),
    }
}

// The line with which a packet arrives. One packet may be sent then.
fn arrival(alloc: Global, key: Key, packet: Packet, after: After, sent: Option<Act>) -> Line {
    let mut acts = Acts::new(alloc);
    if let Some(act) = sent {
        acts.push(act);
    }
    Line {
        key,
        event: Event::Arrive(packet),
        after,
        acts,
    }
}

// The line of this number is this text, behind one that is there already.
fn expect_text(rt: &impl Abort, alloc: Global, n: u64, line: Line, text: &str) {
    let mut out = Vec::new(alloc);
    out.extend_from_slice(b"before\n").expect(rt, "a text");
    line_text(n, &line, &mut out).expect(rt, "a line");
    drop(line);
    let (before, reported) = out.as_slice().split_at(7.min(out.len()));
    assert!(rt; before == b"before\n".as_slice() && reported == text.as_bytes());
}

#[test]
fn numbers_of_each_length(rt: HostRuntime) {
    let alloc = rt.alloc();
    let line = arrival(
        alloc,
        key(999_999_999_999, 10, 100, 123_456_789),
        packet(&rt, Kind::Data, 12, 1_234_567),
        After::AtReceiver(1_000_000_000_007),
        Some(Act::Tx(1000, packet(&rt, Kind::Data, 99, 98_070_605_040))),
    );
    expect_text(
        &rt,
        alloc,
        1_000_000_007,
        line,
        "1000000007 999999999999 10 100 123456789 data 12 1234567 next=1000000000007 tx=1000:99:98070605040\n",
    );
    let line = arrival(
        alloc,
        key(1_000_000_000_000, 9, 999, 999_999),
        packet(&rt, Kind::Ack, 101, 1_000_000),
        sender(20, 345, 6_789, 10_203),
        None,
    );
    expect_text(
        &rt,
        alloc,
        100_000_000_000_000,
        line,
        "100000000000000 1000000000000 9 999 999999 ack 101 1000000 una=20 nxt=345 cwnd=6789 ssthresh=10203 phase=ss\n",
    );
}

#[test]
fn the_greatest_numbers(rt: HostRuntime) {
    let most = u64::MAX;
    let line = arrival(
        rt.alloc(),
        key(most, u16::MAX, u16::MAX, most),
        packet(&rt, Kind::Data, u16::MAX, most),
        sender(most, most, most, most),
        Some(Act::Tx(u16::MAX, packet(&rt, Kind::Data, u16::MAX, most))),
    );
    expect_text(
        &rt,
        rt.alloc(),
        most,
        line,
        "18446744073709551615 18446744073709551615 65535 65535 18446744073709551615 data 65535 18446744073709551615 una=18446744073709551615 nxt=18446744073709551615 cwnd=18446744073709551615 ssthresh=18446744073709551615 phase=fr tx=65535:65535:18446744073709551615\n",
    );
}

fn expect_end(rt: &impl Abort, alloc: Global, n: u64, text: &str) {
    let mut out = Vec::new(alloc);
    end_text(n, &mut out).expect(rt, "a line");
    assert!(rt; out.as_slice() == text.as_bytes());
}

#[test]
fn the_last_line(rt: HostRuntime) {
    let alloc = rt.alloc();
    expect_end(&rt, alloc, 0, "end 0\n");
    expect_end(&rt, alloc, 5, "end 5\n");
    expect_end(&rt, alloc, 100, "end 100\n");
    expect_end(&rt, alloc, 999_999_999, "end 999999999\n");
    expect_end(&rt, alloc, 1_000_000_000, "end 1000000000\n");
    expect_end(
        &rt,
        alloc,
        987_654_321_012_345_678,
        "end 987654321012345678\n",
    );
    expect_end(
        &rt,
        alloc,
        1_000_000_000_000_000_000,
        "end 1000000000000000000\n",
    );
    expect_end(&rt, alloc, u64::MAX, "end 18446744073709551615\n");
}
