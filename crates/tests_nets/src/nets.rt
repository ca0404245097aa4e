mod by_nodes;
mod copies;
mod late;
mod two_flows;

use self::by_nodes::{copied, copied_in};
use self::two_flows::runs_on;
use crate::scenarios::net_of;
use net_machine::{EndPlace, LinkEnds, Net};
use node_core::{After, Line, SenderShown};
use std::alloc::Global;
use std::process::Abort;

// A sender gives a receiver one segment of 1,000 bytes, over a link each way.
const ONE_SEGMENT: &str = "sim 1000000000
node s sender
node r receiver
link a s r 8000000 1000000 droptail 10
link b r s 8000000 1000000 droptail 10
flow f s r 1000 1 0 64000 0
";

// What comes behind the start and the end of its sending.
const REST: &str = "3 2040000 1 1 1 data 0 0 next=1000 tx=1:0:1000
4 2080000 1 0 3 free 1 next=1000
5 3080000 0 2 1 ack 0 1000 una=1000 nxt=1000 cwnd=5000 ssthresh=64000 phase=ss
";

// What is written of the two senders is the same.
fn is_same_sender(sender: &SenderShown, other: &SenderShown) -> bool {
    sender.una() == other.una()
        && sender.nxt() == other.nxt()
        && sender.cwnd() == other.cwnd()
        && sender.ssthresh() == other.ssthresh()
        && sender.recovers() == other.recovers()
}

// The two nodes are in the same state.
fn is_same_after(after: &After, other: &After) -> bool {
    match (after, other) {
        (After::AtSender(sender), After::AtSender(other)) => is_same_sender(sender, other),
        (After::AtReceiver(next), After::AtReceiver(other)) => next == other,
        (After::AtRouter, After::AtRouter) => true,
        _ => false,
    }
}

/// The two lines are the same.
pub(crate) fn is_same(rt: &impl Abort, line: &Line, other: &Line) {
    assert_eq!(rt; line.key, other.key);
    assert!(rt; line.event == other.event && is_same_after(&line.after, &other.after));
    assert!(rt; line.acts.as_slice() == other.acts.as_slice());
}

// The net of the parts of a net of that text, of which two events were run.
fn of_its_parts(rt: &impl Abort, net: Net) -> Net {
    let parts = net.into_parts();
    assert_eq!(rt; parts.position, 2);
    let there = LinkEnds {
        from: 0,
        to: EndPlace { node: 1, index: 0 },
        delay: 1_000_000,
    };
    let back = LinkEnds {
        from: 1,
        to: EndPlace { node: 0, index: 0 },
        delay: 1_000_000,
    };
    assert!(rt; parts.links.as_slice() == [there, back].as_slice());
    Net::of_parts(parts)
}

// The net goes on to its end, after five events.
fn goes_on(rt: &impl Abort, alloc: Global, mut net: Net) {
    let mut text = Vec::new(alloc);
    let left = runs_on(rt, &mut net, 5, &mut text);
    assert!(rt; !left && text.as_slice() == REST.as_bytes());
    assert_eq!(rt; net.position(), 5);
}

#[test]
fn copies_and_a_net_of_the_same_parts_go_on(rt: HostRuntime) {
    let alloc = rt.alloc();
    let mut net = net_of(&rt, alloc, &[ONE_SEGMENT]);
    assert_eq!(rt; (net.end(), net.nodes().len()), (1_000_000_000, 2));
    let more = runs_on(&rt, &mut net, 2, &mut Vec::new(alloc));
    assert!(rt; more);
    goes_on(&rt, alloc, copied(&rt, &net));
    goes_on(&rt, alloc, copied_in(&rt, &net, &[1, 7, 1]));
    goes_on(&rt, alloc, of_its_parts(&rt, net));
}
