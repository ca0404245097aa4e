//! Two flows over one router: every kind of event at every kind of node. With each request for memory
//! refused in turn (dev/refuse_tests.sh) it passes as well: what is refused is asked for again.
use crate::scenarios::net_of;
use net_machine::net::{Net, StepFault};
use node_core::{After, Line};
use std::alloc::Global;
use std::process::Abort;
use trace_text::line_text;

// Two senders and two receivers about a router. Flow 0 has one segment, whose acknowledgement is delayed.
const NODES: &str = "sim 3000000000
node s sender
node t sender
node q router
node u receiver
node v receiver
link a s q 8000000 1000000 droptail 10
link b t q 8000000 1000000 droptail 10
link c q u 8000000 1000000 droptail 10
";

const REST: &str = "link e u q 8000000 1000000 droptail 10
link g v q 8000000 1000000 droptail 10
link h q s 8000000 1000000 droptail 10
link i q t 8000000 1000000 droptail 10
flow x s u 1000 1 0 64000 40000000
route q s h
route q t i
route q u c
route q v d
";

/// Flow 1 has two segments, of which the second is lost, and comes again after the timer.
pub(super) const LOST: (&str, &str) = (
    "link d q v 8000000 1000000 codel 10 1 1 1\n",
    "flow y t v 1000 2 0 64000 0\nlose b 2\n",
);

/// Flow 1 has five segments. The first of them is lost, so that the receiver holds the others, and they
/// wait for the router, which sends them eight times as slowly as they come, by CoDel with the least of
/// each number, which drops as soon as it may.
pub(super) const SLOW: (&str, &str) = (
    "link d q v 1000000 1000000 codel 10 1 1 1\n",
    "flow y t v 1000 5 0 64000 0\nlose b 1\n",
);

/// The net with this last link of the router, and this flow 1.
pub(super) fn opened(rt: &impl Abort, alloc: Global, last: (&str, &str)) -> Net {
    net_of(rt, alloc, &[NODES, last.0, REST, last.1])
}

/// Runs an event. Where memory is refused, it is run once more: no router asks for any.
pub(super) fn run_next(rt: &impl Abort, net: &mut Net, line: &mut Line) -> bool {
    match net.step_into(line) {
        Ok(fired) => fired,
        Err(fault) => {
            assert!(rt; fault == StepFault::NoMemory);
            let fired = net
                .step_into(line)
                .ok()
                .expect(rt, "one request is refused");
            assert!(rt; fired && !matches!(line.after, After::AtRouter));
            fired
        }
    }
}

// Appends a line's text.
fn append(rt: &impl Abort, n: u64, line: &Line, text: &mut Vec<u8>) {
    if line_text(n, line, text).is_err() {
        line_text(n, line, text).expect(rt, "one request is refused");
    }
}

/// Runs so many events, or those that are left, and appends their lines. Whether there were so many.
pub(super) fn runs_on(rt: &impl Abort, net: &mut Net, most: u64, text: &mut Vec<u8>) -> bool {
    let mut line = Line::new(*text.allocator());
    for _event in 0..most {
        if !run_next(rt, net, &mut line) {
            return false;
        }
        append(rt, net.position(), &line, text);
    }
    true
}

// The trace where the second of two segments is lost: what the tables say, reckoned by hand.
const TRACE: &str = "1 0 0 0 0 start 0 una=0 nxt=1000 cwnd=4000 ssthresh=64000 phase=ss tx=0:0:0
2 0 1 0 0 start 1 una=0 nxt=2000 cwnd=4000 ssthresh=64000 phase=ss tx=1:1:0 drop=lost:1:1000
3 1040000 0 0 3 free 0 una=0 nxt=1000 cwnd=4000 ssthresh=64000 phase=ss
4 1040000 1 0 3 free 1 una=0 nxt=2000 cwnd=4000 ssthresh=64000 phase=ss
5 2040000 2 1 1 data 0 0 tx=2:0:0
6 2040000 2 2 1 data 1 0 tx=3:1:0
7 3080000 2 0 3 free 2
8 3080000 2 0 4 free 3
9 4080000 3 3 1 data 0 0 next=1000
10 4080000 4 4 1 data 1 0 next=1000 tx=5:1:1000
11 4120000 4 0 3 free 5 next=1000
12 5120000 2 6 1 ack 1 1000 tx=7:1:1000
13 5160000 2 0 6 free 7
14 6160000 1 8 1 ack 1 1000 una=1000 nxt=2000 cwnd=5000 ssthresh=64000 phase=ss
15 44080000 3 0 2 delack 0 next=1000 tx=4:0:1000
16 44120000 3 0 3 free 4 next=1000
17 45120000 2 5 1 ack 0 1000 tx=6:0:1000
18 45160000 2 0 5 free 6
19 46160000 0 7 1 ack 0 1000 una=1000 nxt=1000 cwnd=5000 ssthresh=64000 phase=ss
20 1006160000 1 0 1 rto 1 una=1000 nxt=2000 cwnd=1000 ssthresh=2000 phase=ss tx=1:1:1000
21 1007200000 1 0 3 free 1 una=1000 nxt=2000 cwnd=1000 ssthresh=2000 phase=ss
22 1008200000 2 2 2 data 1 1000 tx=3:1:1000
23 1009240000 2 0 4 free 3
24 1010240000 4 4 2 data 1 1000 next=2000 tx=5:1:2000
25 1010280000 4 0 3 free 5 next=2000
26 1011280000 2 6 2 ack 1 2000 tx=7:1:2000
27 1011320000 2 0 6 free 7
28 1012320000 1 8 2 ack 1 2000 una=2000 nxt=2000 cwnd=2000 ssthresh=2000 phase=ca
";

#[test]
fn every_event_is_run_also_where_memory_was_refused(rt: HostRuntime) {
    let mut net = opened(&rt, rt.alloc(), LOST);
    let mut text = Vec::new(rt.alloc());
    let left = runs_on(&rt, &mut net, 200, &mut text);
    assert!(rt; !left && text.as_slice() == TRACE.as_bytes());
    drop(net);
}
