//! Scenarios of one flow and of two, and what their runs write.

use scenario_asm::assemble;
use scenario_image::Scenario;
use std::process::Abort;

/// The scenario of a text.
fn scenario(rt: &(impl Abort + AllocGlobal), text: &[u8]) -> Scenario {
    assemble(rt.alloc(), text).ok().expect(rt, "a scenario")
}

// A sender and a receiver, with a link each way of 8 Mbit/s and a millisecond that has room for 10 packets.
const PAIR: &str = "sim 1000000000
node s sender
node r receiver
link a s r 8000000 1000000 droptail 10
link b r s 8000000 1000000 droptail 10
";

/// The sender gives the receiver so many segments of 1,000 bytes.
pub(super) fn one_flow(rt: &(impl Abort + AllocGlobal), segments: u32) -> Scenario {
    let text = format!(in rt.alloc(); "{PAIR}flow f s r 1000 {segments} 0 64000 0\n");
    scenario(rt, text.expect(rt, "a text").as_bytes())
}

// A second, in nanoseconds.
const SECOND: u64 = 1_000_000_000;

// The same, twice, for as long as is said before it.
const TWO_PAIRS: &str = "node s sender
node r receiver
node t sender
node u receiver
link a s r 8000000 1000000 droptail 10
link b r s 8000000 1000000 droptail 10
link c t u 8000000 1000000 droptail 10
link d u t 8000000 1000000 droptail 10
";

// Each sender gives its receiver so many segments, within a receiver's window of so many bytes. The run ends after so many
// nanoseconds.
fn flows_within(rt: &(impl Abort + AllocGlobal), end: u64, segments: u32, rwnd: u32) -> Scenario {
    let text = format!(in rt.alloc();
        "sim {end}\n{TWO_PAIRS}flow f s r 1000 {segments} 0 {rwnd} 0\nflow g t u 1000 {segments} 0 {rwnd} 0\n"
    );
    scenario(rt, text.expect(rt, "a text").as_bytes())
}

/// Two flows of so many segments, with no link between the two.
pub(super) fn two_flows(rt: &(impl Abort + AllocGlobal), segments: u32) -> Scenario {
    flows_within(rt, SECOND, segments, 64_000)
}

/// The same with windows of 8 segments, so that nothing is lost and the links are always busy.
pub(super) fn steady_flows(rt: &(impl Abort + AllocGlobal), segments: u32) -> Scenario {
    flows_within(rt, SECOND, segments, 8_000)
}

/// The same, to the end of a run of four seconds.
pub(super) fn long_flows(rt: &(impl Abort + AllocGlobal)) -> Scenario {
    flows_within(rt, 4 * SECOND, 10_000, 8_000)
}

// Four senders, each with a receiver of its own, and a link each way of 800 Mbit/s and a tenth of a millisecond.
const FOUR_PAIRS: &str = "sim 10000000000
node a sender
node b receiver
node c sender
node d receiver
node e sender
node f receiver
node g sender
node h receiver
link ab a b 800000000 100000 droptail 100
link ba b a 800000000 100000 droptail 100
link cd c d 800000000 100000 droptail 100
link dc d c 800000000 100000 droptail 100
link ef e f 800000000 100000 droptail 100
link fe f e 800000000 100000 droptail 100
link gh g h 800000000 100000 droptail 100
link hg h g 800000000 100000 droptail 100
flow i a b 1000 5000 0 64000 0
flow j c d 1000 5000 0 64000 0
flow k e f 1000 5000 0 64000 0
flow l g h 1000 5000 0 64000 0
";

/// Four flows of 5,000 segments that hear nothing of each other, so that a window may hold all of their events.
pub(super) fn four_flows(rt: &(impl Abort + AllocGlobal)) -> Scenario {
    scenario(rt, FOUR_PAIRS.as_bytes())
}

/// The text of the run in which one sender gives one receiver one segment.
pub(super) const ONE_SEGMENT: &str =
    "1 0 0 0 0 start 0 una=0 nxt=1000 cwnd=4000 ssthresh=64000 phase=ss tx=0:0:0
2 1040000 0 0 3 free 0 una=0 nxt=1000 cwnd=4000 ssthresh=64000 phase=ss
3 2040000 1 1 1 data 0 0 next=1000 tx=1:0:1000
4 2080000 1 0 3 free 1 next=1000
5 3080000 0 2 1 ack 0 1000 una=1000 nxt=1000 cwnd=5000 ssthresh=64000 phase=ss
";

// Two senders and two receivers around a router, with a link each way.
const STAR: &str = "sim 2040001
node s sender
node t sender
node q router
node u receiver
node v receiver
link a s q 8000000 1000000 droptail 10
link b t q 8000000 1000000 droptail 10
link c q u 8000000 1000000 droptail 10
link d u q 8000000 1000000 droptail 10
link e q v 8000000 1000000 droptail 10
link g v q 8000000 1000000 droptail 10
link h q s 8000000 1000000 droptail 10
link i q t 8000000 1000000 droptail 10
flow x s u 1000 1 0 64000 0
flow y t v 1000 1 0 64000 0
route q u c
route q v e
route q s h
route q t i
";

/// Two flows over a router, whose events come at the same moments.
pub(super) fn equal_times(rt: &(impl Abort + AllocGlobal)) -> Scenario {
    scenario(rt, STAR.as_bytes())
}

/// The text of the run of [`equal_times`]: the node decides, lines 1 to 4, and then the link that
/// a packet came over, lines 5 and 6.
pub(super) const EQUAL_TIMES: &str =
    "1 0 0 0 0 start 0 una=0 nxt=1000 cwnd=4000 ssthresh=64000 phase=ss tx=0:0:0
2 0 1 0 0 start 1 una=0 nxt=1000 cwnd=4000 ssthresh=64000 phase=ss tx=1:1:0
3 1040000 0 0 3 free 0 una=0 nxt=1000 cwnd=4000 ssthresh=64000 phase=ss
4 1040000 1 0 3 free 1 una=0 nxt=1000 cwnd=4000 ssthresh=64000 phase=ss
5 2040000 2 1 1 data 0 0 tx=2:0:0
6 2040000 2 2 1 data 1 0 tx=4:1:0
";
