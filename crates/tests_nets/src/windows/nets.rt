//! Small networks, and windows over them.
ghost use Rattle.std.specs.Prelude.{◌≡◌, false, true};
ghost use Rattle.window_core.specs.Window.{states_of};
ghost use Rattle.window_core.specs.Windows.{none_fired};

use crate::scenarios::net_of;
use net_machine::Net;
use std::alloc::Global;
use std::process::Abort;
use window_core::{Partition, Window};

// A sender gives a receiver one segment, over a link each way.
const PAIR: &str = "sim 1000000000
node s sender
node r receiver
link a s r 8000000 1000000 droptail 10
link b r s 8000000 1000000 droptail 10
flow f s r 1000 1 0 64000 0
";

/// The net of one segment.
pub fn pair(rt: &impl Abort, alloc: Global) -> Net {
    net_of(rt, alloc, &[PAIR])
}

// Twice a sender and a receiver, with no link between the two; the third packet of one is lost.
const TWO_PAIRS: &str = "sim 3000000000
node s sender
node r receiver
node t sender
node u receiver
link a s r 8000000 1000000 droptail 10
link b r s 8000000 1000000 droptail 10
link c t u 8000000 1000000 droptail 10
link d u t 8000000 1000000 droptail 10
flow f s r 1000 12 0 64000 0
flow g t u 1000 12 0 64000 0
lose a 3
";

/// Twice a sender that gives a receiver twelve segments, with no link between the two.
pub fn two_pairs(rt: &impl Abort, alloc: Global) -> Net {
    net_of(rt, alloc, &[TWO_PAIRS])
}

// Five times a sender and a receiver, with no link between two of them.
const FIVE_PAIRS: &str = "sim 3000000000
node s0 sender
node r0 receiver
node s1 sender
node r1 receiver
node s2 sender
node r2 receiver
node s3 sender
node r3 receiver
node s4 sender
node r4 receiver
link a0 s0 r0 8000000 1000000 droptail 10
link b0 r0 s0 8000000 1000000 droptail 10
link a1 s1 r1 8000000 1000000 droptail 10
link b1 r1 s1 8000000 1000000 droptail 10
link a2 s2 r2 9000000 1000000 droptail 10
link b2 r2 s2 8000000 1000000 droptail 10
link a3 s3 r3 8000000 1000000 droptail 10
link b3 r3 s3 7000000 1000000 droptail 10
link a4 s4 r4 8000000 2000000 droptail 10
link b4 r4 s4 8000000 1000000 droptail 10
flow f0 s0 r0 1000 6 0 64000 0
flow f1 s1 r1 1000 6 0 64000 0
flow f2 s2 r2 1000 6 0 64000 0
flow f3 s3 r3 1000 6 0 64000 0
flow f4 s4 r4 1000 6 0 64000 0
";

/// Five times a sender that gives a receiver six segments, with no link between two of these pairs.
pub fn five_pairs(rt: &impl Abort, alloc: Global) -> Net {
    net_of(rt, alloc, &[FIVE_PAIRS])
}

// Two senders and two receivers about a router; the third packet of the first sender is lost.
const CROSS: &str = "node s sender
node t sender
node q router
node u receiver
node v receiver
link a s q 8000000 1000000 droptail 10
link b t q 8000000 1000000 droptail 10
link c q u 8000000 1000000 droptail 10
link d u q 8000000 1000000 droptail 10
link e q v 8000000 1000000 droptail 10
link g v q 8000000 1000000 droptail 10
link h q s 8000000 1000000 droptail 10
link i q t 8000000 1000000 droptail 10
route q s h
route q t i
route q u c
route q v e
lose a 3
";

/// The end, and two flows of one segment, of two and of six: from node 0 to 3, and from 1 to 4.
pub const ONE_EACH: (&str, &str) = (
    "sim 2040001\n",
    "flow x s u 1000 1 0 64000 0\nflow y t v 1000 1 0 64000 0\n",
);

pub const TWO_EACH: (&str, &str) = (
    "sim 3000000000\n",
    "flow x s u 1000 2 0 64000 0\nflow y t v 1000 2 0 64000 0\n",
);

pub const SIX_EACH: (&str, &str) = (
    "sim 3000000000\n",
    "flow x s u 1000 6 0 64000 0\nflow y t v 1000 6 0 64000 0\n",
);

/// The net of such flows over one router.
pub fn crossed(rt: &impl Abort, alloc: Global, flows: (&str, &str)) -> Net {
    net_of(rt, alloc, &[flows.0, CROSS, flows.1])
}

/// The first window.
pub fn opened(rt: &impl Abort, alloc: Global, net: Net, partition: Partition) -> Window
    ensures inside { result.out ≡ false }
    ensures unfired { none_fired (states_of result.groups) ≡ true }
{
    assert!(rt; partition.nodes() == net.nodes().len());
    match Window::new(alloc, net, partition) {
        Ok(window) => window,
        Err((net, partition, _)) => Window::new(alloc, net, partition)
            .ok()
            .expect(rt, "one request is refused"),
    }
}

/// The first window of a net whose nodes are in these groups.
pub fn grouped(rt: &impl Abort, alloc: Global, net: Net, entries: &[u8]) -> Window
    ensures inside { result.out ≡ false }
    ensures unfired { none_fired (states_of result.groups) ≡ true }
{
    let entries = match Vec::from_slice(alloc, entries) {
        Ok(entries) => entries,
        Err(_) => Vec::from_slice(alloc, entries).expect(rt, "one request is refused"),
    };
    let partition = Partition::new(entries).expect(rt, "a partition");
    opened(rt, alloc, net, partition)
}
