//! A net that is copied goes on as one that is not, also where memory was refused to a copy. With each
//! request for memory refused in turn (dev/refuse_tests.sh) the test passes as well: what is
//! refused is asked for again.

use super::by_nodes::copied;
use super::two_flows::{SLOW, opened, runs_on};
use net_machine::Net;
use std::alloc::Global;
use std::process::Abort;

// How many events are run between two copies.
const BETWEEN: u64 = 12;

// Copies a net, which stays as it is.
fn copies(rt: &impl Abort, net: &Net) {
    let copy = copied(rt, net);
    assert_eq!(rt; copy.position(), net.position());
    drop(copy);
}

// The trace of a net that is copied again and again.
fn trace_of(rt: &impl Abort, alloc: Global, mut net: Net) -> Vec<u8> {
    let mut text = Vec::new(alloc);
    for _copy in 0..20 {
        copies(rt, &net);
        if !runs_on(rt, &mut net, BETWEEN, &mut text) {
            break;
        }
    }
    assert!(rt; net.position() > 28);
    drop(net);
    text
}

// The trace of a net.
fn trace_alone(rt: &impl Abort, alloc: Global, mut net: Net) -> Vec<u8> {
    let mut text = Vec::new(alloc);
    let left = runs_on(rt, &mut net, 200, &mut text);
    assert!(rt; !left);
    drop(net);
    text
}

#[test]
fn a_refused_copy_leaves_the_net(rt: HostRuntime) {
    let alloc = rt.alloc();
    let text = trace_of(&rt, alloc, opened(&rt, alloc, SLOW));
    let alone = trace_alone(&rt, alloc, opened(&rt, alloc, SLOW));
    assert!(rt; text.as_slice() == alone.as_slice());
}
