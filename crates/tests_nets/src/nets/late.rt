//! A watched run of a million events, whose last ones ask for memory again: a flow that has few packets under way ends, and
//! one begins that has more. With each request for memory refused in turn (dev/refuse_tests.sh) the test passes as well: the
//! fault is told where it was, and the run goes on from there.
use crate::scenarios::net_of;
use net_machine::StepFault;
use net_watch::{RunEnd, UpTo, run_watched};
use node_core::Line;

const MILLION: &str = "sim 3000000000
node s sender
node t sender
node r receiver
node u receiver
link a s r 1000000000 1000 droptail 100
link b r s 1000000000 1000 droptail 100
link c t u 1000000000 1000 droptail 100
link d u t 1000000000 1000 droptail 100
flow f s r 1000 250000 0 2000 0
flow g t u 1000 10 2900000000 64000 0
";

#[test]
fn a_fault_behind_the_millionth_event_is_told(rt: HostRuntime) {
    let mut net = net_of(&rt, rt.alloc(), &[MILLION]);
    assert_eq!(rt; net.position(), 0);
    let mut upto = UpTo {
        position: 2_000_000,
    };
    let mut line = Line::new(rt.alloc());
    let mut end = run_watched(&mut net, &mut upto, &mut line);
    if end == Err(StepFault::NoMemory) {
        end = run_watched(&mut net, &mut upto, &mut line);
    }
    assert!(rt; end == Ok(RunEnd::Done));
    assert_eq!(rt; net.position(), 1_000_042);
    drop(net);
}
