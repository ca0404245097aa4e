//! The plainest link and flow: what a scenario that looks at something else has. Its fields are
//! changed where more is wanted, so that a new field changes nothing but this file.
ghost use Rattle.std.specs.Prelude.{◌≡◌};
ghost use Rattle.scenario_image.specs.Plain.{plain_link as link_between, plain_flow as flow_between};

use crate::parts::{FlowPart, LinkPart};
use crate::records::Records;
use sim_time::{QueueKind, RENO};
use std::alloc::Global;

/// A link of 8 Mbit/s and a millisecond, with drop-tail and room for 10 packets, that loses none.
pub fn plain_link(alloc: Global, from: u16, to: u16) -> LinkPart
    ensures { result ≡ link_between from to }
{
    LinkPart {
        from,
        to,
        rate: 8_000_000,
        delay: 1_000_000,
        queue: QueueKind::DropTail,
        capacity: 10,
        lose: Records::new(Vec::new(alloc)),
    }
}

/// A flow of one segment of 1,000 bytes from the beginning on, with a receiver's window of 64,000
/// bytes, acknowledged at once.
pub fn plain_flow(sender: u16, receiver: u16) -> FlowPart
    ensures { result ≡ flow_between sender receiver }
{
    FlowPart {
        sender,
        receiver,
        mss: 1_000,
        segments: 1,
        start: 0,
        rwnd: 64_000,
        delack: 0,
        variant: RENO,
    }
}
