//! What a scenario is made of.
ghost use Rattle.std.specs.Prelude.{◌≡◌};
ghost use Rattle.scenario_image.specs.Settings.{sender_settings};

use crate::records::Records;
use sim_time::{QueueKind, SenderSettings, Time, Variant};

/// What a node does.
#[derive(Clone, Copy, Debug, PartialEq, Eq)]
pub enum NodeKind {
    /// Sends the data of one flow.
    Sender,
    /// Receives the data of one flow, and acknowledges it.
    Receiver,
    /// Passes packets on.
    Router,
}

/// A directed link, with its queue at the sending side.
#[derive(Drop)]
pub struct LinkPart {
    /// The node that sends.
    pub from: u16,
    /// The node that receives.
    pub to: u16,
    /// Bits a second: 1,000 to 10^12.
    pub rate: u64,
    /// Propagation delay in nanoseconds: 1 to 10^10.
    pub delay: Time,
    /// How the queue drops.
    pub queue: QueueKind,
    /// The most packets that the queue holds: 1 to 65,535.
    pub capacity: u16,
    /// Which of the packets offered to the link are lost, counted from 1: rising, at most 64.
    pub lose: Records<u32>,
}

/// A flow from a sender to a receiver.
#[derive(Clone, Copy)]
pub struct FlowPart {
    /// The sender's node.
    pub sender: u16,
    /// The receiver's node.
    pub receiver: u16,
    /// Bytes of data in a segment: 1 to 9,000.
    pub mss: u16,
    /// How many segments are sent: 1 to 10^9.
    pub segments: u32,
    /// When the flow starts, in nanoseconds: before the end.
    pub start: Time,
    /// The receiver's window, in bytes: mss to 2^30.
    pub rwnd: u32,
    /// How long the receiver may delay an acknowledgement, in nanoseconds: 0 to 500,000,000.
    pub delack: u32,
    /// Which sender the flow has.
    pub variant: Variant,
}

impl FlowPart {
    /// What the flow's sender is told.
    pub fn sender_settings(&self) -> SenderSettings
        ensures { result ≡ sender_settings self.now }
    {
        SenderSettings {
            mss: u64::from(self.mss),
            segments: u64::from(self.segments),
            rwnd: u64::from(self.rwnd),
            variant: self.variant,
        }
    }
}

/// Where a router sends packets for a destination.
#[derive(Clone, Copy, Debug, PartialEq, Eq)]
pub struct RoutePart {
    /// The router's node.
    pub router: u16,
    /// The sender or receiver that the packets are for.
    pub destination: u16,
    /// The link that they take.
    pub link: u16,
}

/// All that a scenario is made of. Nodes, links and flows are numbered from 0 in their order here.
#[derive(Drop)]
pub struct ScenarioParts {
    /// Events before this moment are run, in nanoseconds: 1 to 10^15.
    pub end: Time,
    /// The nodes' kinds: 2 to 256.
    pub nodes: Records<NodeKind>,
    /// The links: 1 to 1,024.
    pub links: Records<LinkPart>,
    /// The flows: 1 to 128.
    pub flows: Records<FlowPart>,
    /// The routes, rising by router and destination.
    pub routes: Records<RoutePart>,
}
