//! The lines of the canonical text.
ghost use Rattle.std.specs.Prelude.{◌≡◌, ◌++◌, ◌∷◌, [], codes, decimal, flat_map, OnOk};
ghost use Rattle.scenario_asm.specs.declared.statement.Statement.TheVariants.{Sim, Node, Link, Flow, Route, Lose};
ghost use Rattle.scenario_asm.specs.CanonicalText.{line_of_link};
ghost use Rattle.scenario_asm.specs.Spelling.{node_label, link_label, flow_label, kind_word, queue_words, iw_word, line_for};
ghost use Rattle.scenario_asm.specs.TcpWords.{tcp_word};

use crate::tcp_words::tcp_part;
use itoa::Buffer;
use scenario_image::{CodelParameters, FlowPart, LinkPart, NodeKind, QueueKind, RoutePart};
use sim_time::{Iw, Time, Variant};
use std::alloc::AllocError;

/// Appends some bytes and a number. After an `Err` the bytes may stand there alone.
fn put(text: &mut Vec<u8>, before: &[u8], number: u64) -> Result<(), AllocError>
    ensures { OnOk result (text.new.items ≡ text.old.items ++ (before.now ++ decimal number)) }
{
    let mut digits = Buffer::new();
    text.extend_from_slice(before)?;
    text.extend_from_slice(digits.format(number).as_bytes())
}

/// Appends `sim END`. After an `Err` a part of it may stand there.
pub fn put_sim(text: &mut Vec<u8>, end: Time) -> Result<(), AllocError>
    ensures { OnOk result (text.new.items ≡ text.old.items ++ (line_for (Sim end) ++ codes "\n")) }
{
    put(text, b"sim ", end)?;
    text.extend_from_slice(b"\n")
}

/// What stands behind a node's name.
fn kind_end(kind: NodeKind) -> &'static [u8]
    ensures { result.now ≡ codes " " ++ kind_word kind ++ codes "\n" }
{
    match kind {
        NodeKind::Sender => b" sender\n",
        NodeKind::Receiver => b" receiver\n",
        NodeKind::Router => b" router\n",
    }
}

/// Appends `node NAME KIND`. After an `Err` a part of it may stand there.
pub fn put_node(text: &mut Vec<u8>, number: u64, kind: NodeKind) -> Result<(), AllocError>
    ensures { OnOk result (text.new.items ≡ text.old.items ++ (line_for (Node (node_label number) kind) ++ codes "\n")) }
{
    put(text, b"node n", number)?;
    text.extend_from_slice(kind_end(kind))
}

/// Appends the numbers of CoDel. After an `Err` a part of them may stand there.
fn put_codel(text: &mut Vec<u8>, capacity: u16, codel: CodelParameters) -> Result<(), AllocError>
    ensures { OnOk result (text.new.items ≡ text.old.items ++ flat_map (λ word. codes " " ++ word) (queue_words capacity (QueueKind.Codel codel))) }
{
    put(text, b" codel ", u64::from(capacity))?;
    put(text, b" ", codel.target)?;
    put(text, b" ", codel.interval)?;
    put(text, b" ", u64::from(codel.maxpacket))
}

/// Appends how a queue drops. After an `Err` a part of it may stand there.
fn put_queue(text: &mut Vec<u8>, capacity: u16, queue: QueueKind) -> Result<(), AllocError>
    ensures { OnOk result (text.new.items ≡ text.old.items ++ flat_map (λ word. codes " " ++ word) (queue_words capacity queue)) }
{
    match queue {
        QueueKind::DropTail => put(text, b" droptail ", u64::from(capacity)),
        QueueKind::Codel(codel) => put_codel(text, capacity, codel),
    }
}

/// Appends `link NAME FROM TO RATE DELAY` and how the queue drops. After an `Err` a part of it may
/// stand there.
pub fn put_link(text: &mut Vec<u8>, number: u64, link: &LinkPart) -> Result<(), AllocError>
    ensures { OnOk result (text.new.items ≡ text.old.items ++ (line_for (Link (link_label number) (line_of_link link.now)) ++ codes "\n")) }
{
    put(text, b"link l", number)?;
    put(text, b" n", u64::from(link.from))?;
    put(text, b" n", u64::from(link.to))?;
    put(text, b" ", link.rate)?;
    put(text, b" ", link.delay)?;
    put_queue(text, link.capacity, link.queue)?;
    text.extend_from_slice(b"\n")
}

/// Appends the numbers of a flow. After an `Err` a part of them may stand there.
fn put_flow_numbers(text: &mut Vec<u8>, flow: FlowPart) -> Result<(), AllocError>
    ensures { OnOk result (text.new.items ≡ text.old.items ++ flat_map (λ word. codes " " ++ word) (decimal flow.mss ∷ decimal flow.segments ∷ decimal flow.start ∷ decimal flow.rwnd ∷ decimal flow.delack ∷ [])) }
{
    put(text, b" ", u64::from(flow.mss))?;
    put(text, b" ", u64::from(flow.segments))?;
    put(text, b" ", flow.start)?;
    put(text, b" ", u64::from(flow.rwnd))?;
    put(text, b" ", u64::from(flow.delack))
}

/// The word for how large its initial window is, behind a space, and the line's end.
fn iw_end(iw: Iw) -> &'static [u8]
    ensures { result.now ≡ codes " " ++ iw_word iw ++ codes "\n" }
{
    match iw {
        Iw::Iw3 => b" iw3\n",
        Iw::Iw10 => b" iw10\n",
    }
}

/// Appends which sender a flow has, and ends the line. After an `Err` a part of it may stand there.
fn put_variant(text: &mut Vec<u8>, variant: Variant) -> Result<(), AllocError>
    ensures { OnOk result (text.new.items ≡ text.old.items ++ (flat_map (λ word. codes " " ++ word) (tcp_word variant ∷ iw_word variant.iw ∷ []) ++ codes "\n")) }
{
    text.extend_from_slice(tcp_part(variant))?;
    text.extend_from_slice(iw_end(variant.iw))
}

/// Appends `flow NAME SENDER RECEIVER MSS SEGMENTS START RWND DELACK` and the words for the sender.
/// After an `Err` a part of it may stand there.
pub fn put_flow(text: &mut Vec<u8>, number: u64, flow: FlowPart) -> Result<(), AllocError>
    ensures { OnOk result (text.new.items ≡ text.old.items ++ (line_for (Flow (flow_label number) flow) ++ codes "\n")) }
{
    put(text, b"flow f", number)?;
    put(text, b" n", u64::from(flow.sender))?;
    put(text, b" n", u64::from(flow.receiver))?;
    put_flow_numbers(text, flow)?;
    put_variant(text, flow.variant)
}

/// Appends `route ROUTER DEST LINK`. After an `Err` a part of it may stand there.
pub fn put_route(text: &mut Vec<u8>, route: RoutePart) -> Result<(), AllocError>
    ensures { OnOk result (text.new.items ≡ text.old.items ++ (line_for (Route route) ++ codes "\n")) }
{
    put(text, b"route n", u64::from(route.router))?;
    put(text, b" n", u64::from(route.destination))?;
    put(text, b" l", u64::from(route.link))?;
    text.extend_from_slice(b"\n")
}

/// Appends `lose LINK NUMBER`. After an `Err` a part of it may stand there.
pub fn put_lose(text: &mut Vec<u8>, link: u64, number: u32) -> Result<(), AllocError>
    ensures { OnOk result (text.new.items ≡ text.old.items ++ (line_for (Lose (record { link = link; number = number })) ++ codes "\n")) }
{
    put(text, b"lose l", link)?;
    put(text, b" ", u64::from(number))?;
    text.extend_from_slice(b"\n")
}
