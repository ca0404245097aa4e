//! What breakpoints see of a state, so that the event after it can be compared with it.
ghost use Rattle.std.specs.Prelude.{◌≡◌, ◌≢◌, ◌↔◌, ◌==◌, IsTrue, IfSome, IfOk, Some, length, option_copied};
ghost use Rattle.node_core.specs.TraceLine.{shown};
ghost use Rattle.node_core.specs.Part.{sender_in, receiver_in};
ghost use Rattle.net_machine.specs.Nodes.{parts_of};
ghost use Rattle.net_machine.specs.Run.{Reached, IsRun, Stepped};
ghost use Rattle.flow_waits.specs.Stalled.{sender_for, sender_of};
ghost use Rattle.breakpoints.specs.Values.{is_next, MeetsKept};
ghost use Rattle.breakpoints.specs.Seen.{link_among, link_in, offered_in, head_wait, count_of, link_value, link_value_in, ChangesLink, HoldsOfLink, next_for, next_in, read_sender, value_for, value_in, read_in, read_left_in, Becomes, MeetsLinks, MeetsStates, asks_states, has_link, keeps_value, has_asked, first_with, node_of, seen_of_link, seen_link, seen_of_value, seen_value, seen_in, sees_at, HasSameNodes, AreSeen};

use crate::breaks::{Break, Breaks};
use crate::values::{
    Asked, Owner, Reading, Value, ValueOf, Values, number_or_nothing, sender_value,
};
use aqm::{Queue, Readout};
use net_machine::Net;
use node_core::link::Link;
use node_core::{Event, Line, Node};
use reno_sender::SenderFields;
use sim_time::Time;
use std::alloc::{AllocError, Global};
use std::snapshot::Snapshot;

/// What a breakpoint sees of a link that it asks for.
#[derive(Clone, Copy)]
pub struct SeenLink {
    /// The node that the link leaves: the number of the first. As many as there are nodes where it leaves none, or no link
    /// is asked for.
    pub node: usize,
    /// How many packets were offered to the link.
    pub offered: Option<u128>,
}

/// What a breakpoint sees of a value whose change it asks for.
#[derive(Clone, Copy)]
pub struct SeenValue {
    /// The node whose sender or receiver keeps the value: the number of the first. As many as there are nodes where none
    /// does, or no value is asked for.
    pub node: usize,
    /// The value.
    pub value: Reading,
}

/// What a breakpoint sees of a state, for the conditions that compare the state after an event with it.
#[derive(Clone, Copy)]
pub struct Seen {
    /// The link whose queue is asked for.
    pub queue: SeenLink,
    /// That whose wait is asked for.
    pub wait: SeenLink,
    /// That whose count is asked for.
    pub count: SeenLink,
    /// The value whose change is asked for.
    pub change: SeenValue,
}

/// What a node can have that a breakpoint asks for.
#[derive(Clone, Copy)]
enum Sought {
    /// The link of this number, which leaves it.
    Link(u16),
    /// A value of its sender, or of its receiver.
    Value(ValueOf),
}

/// The link of a number among those that leave a node.
fn link_among(number: u16, links: &[Link]) -> Option<&Link>
    ensures { option_copied result ≡ link_among number links.now }
{
    for link in links {
        if link.port().link() == number {
            return Some(link);
        }
    }
    None
}

/// Whether a link of a number leaves a node.
fn has_link(number: u16, node: &Node) -> bool
    ensures { result ≡ has_link number node.now.part }
{
    link_among(number, node.ports()).is_some()
}

/// The link of a number in a net.
fn link_in(number: u16, nodes: &[Node]) -> Option<&Link>
    ensures { option_copied result ≡ link_in number (parts_of nodes.now) }
{
    for node in nodes {
        if let Some(link) = link_among(number, node.ports()) {
            return Some(link);
        }
    }
    None
}

/// How many packets were offered to a link of a net.
fn offered_in(number: u16, net: &Net) -> Option<u128>
    ensures { result ≡ offered_in number net.now.state }
{
    match link_in(number, net.nodes()) {
        Some(link) => Some(link.port().offered()),
        None => None,
    }
}

/// For how long the first packet has waited at a link.
fn head_wait(now: Time, link: &Link) -> Option<Time>
    ensures { result ≡ head_wait now link.now }
{
    match link.port().queue().packets().next() {
        Some((_, entered)) => Some(now.saturating_sub(entered)),
        None => None,
    }
}

/// The count by which a queue drops; drop-tail has none.
fn count_of(queue: &Queue) -> Option<u64>
    ensures { result ≡ count_of queue.now }
{
    queue.read(Readout::Count)
}

/// A value of a link at a moment.
fn link_value(value: Value, now: Time, link: &Link) -> Option<u64>
    ensures { result ≡ link_value value now link.now }
{
    match value {
        Value::Queue => Some(link.port().queue().len() as u64),
        Value::Wait => head_wait(now, link),
        Value::Count => count_of(link.port().queue()),
        _ => None,
    }
}

/// The same of the link of a number in a net.
fn link_value_in(value: Value, now: Time, number: u16, net: &Net) -> Option<u64>
    ensures { result ≡ link_value_in value now number net.now.state }
{
    match link_in(number, net.nodes()) {
        Some(link) => link_value(value, now, link),
        None => None,
    }
}

/// Whether an event is that a link becomes free.
fn is_free_of(number: u16, event: &Event) -> bool
    ensures { IsTrue result ↔ (event.now ≡ Event.Free number) }
{
    match event {
        Event::Free(link) => *link == number,
        Event::Start(_) | Event::Rto(_) | Event::DelAck(_) | Event::Arrive(_) => false,
    }
}

/// Whether so many packets were offered and so many are another number.
fn is_other_count(was: Option<u128>, is: Option<u128>) -> bool
    ensures { IsTrue result ↔ (was ≢ is) }
{
    was != is
}

/// The link of a number at the node of a net that it leaves.
fn link_at(number: u16, node: usize, net: &Net) -> Option<&Link>
    ensures { node ≡ node_of (Sought.Link number) net.now.state → option_copied result ≡ link_in number net.now.state.parts }
{
    let nodes = net.nodes();
    if node < nodes.len() {
        link_among(number, nodes[node].ports())
    } else {
        None
    }
}

/// How many packets were offered to it.
fn offered_at(number: u16, node: usize, net: &Net) -> Option<u128>
    ensures { node ≡ node_of (Sought.Link number) net.now.state → result ≡ offered_in number net.now.state }
{
    match link_at(number, node, net) {
        Some(link) => Some(link.port().offered()),
        None => None,
    }
}

/// A value of it at a moment.
fn link_value_at(value: Value, now: Time, number: u16, node: usize, net: &Net) -> Option<u64>
    ensures { node ≡ node_of (Sought.Link number) net.now.state → result ≡ link_value_in value now number net.now.state }
{
    match link_at(number, node, net) {
        Some(link) => link_value(value, now, link),
        None => None,
    }
}

/// Whether a node is that of a number.
fn is_at(node: usize, number: u16) -> bool
    ensures { result ≡ (node == number) }
{
    node == usize::from(number)
}

/// Whether other than so many packets were offered to a link by a line, after which a net stands. The line's own node
/// alone can have offered some.
fn is_offered_more(number: u16, was: &SeenLink, net: &Net, line: &Line) -> bool
    ensures { (before : Reached) → IsRun before → Stepped before (Some (shown line.now)) net.now → was.now ≡ seen_of_link number before.state → IsTrue result ↔ (offered_in number before.state ≢ offered_in number net.now.state) }
{
    if is_at(was.node, line.key.node) {
        is_other_count(was.offered, offered_at(number, was.node, net))
    } else {
        false
    }
}

/// Whether a line, after which a net stands, changes a link, with what was seen of it before the line.
fn changes_link(number: u16, was: &SeenLink, net: &Net, line: &Line) -> bool
    ensures { (before : Reached) → IsRun before → Stepped before (Some (shown line.now)) net.now → was.now ≡ seen_of_link number before.state → IsTrue result ↔ ChangesLink number before.state (shown line.now) net.now.state }
{
    if is_free_of(number, &line.event) {
        true
    } else {
        is_offered_more(number, was, net, line)
    }
}

/// Whether a line changes the link of a bound, and the bound holds of a value of the link.
fn is_link_within(value: Value, asked: Asked, was: &SeenLink, net: &Net, line: &Line) -> bool
    ensures { (before : Reached) → IsRun before → Stepped before (Some (shown line.now)) net.now → was.now ≡ seen_of_link asked.of before.state → IsTrue result ↔ HoldsOfLink value before.state (shown line.now) net.now.state asked }
{
    if changes_link(asked.of, was, net, line) {
        let is = link_value_at(value, line.key.time, asked.of, was.node, net);
        asked.test.holds_of(number_or_nothing(is))
    } else {
        false
    }
}

/// Whether a value of a link that a line changes is as asked.
#[inline(always)]
fn has_link_value(
    value: Value,
    asked: Option<Asked>,
    was: &SeenLink,
    net: &Net,
    line: &Line,
) -> bool
    ensures { (before : Reached) → IsRun before → Stepped before (Some (shown line.now)) net.now → was.now ≡ seen_link before.state asked → IsTrue result ↔ IfSome asked (HoldsOfLink value before.state (shown line.now) net.now.state) }
{
    match asked {
        Some(asked) => is_link_within(value, asked, was, net, line),
        None => true,
    }
}

/// The next byte that a receiver waits for, where it is the one that is asked for.
fn next_for(flow: u16, node: &Node) -> Option<u64>
    ensures { result ≡ next_for flow (receiver_in node.now.part.role) }
{
    match node.receiver() {
        Some((own, receiver)) => {
            if own == flow {
                Some(receiver.next())
            } else {
                None
            }
        }
        None => None,
    }
}

/// The next byte that the receiver of a flow waits for.
pub fn next_in(flow: u16, nodes: &[Node]) -> Option<u64>
    ensures { result ≡ next_in flow (parts_of nodes.now) }
{
    for node in nodes {
        if let Some(next) = next_for(flow, node) {
            return Some(next);
        }
    }
    None
}

/// What the sender at a node keeps, where it lies, if it is the one that is asked for.
fn fields_for(flow: u16, node: &Node) -> Option<&SenderFields>
    ensures { option_copied result ≡ sender_for flow (sender_in node.now.part.role) }
{
    match node.sender() {
        Some((own, sender)) => {
            if own == flow {
                Some(sender.as_fields())
            } else {
                None
            }
        }
        None => None,
    }
}

/// What the sender of a flow keeps, where it lies.
pub fn fields_in(flow: u16, nodes: &[Node]) -> Option<&SenderFields>
    ensures { option_copied result ≡ sender_of flow (parts_of nodes.now) }
{
    for node in nodes {
        if let Some(fields) = fields_for(flow, node) {
            return Some(fields);
        }
    }
    None
}

/// A value of a sender, where there is one.
fn read_sender(value: Value, fields: Option<&SenderFields>) -> Reading
    ensures { result ≡ read_sender value (option_copied fields.entry) }
{
    match fields {
        Some(fields) => sender_value(value, fields),
        None => Reading::Nothing,
    }
}

/// Whether a value is one of a receiver.
fn is_next(value: Value) -> bool
    ensures { result ≡ is_next value }
{
    matches!(value, Value::Next)
}

/// A value of a flow of a net.
fn value_in(value: Value, flow: u16, net: &Net) -> Reading
    ensures { result ≡ value_in value flow net.now.state }
{
    if is_next(value) {
        number_or_nothing(next_in(flow, net.nodes()))
    } else {
        read_sender(value, fields_in(flow, net.nodes()))
    }
}

/// A value of a flow, of a link, or the moment, of a net.
pub fn read_in(now: Time, what: ValueOf, net: &Net) -> Reading
    ensures { result ≡ read_in now what net.now.state }
{
    match what.value.owner() {
        Owner::Flow => value_in(what.value, what.of, net),
        Owner::Link => number_or_nothing(link_value_in(what.value, now, what.of, net)),
        Owner::Nothing => Reading::Number(now),
    }
}

/// The same of the net that a move has left, where there is one.
pub fn read_left_in(now: Time, what: ValueOf, left: &Option<Net>) -> Reading
    ensures { result ≡ read_left_in now what left.now }
{
    match left {
        Some(net) => read_in(now, what, net),
        None => Reading::Nothing,
    }
}

/// A value of a flow, where the sender or the receiver of a node keeps it.
fn value_for(asked: ValueOf, node: &Node) -> Reading
    ensures { result ≡ value_for asked.value asked.of node.now.part }
{
    if is_next(asked.value) {
        number_or_nothing(next_for(asked.of, node))
    } else {
        read_sender(asked.value, fields_for(asked.of, node))
    }
}

/// A value of a flow at the node of a net that keeps it.
fn value_at(asked: ValueOf, node: usize, net: &Net) -> Reading
    ensures { node ≡ node_of (Sought.Value asked) net.now.state → result ≡ value_in asked.value asked.of net.now.state }
{
    let nodes = net.nodes();
    if node < nodes.len() {
        value_for(asked, &nodes[node])
    } else {
        Reading::Nothing
    }
}

/// Whether two values differ.
fn is_other(was: Reading, is: Reading) -> bool
    ensures { IsTrue result ↔ (was ≢ is) }
{
    was != is
}

/// Whether a value is another after a line, after which a net stands, than it was. The line's own node alone can have
/// changed it.
fn becomes(asked: ValueOf, was: &SeenValue, net: &Net, line: &Line) -> bool
    ensures { (before : Reached) → IsRun before → Stepped before (Some (shown line.now)) net.now → was.now ≡ seen_of_value asked before.state → IsTrue result ↔ Becomes before.state net.now.state asked }
{
    if is_at(was.node, line.key.node) {
        is_other(was.value, value_at(asked, was.node, net))
    } else {
        false
    }
}

/// Whether the value that is asked for is another than it was.
fn has_changed(asked: Option<ValueOf>, was: &SeenValue, net: &Net, line: &Line) -> bool
    ensures { (before : Reached) → IsRun before → Stepped before (Some (shown line.now)) net.now → was.now ≡ seen_value before.state asked → IsTrue result ↔ IfSome asked (Becomes before.state net.now.state) }
{
    match asked {
        Some(asked) => becomes(asked, was, net, line),
        None => true,
    }
}

/// Whether a value of a flow is one that the sender or the receiver of a node keeps.
fn keeps_value(asked: ValueOf, node: &Node) -> bool
    ensures { result ≡ keeps_value asked.value asked.of node.now.part.role }
{
    if is_next(asked.value) {
        next_for(asked.of, node).is_some()
    } else {
        fields_for(asked.of, node).is_some()
    }
}

/// Whether a node has what is looked for.
fn has_asked(what: Sought, node: &Node) -> bool
    ensures { result ≡ has_asked what node.now.part }
{
    match what {
        Sought::Link(number) => has_link(number, node),
        Sought::Value(asked) => keeps_value(asked, node),
    }
}

/// The number of the first node that has it; as many as there are nodes where none has.
fn node_of(what: Sought, nodes: &[Node]) -> usize
    ensures { result ≡ first_with (has_asked what) (parts_of nodes.now) }
{
    for index in 0..nodes.len() {
        if has_asked(what, &nodes[index]) {
            return index;
        }
    }
    nodes.len()
}

/// What is seen of the link that is asked for.
fn seen_link(asked: Option<Asked>, net: &Net) -> SeenLink
    ensures { result ≡ seen_link net.now.state asked }
{
    match asked {
        Some(asked) => SeenLink {
            node: node_of(Sought::Link(asked.of), net.nodes()),
            offered: offered_in(asked.of, net),
        },
        None => SeenLink {
            node: net.nodes().len(),
            offered: None,
        },
    }
}

/// The same, of a link that is still at the node at which it was seen.
fn link_seen_again(asked: Option<Asked>, was: &SeenLink, net: &Net) -> SeenLink
    ensures { was.now.node ≡ (seen_link net.now.state asked).node → result ≡ seen_link net.now.state asked }
{
    match asked {
        Some(asked) => SeenLink {
            node: was.node,
            offered: offered_at(asked.of, was.node, net),
        },
        None => SeenLink {
            node: was.node,
            offered: None,
        },
    }
}

/// What is seen of the value whose change is asked for.
fn seen_value(asked: Option<ValueOf>, net: &Net) -> SeenValue
    ensures { result ≡ seen_value net.now.state asked }
{
    match asked {
        Some(asked) => SeenValue {
            node: node_of(Sought::Value(asked), net.nodes()),
            value: value_in(asked.value, asked.of, net),
        },
        None => SeenValue {
            node: net.nodes().len(),
            value: Reading::Nothing,
        },
    }
}

/// The same, of a value that is still kept at the node at which it was seen.
fn value_seen_again(asked: Option<ValueOf>, was: &SeenValue, net: &Net) -> SeenValue
    ensures { was.now.node ≡ (seen_value net.now.state asked).node → result ≡ seen_value net.now.state asked }
{
    match asked {
        Some(asked) => SeenValue {
            node: was.node,
            value: value_at(asked, was.node, net),
        },
        None => SeenValue {
            node: was.node,
            value: Reading::Nothing,
        },
    }
}

impl Seen {
    /// Whether something of it is at the node of a number.
    fn is_at(&self, node: u16) -> bool
        ensures { result ≡ sees_at self.now node }
    {
        (is_at(self.queue.node, node) || is_at(self.wait.node, node))
            || (is_at(self.count.node, node) || is_at(self.change.node, node))
    }
}

impl Values {
    /// Whether something is asked that compares two states.
    pub(crate) fn asks_states(&self) -> bool
        ensures { result ≡ asks_states self.now }
    {
        (self.asked(Value::Queue).is_some() || self.asked(Value::Wait).is_some())
            || (self.asked(Value::Count).is_some() || self.change.is_some())
    }

    /// Whether a line, after which a net stands, is as asked of the links that it changes.
    fn meets_links(&self, was: &Seen, net: &Net, line: &Line) -> bool
        ensures { (before : Reached) → IsRun before → Stepped before (Some (shown line.now)) net.now → was.now ≡ seen_in before.state self.now → IsTrue result ↔ MeetsLinks self.now before.state (shown line.now) net.now.state }
    {
        has_link_value(
            Value::Queue,
            self.asked(Value::Queue),
            &was.queue,
            net,
            line,
        ) && has_link_value(Value::Wait, self.asked(Value::Wait), &was.wait, net, line)
            && has_link_value(
                Value::Count,
                self.asked(Value::Count),
                &was.count,
                net,
                line,
            )
    }

    /// Whether a line, after which a net stands, is as asked, with what was seen of the state before it.
    fn meets_states(&self, was: &Seen, net: &Net, line: &Line) -> bool
        ensures { (before : Reached) → IsRun before → Stepped before (Some (shown line.now)) net.now → was.now ≡ seen_in before.state self.now → IsTrue result ↔ MeetsStates self.now before.state (shown line.now) net.now.state }
    {
        if self.meets_links(was, net, line) {
            has_changed(self.change, &was.change, net, line)
        } else {
            false
        }
    }

    /// Whether what a line, after which a net stands, does not show is as asked, a stall aside.
    pub(crate) fn meets_after(&self, was: &Seen, net: &Net, line: &Line) -> bool
        ensures { (before : Reached) → IsRun before → Stepped before (Some (shown line.now)) net.now → was.now ≡ seen_in before.state self.now → IsTrue result ↔ (MeetsKept self.now line.now.after × MeetsStates self.now before.state (shown line.now) net.now.state) }
    {
        if self.meets_kept(net, line) {
            self.meets_states(was, net, line)
        } else {
            false
        }
    }

    /// What is seen of a net.
    fn seen_in(&self, net: &Net) -> Seen
        ensures { result ≡ seen_in net.now.state self.now }
    {
        Seen {
            queue: seen_link(self.asked(Value::Queue), net),
            wait: seen_link(self.asked(Value::Wait), net),
            count: seen_link(self.asked(Value::Count), net),
            change: seen_value(self.change, net),
        }
    }

    /// The same, of a net in which all that is asked for is still at the nodes at which it was seen.
    fn seen_again(&self, was: &Seen, net: &Net) -> Seen
        ensures { HasSameNodes was.now (seen_in net.now.state self.now) → result ≡ seen_in net.now.state self.now }
    {
        Seen {
            queue: link_seen_again(self.asked(Value::Queue), &was.queue, net),
            wait: link_seen_again(self.asked(Value::Wait), &was.wait, net),
            count: link_seen_again(self.asked(Value::Count), &was.count, net),
            change: value_seen_again(self.change, &was.change, net),
        }
    }
}

/// What each breakpoint sees of a net.
pub fn see_all(alloc: Global, breaks: &[Break], net: &Net) -> Result<Vec<Seen>, AllocError>
    ensures { IfOk result (λ seen. AreSeen breaks.now net.now.state seen.items) }
{
    let mut all = Vec::new(alloc);
    for index in 0..breaks.len() {
        let b = &breaks[index];
        all.push(b.values.seen_in(net))?;
    }
    Ok(all)
}

/// The same after a line, in the place of what each saw of the state before it.
pub fn see_again(
    seen: &mut Vec<Seen>,
    breaks: &[Break],
    before: &Snapshot<Net>,
    net: &Net,
    line: &Line,
)
    requires is_run { IsRun before.now.value }
    requires stepped { Stepped before.now.value (Some (shown line.now)) net.now }
    requires seen { AreSeen breaks.now before.now.value.state seen.old.items }
    ensures { AreSeen breaks.now net.now.state seen.new.items }
{
    for index in 0..breaks.len() {
        if seen[index].is_at(line.key.node) {
            let b = &breaks[index];
            let again = b.values.seen_again(&seen[index], net);
            seen[index] = again;
        }
    }
}
