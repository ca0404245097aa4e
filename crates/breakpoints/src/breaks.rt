//! Breakpoints: which events of a run it stops at.
ghost use Rattle.std.specs.Prelude.{◌≡◌, ◌↔◌, ◌<◌, ◌≤◌, [], ◌∷◌, ◌++◌, Contains, IsTrue, IsSome, MatchBool, Some, IfSome, IfOk, IfErr, OnErr, length, slice_index_or};
ghost use Rattle.std.specs.List.{list_any};
ghost use Rattle.node_core.specs.TraceLine.{shown};
ghost use Rattle.net_machine.specs.Run.{Reached, IsRun, Stepped};
ghost use Rattle.flow_waits.specs.Stalled.{becomes_stalled as becomes_stalled_by};
ghost use Rattle.breakpoints.specs.Breaks.{flow_of, kind_of, byte_of, is_drop, is_drop_of_byte, link_of_act, is_at_link, is_sent_of, sends_own, asking, asks_nothing, IsOfByte, MeetsLine, Stalls, Matches, MayMatch, IsHit, IsFirstHit, asks_unshown, AsksUnshown, IsLineHit, IsMayHit, IsTakenOut};
ghost use Rattle.breakpoints.specs.Seen.{seen_in, AreSeen};

use crate::seen::Seen;
use crate::values::{Reading, ValueCondition, Values, are_same_values};
use flow_waits::{becomes_stalled, some_becomes_stalled};
use net_machine::Net;
use node_core::{Event, Line};
use packet_chain::Kind;
use port::Act;
use std::alloc::{AllocError, Global};
use std::marker::Model;

/// The most breakpoints that are set at one time.
pub const MOST_BREAKS: usize = 64;

/// What an event is, as the trace names it.
#[derive(Clone, Copy, PartialEq, Eq)]
pub enum EventKind {
    /// A flow starts.
    Start,
    /// A retransmission timer ends.
    Rto,
    /// A delayed acknowledgement is due.
    DelAck,
    /// A link becomes free.
    Free,
    /// A segment arrives.
    Data,
    /// An acknowledgement arrives.
    Ack,
}

/// Which flow is asked to become stalled.
#[derive(Clone, Copy, PartialEq, Eq)]
pub enum StallOf {
    /// Any.
    Any,
    /// That of this number.
    Flow(u16),
}

/// What an event can be asked to meet.
#[derive(Clone, Copy)]
pub enum Condition {
    /// The event is at the node of this number.
    Node(u16),
    /// The event names the flow of this number, at whatever node.
    Flow(u16),
    /// The event is of a kind.
    Kind(EventKind),
    /// The event drops a packet.
    Drop,
    /// The link of this number begins to send a packet, or drops one.
    Link(u16),
    /// A segment arrives that begins with this byte, or an acknowledgement of this number; where a
    /// drop is asked for too, such a packet is dropped.
    Byte(u64),
    /// A flow is stalled after the event, and was not before it.
    Stall(StallOf),
    /// A value is so after the event.
    Value(ValueCondition),
}

/// What a run stops at: an event that meets each condition that is asked for.
#[derive(Clone, Copy)]
pub struct Break {
    /// The node of the event.
    pub node: Option<u16>,
    /// The flow that the event names.
    pub flow: Option<u16>,
    /// The kind of the event.
    pub kind: Option<EventKind>,
    /// Whether a packet has to be dropped.
    pub drops: bool,
    /// The link that begins to send a packet, or drops one.
    pub link: Option<u16>,
    /// The first byte of the segment that arrives, or the number of the acknowledgement; of the packet
    /// that is dropped, where one has to be.
    pub byte: Option<u64>,
    /// The flow that is stalled after the event, and was not before it.
    pub stall: Option<StallOf>,
    /// What values are after the event.
    pub values: Values,
}

/// A breakpoint that matches, among those that are set.
#[derive(Clone, Copy)]
pub struct Hit {
    /// Its number: 1 for the first that was set.
    pub number: u64,
    /// The breakpoint.
    pub breakpoint: Break,
    /// What the value was before the event whose change it asks for.
    pub was: Reading,
}

/// Why a breakpoint was not set.
#[derive(Clone, Copy)]
pub enum BreakFault {
    /// As many are set as there may be.
    TooMany,
    /// There was no memory.
    NoMemory,
}

/// The flow that an event names, if it names one.
pub fn flow_of(event: &Event) -> Option<u16>
    ensures { result ≡ flow_of event.now }
{
    match event {
        Event::Start(flow) => Some(*flow),
        Event::Rto(flow) => Some(*flow),
        Event::DelAck(flow) => Some(*flow),
        Event::Free(_) => None,
        Event::Arrive(packet) => Some(packet.flow),
    }
}

/// The kind of an event.
fn kind_of(event: &Event) -> EventKind
    ensures { result ≡ kind_of event.now }
{
    match event {
        Event::Start(_) => EventKind::Start,
        Event::Rto(_) => EventKind::Rto,
        Event::DelAck(_) => EventKind::DelAck,
        Event::Free(_) => EventKind::Free,
        Event::Arrive(packet) => match packet.kind {
            Kind::Data => EventKind::Data,
            Kind::Ack => EventKind::Ack,
        },
    }
}

/// The number of the packet that arrives: the first byte of a segment, or of an acknowledgement the
/// byte that is awaited.
fn byte_of(event: &Event) -> Option<u64>
    ensures { result ≡ byte_of event.now }
{
    match event {
        Event::Arrive(packet) => Some(packet.number),
        _ => None,
    }
}

/// Whether a packet was dropped.
pub fn has_drop(acts: &[Act]) -> bool
    ensures { result ≡ list_any is_drop acts.now }
{
    acts.iter().any(|act| matches!(act, Act::Dropped(_, _, _)))
}

/// Whether an act drops a packet of a number.
fn is_drop_of(number: u64, act: &Act) -> bool
    ensures { result ≡ is_drop_of_byte number act.now }
{
    match act {
        Act::Tx(_, _) => false,
        Act::Dropped(_, _, packet) => packet.number == number,
    }
}

/// Whether a packet of a number was dropped.
fn has_drop_of(number: u64, acts: &[Act]) -> bool
    ensures { result ≡ list_any (is_drop_of_byte number) acts.now }
{
    acts.iter().any(|act| is_drop_of(number, act))
}

/// The link of an act: that which sends the packet, or drops it.
fn link_of(act: &Act) -> u16
    ensures { result ≡ link_of_act act.now }
{
    match act {
        Act::Tx(link, _) => *link,
        Act::Dropped(link, _, _) => *link,
    }
}

/// Whether one of these acts is a link's.
fn has_act_at(link: u16, acts: &[Act]) -> bool
    ensures { result ≡ list_any (is_at_link link) acts.now }
{
    acts.iter().any(|act| link_of(act) == link)
}

/// Whether a packet of a flow begins to be sent.
fn has_sent_of(flow: u16, acts: &[Act]) -> bool
    ensures { result ≡ list_any (is_sent_of flow) acts.now }
{
    acts.iter().any(|act| is_sent_of(flow, act))
}

/// Whether an act begins to send a packet of a flow.
fn is_sent_of(flow: u16, act: &Act) -> bool
    ensures { result ≡ is_sent_of flow act.now }
{
    match act {
        Act::Tx(_, packet) => packet.flow == flow,
        Act::Dropped(_, _, _) => false,
    }
}

/// Whether the flow that starts, or of which a packet arrives, begins to send one.
pub fn sends_own(event: &Event, acts: &[Act]) -> bool
    ensures { result ≡ sends_own event.now acts.now }
{
    match event {
        Event::Start(flow) => has_sent_of(*flow, acts),
        Event::Rto(_) | Event::DelAck(_) | Event::Free(_) => false,
        Event::Arrive(packet) => has_sent_of(packet.flow, acts),
    }
}

/// Whether an event is at the node that is asked for.
fn is_at(asked: Option<u16>, line: &Line) -> bool
    ensures { IsTrue result ↔ IfSome asked (λ node. line.now.key.node ≡ node) }
{
    match asked {
        Some(node) => line.key.node == node,
        None => true,
    }
}

/// Whether an event names the flow that is asked for.
fn names_flow(asked: Option<u16>, event: &Event) -> bool
    ensures { IsTrue result ↔ IfSome asked (λ flow. flow_of event.now ≡ Some flow) }
{
    match asked {
        Some(flow) => flow_of(event) == Some(flow),
        None => true,
    }
}

/// Whether an event is of the kind that is asked for.
fn is_of_kind(asked: Option<EventKind>, event: &Event) -> bool
    ensures { IsTrue result ↔ IfSome asked (λ kind. kind_of event.now ≡ kind) }
{
    match asked {
        Some(kind) => kind_of(event) == kind,
        None => true,
    }
}

/// Whether a packet of a byte is dropped, where drops are asked for, or else arrives.
fn is_of_byte(byte: u64, drops: bool, line: &Line) -> bool
    ensures { IsTrue result ↔ IsOfByte drops byte (shown line.now) }
{
    if drops {
        has_drop_of(byte, line.acts.as_slice())
    } else {
        byte_of(&line.event) == Some(byte)
    }
}

/// Whether a line is of the byte that is asked for.
fn has_byte(asked: Option<u64>, drops: bool, line: &Line) -> bool
    ensures { IsTrue result ↔ IfSome asked (λ byte. IsOfByte drops byte (shown line.now)) }
{
    match asked {
        Some(byte) => is_of_byte(byte, drops, line),
        None => true,
    }
}

/// Whether a packet was dropped, where that is asked for.
fn drops_as_asked(asked: bool, acts: &[Act]) -> bool
    ensures { IsTrue result ↔ (IsTrue asked → IsTrue (list_any is_drop acts.now)) }
{
    !asked || has_drop(acts)
}

/// Whether a link sends or drops, where one is asked for.
fn goes_by_link(asked: Option<u16>, acts: &[Act]) -> bool
    ensures { IsTrue result ↔ IfSome asked (λ link. IsTrue (list_any (is_at_link link) acts.now)) }
{
    match asked {
        Some(link) => has_act_at(link, acts),
        None => true,
    }
}

impl Break {
    /// The one that asks for a condition alone.
    pub fn of(condition: Condition) -> Break
        ensures { result ≡ asking asks_nothing condition }
    {
        let none = Break {
            node: None,
            flow: None,
            kind: None,
            drops: false,
            link: None,
            byte: None,
            stall: None,
            values: Values::none(),
        };
        none.and(condition)
    }

    /// One that asks for a condition too, in the place of another of its sort.
    pub fn and(self, condition: Condition) -> Break
        ensures { result ≡ asking self condition }
    {
        let mut b = self;
        match condition {
            Condition::Node(node) => b.node = Some(node),
            Condition::Flow(flow) => b.flow = Some(flow),
            Condition::Kind(kind) => b.kind = Some(kind),
            Condition::Drop => b.drops = true,
            Condition::Link(link) => b.link = Some(link),
            Condition::Byte(byte) => b.byte = Some(byte),
            Condition::Stall(asked) => b.stall = Some(asked),
            Condition::Value(condition) => b.values = b.values.and(condition),
        }
        b
    }

    /// Whether a line meets each condition that this breakpoint asks for, of those on what lines show.
    pub fn meets_line(&self, line: &Line) -> bool
        ensures { IsTrue result ↔ MeetsLine self.now (shown line.now) }
    {
        is_at(self.node, line)
            && names_flow(self.flow, &line.event)
            && is_of_kind(self.kind, &line.event)
            && drops_as_asked(self.drops, line.acts.as_slice())
            && goes_by_link(self.link, line.acts.as_slice())
            && has_byte(self.byte, self.drops, line)
            && self.values.meets_line(line)
    }

    /// Whether this breakpoint asks for what lines do not show.
    fn asks_unshown(&self) -> bool
        ensures { result ≡ asks_unshown self.now }
    {
        self.stall.is_some() || (self.values.asks_kept() || self.values.asks_states())
    }

    /// Whether this breakpoint may match a line, by which no flow becomes stalled where that is quiet.
    fn may_match(&self, quiet: bool, line: &Line) -> bool
        ensures { IsTrue result ↔ MayMatch quiet (shown line.now) self.now }
    {
        if quiet && self.stall.is_some() {
            false
        } else {
            self.meets_line(line)
        }
    }

    /// Whether this breakpoint matches a line, after which a net stands, with what it saw of the state before it.
    pub fn matches(
        &self,
        was: &Seen,
        alloc: Global,
        net: &Net,
        line: &Line,
    ) -> Result<bool, AllocError>
        ensures { (before : Reached) → IsRun before → Stepped before (Some (shown line.now)) net.now → was.now ≡ seen_in before.state self.now.values → IfOk result (λ found. IsTrue found ↔ Matches self.now before.state (shown line.now) net.now.state) }
    {
        // First what `may_hit` has left open: it has looked at the line.
        if self.values.meets_after(was, net, line) {
            self.meets_shown(alloc, net, line)
        } else {
            Ok(false)
        }
    }

    /// Whether a line, after which a net stands, meets the conditions on what lines show, and stalls the flow that is asked for.
    fn meets_shown(&self, alloc: Global, net: &Net, line: &Line) -> Result<bool, AllocError>
        ensures { (before : Reached) → IsRun before → Stepped before (Some (shown line.now)) net.now → IfOk result (λ found. IsTrue found ↔ (MeetsLine self.now (shown line.now) × IfSome self.now.stall (λ flow. Stalls flow before.state net.now.state))) }
    {
        if self.meets_line(line) {
            stalls_as_asked(self.stall, alloc, net, line)
        } else {
            Ok(false)
        }
    }
}

/// Whether a flow becomes stalled by a line, after which a net stands, where that is asked for.
fn stalls_as_asked(
    asked: Option<StallOf>,
    alloc: Global,
    net: &Net,
    line: &Line,
) -> Result<bool, AllocError>
    ensures { (before : Reached) → IsRun before → Stepped before (Some (shown line.now)) net.now → IfOk result (λ found. IsTrue found ↔ IfSome asked (λ flow. Stalls flow before.state net.now.state)) }
{
    match asked {
        Some(flow) => stalls(flow, alloc, net, line),
        None => Ok(true),
    }
}

/// Whether a flow that is asked for becomes stalled by a line, after which a net stands.
fn stalls(flow: StallOf, alloc: Global, net: &Net, line: &Line) -> Result<bool, AllocError>
    ensures { (before : Reached) → IsRun before → Stepped before (Some (shown line.now)) net.now → IfOk result (λ found. IsTrue found ↔ Stalls flow before.state net.now.state) }
{
    match flow {
        StallOf::Any => some_stalls(alloc, net, line),
        StallOf::Flow(number) => one_stalls(number, alloc, net, line),
    }
}

/// Whether some flow becomes stalled by a line. One that begins to send does not, and nothing is looked for.
fn some_stalls(alloc: Global, net: &Net, line: &Line) -> Result<bool, AllocError>
    ensures { (before : Reached) → IsRun before → Stepped before (Some (shown line.now)) net.now → IfOk result (λ found. IsTrue found ↔ Stalls StallOf.Any before.state net.now.state) }
{
    if sends_own(&line.event, line.acts.as_slice()) {
        Ok(false)
    } else {
        some_becomes_stalled(alloc, net, line)
    }
}

/// The same of the flow of a number.
fn one_stalls(number: u16, alloc: Global, net: &Net, line: &Line) -> Result<bool, AllocError>
    ensures { (before : Reached) → IsRun before → Stepped before (Some (shown line.now)) net.now → IfOk result (λ found. found ≡ becomes_stalled_by number before.state net.now.state) }
{
    if has_sent_of(number, line.acts.as_slice()) {
        Ok(false)
    } else {
        becomes_stalled(alloc, net, line, number)
    }
}

/// Whether two breakpoints ask for the same of an event, values aside.
fn ask_same_of_lines(a: &Break, b: &Break) -> bool
    ensures { IsTrue result ↔ ((a.now.node ≡ b.now.node) × (a.now.flow ≡ b.now.flow) × (a.now.link ≡ b.now.link) × (a.now.kind ≡ b.now.kind) × (a.now.drops ≡ b.now.drops) × (a.now.byte ≡ b.now.byte) × (a.now.stall ≡ b.now.stall)) }
{
    a.node == b.node
        && a.flow == b.flow
        && a.link == b.link
        && a.kind == b.kind
        && a.drops == b.drops
        && a.byte == b.byte
        && a.stall == b.stall
}

/// Whether two breakpoints ask for the same.
fn is_same(a: &Break, b: &Break) -> bool
    ensures { IsTrue result ↔ (a.now ≡ b.now) }
{
    if ask_same_of_lines(a, b) {
        are_same_values(&a.values, &b.values)
    } else {
        false
    }
}

/// The breakpoint at an index, where it lies.
fn break_at(breaks: &[Break], index: usize) -> &Break
    requires { index < length breaks.now }
    ensures { (other : Break) → slice_index_or breaks.now index other ≡ result.now }
{
    &breaks[index]
}

/// Whether a breakpoint is among these.
pub fn is_among(breaks: &[Break], b: Break) -> bool
    ensures { MatchBool result (Contains breaks.now b) (¬ Contains breaks.now b) }
{
    for index in 0..breaks.len() {
        let other = break_at(breaks, index);
        if is_same(other, &b) {
            return true;
        }
    }
    false
}

/// What the breakpoint at an index saw, where it lies.
fn seen_at(seen: &[Seen], index: usize) -> &Seen
    requires { index < length seen.now }
    ensures { (other : Seen) → slice_index_or seen.now index other ≡ result.now }
{
    &seen[index]
}

/// The first of these breakpoints that matches a line, after which a net stands, with what they saw of the state
/// before it.
fn first_of(
    breaks: &[Break],
    seen: &[Seen],
    alloc: Global,
    net: &Net,
    line: &Line,
) -> Result<Option<Hit>, AllocError>
    requires { length seen.now ≡ length breaks.now }
    ensures { (before : Reached) → IsRun before → Stepped before (Some (shown line.now)) net.now → AreSeen breaks.now before.state seen.now → IfOk result (IsFirstHit breaks.now before.state (shown line.now) net.now.state) }
{
    for index in 0..breaks.len() {
        let breakpoint = break_at(breaks, index);
        let was = seen_at(seen, index);
        match breakpoint.matches(was, alloc, net, line) {
            Ok(true) => {
                return Ok(Some(Hit {
                    number: index as u64 + 1,
                    breakpoint: *breakpoint,
                    was: was.change.value,
                }));
            }
            Ok(false) => {}
            Err(fault) => return Err(fault),
        }
    }
    Ok(None)
}

/// The breakpoints that are set, in the order in which they were.
#[derive(Drop)]
pub struct Breaks {
    items: Vec<Break>,
}

impl Model for Breaks {
    ghost use Rattle.std.specs.Prelude.{◌≤◌, List, length};
    ghost use Rattle.breakpoints.specs.declared.breaks.Break.{Break};

    ghost Value = { List Break };

    ghost view = { λ b. b.items.items };

    ghost invariant = { λ b. length b.items.items ≤ 64 };
}

impl Breaks {
    /// None.
    pub fn new(alloc: Global) -> Breaks
        ensures { result ≡ [] }
    {
        Breaks {
            items: Vec::new(alloc),
        }
    }

    /// Whether this one is set.
    pub fn contains(&self, b: Break) -> bool
        ensures value { MatchBool result (Contains self.now b) (¬ Contains self.now b) }
        ensures few { length self.now ≤ 64 }
    {
        is_among(self.items.as_slice(), b)
    }

    /// Sets one more, and answers how many are set then. One that is set already stays.
    pub fn add(&mut self, b: Break) -> Result<usize, BreakFault>
        ensures count { IfOk result (λ n. n ≡ length self.new) }
        ensures again { Contains self.old b → (self.new ≡ self.old) × (result ≡ Ok (length self.old)) }
        ensures fresh { ¬ Contains self.old b → IfOk result (λ _. self.new ≡ self.old ++ b ∷ []) }
        ensures full { ¬ Contains self.old b → length self.old ≡ 64 → result ≡ Err BreakFault.TooMany }
        ensures room { length self.old < 64 → IfErr result (λ fault. fault ≡ BreakFault.NoMemory) }
        ensures err { OnErr result (self.new ≡ self.old) }
    {
        if self.contains(b) {
            return Ok(self.items.len());
        }
        if self.items.len() == MOST_BREAKS {
            return Err(BreakFault::TooMany);
        }
        match self.items.push(b) {
            Ok(()) => Ok(self.items.len()),
            Err(_) => Err(BreakFault::NoMemory),
        }
    }

    /// Those that are set.
    pub fn as_slice(&self) -> &[Break]
        ensures value { result.now ≡ self.now }
        ensures few { length self.now ≤ 64 }
    {
        self.items.as_slice()
    }

    /// Takes the one at an index away.
    pub fn delete(&mut self, index: usize) -> Break
        requires { index < length self.old }
        ensures { IsTakenOut self.old self.new index result }
    {
        self.items.remove(index)
    }

    /// Sets none.
    pub fn clear(&mut self)
        ensures { self.new ≡ [] }
    {
        self.items.clear();
    }

    /// The first of them that matches a line, after which a net stands, with what they saw of the state before it.
    pub fn first_hit(
        &self,
        seen: &[Seen],
        net: &Net,
        line: &Line,
    ) -> Result<Option<Hit>, AllocError>
        requires { length seen.now ≡ length self.now }
        ensures { (before : Reached) → IsRun before → Stepped before (Some (shown line.now)) net.now → AreSeen self.now before.state seen.now → IfOk result (IsFirstHit self.now before.state (shown line.now) net.now.state) }
    {
        first_of(
            self.items.as_slice(),
            seen,
            *self.items.allocator(),
            net,
            line,
        )
    }

    /// Whether one of them matches a line, after which a net stands, with what they saw of the state before it.
    pub fn hits(&self, seen: &[Seen], net: &Net, line: &Line) -> Result<bool, AllocError>
        requires { length seen.now ≡ length self.now }
        ensures { (before : Reached) → IsRun before → Stepped before (Some (shown line.now)) net.now → AreSeen self.now before.state seen.now → IfOk result (λ found. IsTrue found ↔ IsHit self.now before.state (shown line.now) net.now.state) }
    {
        match self.first_hit(seen, net, line) {
            Ok(hit) => Ok(hit.is_some()),
            Err(fault) => Err(fault),
        }
    }

    /// Whether one of them may match a line, by which no flow becomes stalled where that is quiet.
    pub fn may_hit(&self, quiet: bool, line: &Line) -> bool
        ensures { IsTrue result ↔ IsMayHit self.now quiet (shown line.now) }
    {
        for b in &self.items {
            if b.may_match(quiet, line) {
                return true;
            }
        }
        false
    }

    /// Where their memory comes from.
    pub fn allocator(&self) -> Global {
        *self.items.allocator()
    }

    /// Whether a line meets the conditions of one of them, of those on what lines show.
    pub fn hits_line(&self, line: &Line) -> bool
        ensures { IsTrue result ↔ IsLineHit self.now (shown line.now) }
    {
        for b in &self.items {
            if b.meets_line(line) {
                return true;
            }
        }
        false
    }

    /// Whether one of them asks for what lines do not show.
    pub fn asks_unshown(&self) -> bool
        ensures { IsTrue result ↔ AsksUnshown self.now }
    {
        for b in &self.items {
            if b.asks_unshown() {
                return true;
            }
        }
        false
    }
}
