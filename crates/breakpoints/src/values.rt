//! Values of flows and of links, and what is asked of them after an event.
ghost use Rattle.std.specs.Prelude.{◌≡◌, ◌<◌, ◌↔◌, true, false, IsTrue, IfSome, Some, option_copied};
ghost use Rattle.node_core.specs.TraceLine.{shown};
ghost use Rattle.net_machine.specs.Run.{Reached, IsRun, Stepped};
ghost use Rattle.breakpoints.specs.Values.{index_of, owner_of, is_kept, number_or_nothing, phase_of, sender_value, receiver_value, value_after, sender_after, after_at, no_values, asking_value, asked_of, CompareIs, HoldsOf, IsMet, MeetsWindows, MeetsBytes, MeetsValues, asks_kept, MeetsKept};

use net_machine::Net;
use node_core::{After, Line, SenderShown};
use reno_sender::SenderFields;

/// A value of a flow, of a link, or the moment.
#[derive(Clone, Copy, PartialEq, Eq)]
pub enum Value {
    /// The sender's congestion window, in bytes.
    Cwnd,
    /// The bytes that it has sent and that are not acknowledged.
    Flight,
    /// Its slow start threshold, in bytes.
    Ssthresh,
    /// The first byte that is not acknowledged.
    Una,
    /// The next byte that it sends.
    Nxt,
    /// Its retransmission timeout, in nanoseconds.
    Rto,
    /// Its duplicate acknowledgements since the last new one.
    Dups,
    /// Its phase.
    Phase,
    /// The next byte that the receiver waits for.
    Next,
    /// How many packets wait at a link.
    Queue,
    /// For how long the first of them has waited, in nanoseconds.
    Wait,
    /// CoDel's count of drops there.
    Count,
    /// When an event is, in nanoseconds.
    Time,
}

/// How many values there are.
pub const VALUES: usize = 13;

/// What a value is of.
#[derive(Clone, Copy)]
pub enum Owner {
    /// A flow.
    Flow,
    /// A link.
    Link,
    /// Neither.
    Nothing,
}

/// A value of a flow or of a link of a number.
#[derive(Clone, Copy, PartialEq, Eq)]
pub struct ValueOf {
    /// Which value.
    pub value: Value,
    /// The number of the flow or of the link.
    pub of: u16,
}

/// A sender's phase of congestion control (RFC 5681 section 3.1).
#[derive(Clone, Copy, PartialEq, Eq)]
pub enum Phase {
    /// `cwnd` is below `ssthresh`.
    SlowStart,
    /// It is not.
    CongestionAvoidance,
    /// Segments are resent before the timer ends (section 3.2).
    FastRecovery,
}

/// What is read of a state.
#[derive(Clone, Copy, PartialEq, Eq)]
pub enum Reading {
    /// A number, in the value's unit.
    Number(u64),
    /// A phase.
    Phase(Phase),
    /// There is no such value: no such flow or link, no packet that waits, or no CoDel.
    Nothing,
}

/// On which side of a number a value is.
#[derive(Clone, Copy, PartialEq, Eq)]
pub enum Sign {
    /// The value is less.
    Less,
    /// It is no more.
    AtMost,
    /// It is greater.
    Greater,
    /// It is no less.
    AtLeast,
    /// It is the same.
    Equal,
}

/// What a number is compared with.
#[derive(Clone, Copy, PartialEq, Eq)]
pub struct Bound {
    /// On which side of the number the value is.
    pub sign: Sign,
    /// The number, in the value's unit.
    pub number: u64,
}

/// What is asked of what is read.
#[derive(Clone, Copy, PartialEq, Eq)]
pub enum Test {
    /// That it is a number within a bound.
    Within(Bound),
    /// That it is a phase.
    Is(Phase),
}

/// What is asked of a value.
#[derive(Clone, Copy, PartialEq, Eq)]
pub struct Asked {
    /// The number of the link, which the event changes; 0 where the value is of no link.
    pub of: u16,
    /// What it has to be.
    pub test: Test,
}

/// What a value can be asked to be after an event.
#[derive(Clone, Copy)]
pub enum ValueCondition {
    /// That of the event's own sender or receiver, of a link, or its moment, is as asked.
    Is(Value, Asked),
    /// A value of a flow is another than before the event.
    Change(ValueOf),
}

/// What values are asked to be after an event; nothing is asked of the others.
#[derive(Clone, Copy, PartialEq, Eq)]
pub struct Values {
    /// What is asked of each value, by its index.
    pub asked: [Option<Asked>; VALUES],
    /// The value that is another than before the event.
    pub change: Option<ValueOf>,
}

impl Value {
    /// Its place among all values, from 0 on.
    #[inline(always)]
    pub fn index(self) -> usize
        ensures value { result ≡ index_of self }
        ensures below { result < 13 }
    {
        self as usize
    }

    /// What it is of.
    pub fn owner(self) -> Owner
        ensures { result ≡ owner_of self }
    {
        match self {
            Value::Queue | Value::Wait | Value::Count => Owner::Link,
            Value::Time => Owner::Nothing,
            _ => Owner::Flow,
        }
    }
}

/// A number, where there is one.
pub(crate) fn number_or_nothing(value: Option<u64>) -> Reading
    ensures { result ≡ number_or_nothing value }
{
    match value {
        Some(number) => Reading::Number(number),
        None => Reading::Nothing,
    }
}

impl Bound {
    /// Whether it holds of a number.
    fn holds_of(self, value: u64) -> bool
        ensures { IsTrue result ↔ CompareIs self value }
    {
        match self.sign {
            Sign::Less => value < self.number,
            Sign::AtMost => value <= self.number,
            Sign::Greater => value > self.number,
            Sign::AtLeast => value >= self.number,
            Sign::Equal => value == self.number,
        }
    }
}

impl Test {
    /// Whether it holds of what is read.
    pub(crate) fn holds_of(self, reading: Reading) -> bool
        ensures { IsTrue result ↔ HoldsOf reading self }
    {
        match (self, reading) {
            (Test::Within(bound), Reading::Number(number)) => bound.holds_of(number),
            (Test::Is(phase), Reading::Phase(other)) => other == phase,
            _ => false,
        }
    }
}

/// Whether what is asked holds of what is read, where something is asked.
fn is_as_asked(asked: Option<Asked>, reading: Reading) -> bool
    ensures { IsTrue result ↔ IfSome asked (λ a. HoldsOf reading a.test) }
{
    match asked {
        Some(asked) => asked.test.holds_of(reading),
        None => true,
    }
}

/// The phase of a sender.
fn phase_of(sender: &SenderShown) -> Phase
    ensures { result ≡ phase_of sender.now }
{
    if sender.recovers() {
        Phase::FastRecovery
    } else if sender.cwnd() < sender.ssthresh() {
        Phase::SlowStart
    } else {
        Phase::CongestionAvoidance
    }
}

/// A value of a sender.
pub(crate) fn sender_value(value: Value, fields: &SenderFields) -> Reading
    ensures { result ≡ sender_value value fields.now }
{
    match value {
        Value::Cwnd => Reading::Number(fields.cwnd),
        Value::Flight => Reading::Number(fields.nxt.saturating_sub(fields.una)),
        Value::Ssthresh => Reading::Number(fields.ssthresh),
        Value::Una => Reading::Number(fields.una),
        Value::Nxt => Reading::Number(fields.nxt),
        Value::Rto => Reading::Number(fields.rto),
        Value::Dups => Reading::Number(fields.dups),
        Value::Phase => Reading::Phase(phase_of(&SenderShown::of(fields))),
        Value::Next | Value::Queue | Value::Wait | Value::Count | Value::Time => Reading::Nothing,
    }
}

/// The same of what a line shows of a sender, without what it keeps besides.
fn shown_value(value: Value, sender: &SenderShown) -> Reading
    requires { is_kept value ≡ false }
    ensures { result ≡ sender_value value sender.now }
{
    match value {
        Value::Cwnd => Reading::Number(sender.cwnd()),
        Value::Flight => Reading::Number(sender.nxt().saturating_sub(sender.una())),
        Value::Ssthresh => Reading::Number(sender.ssthresh()),
        Value::Una => Reading::Number(sender.una()),
        Value::Nxt => Reading::Number(sender.nxt()),
        Value::Phase => Reading::Phase(phase_of(sender)),
        Value::Rto | Value::Dups => Reading::Nothing,
        Value::Next | Value::Queue | Value::Wait | Value::Count | Value::Time => Reading::Nothing,
    }
}

/// A value of the receiver that waits for a byte.
fn receiver_value(value: Value, next: u64) -> Reading
    ensures { result ≡ receiver_value value next }
{
    match value {
        Value::Next => Reading::Number(next),
        _ => Reading::Nothing,
    }
}

/// A value of what a line shows of its node.
fn value_after(value: Value, after: &After) -> Reading
    requires { is_kept value ≡ false }
    ensures { result ≡ value_after value after.now }
{
    match after {
        After::AtSender(sender) => shown_value(value, sender),
        After::AtReceiver(next) => receiver_value(value, *next),
        After::AtRouter => Reading::Nothing,
    }
}

/// What the sender at a node of a net keeps, where it lies; none where there is no sender.
fn fields_at(net: &Net, node: u16) -> Option<&SenderFields>
    ensures { option_copied result ≡ sender_after (after_at net.now.state node) }
{
    let nodes = net.nodes();
    let place = usize::from(node);
    if place >= nodes.len() {
        return None;
    }
    match nodes[place].sender() {
        Some((_, sender)) => Some(sender.as_fields()),
        None => None,
    }
}

/// A value that the sender at a node keeps.
fn kept_at(value: Value, net: &Net, node: u16) -> Reading
    requires { is_kept value ≡ true }
    ensures { result ≡ value_after value (after_at net.now.state node) }
{
    match fields_at(net, node) {
        Some(fields) => sender_value(value, fields),
        None => Reading::Nothing,
    }
}

/// Whether the same is asked of values.
pub(crate) fn are_same_values(a: &Values, b: &Values) -> bool
    ensures { IsTrue result ↔ (a.now ≡ b.now) }
{
    a == b
}

impl Values {
    /// Nothing is asked of any value.
    pub fn none() -> Values
        ensures { result ≡ no_values }
    {
        Values {
            asked: [None; VALUES],
            change: None,
        }
    }

    /// One value more is asked to be so, in the place of what was asked of it.
    pub fn and(self, condition: ValueCondition) -> Values
        ensures { result ≡ asking_value self condition }
    {
        let mut values = self;
        match condition {
            ValueCondition::Is(value, asked) => values.asked[value.index()] = Some(asked),
            ValueCondition::Change(asked) => values.change = Some(asked),
        }
        values
    }

    /// What is asked of a value.
    #[inline(always)]
    pub fn asked(&self, value: Value) -> Option<Asked>
        ensures { result ≡ asked_of self.now value }
    {
        self.asked[value.index()]
    }

    /// Whether a value that a line shows is as asked.
    fn is_met(&self, value: Value, after: &After) -> bool
        requires { is_kept value ≡ false }
        ensures { IsTrue result ↔ IsMet self.now after.now value }
    {
        match self.asked(value) {
            Some(asked) => asked.test.holds_of(value_after(value, after)),
            None => true,
        }
    }

    /// Whether a sender's windows and phase are as asked.
    fn meets_windows(&self, after: &After) -> bool
        ensures { IsTrue result ↔ MeetsWindows self.now after.now }
    {
        self.is_met(Value::Cwnd, after)
            && self.is_met(Value::Flight, after)
            && self.is_met(Value::Ssthresh, after)
            && self.is_met(Value::Phase, after)
    }

    /// Whether a sender's bytes, or a receiver's, are as asked.
    fn meets_bytes(&self, after: &After) -> bool
        ensures { IsTrue result ↔ MeetsBytes self.now after.now }
    {
        self.is_met(Value::Una, after)
            && self.is_met(Value::Nxt, after)
            && self.is_met(Value::Next, after)
    }

    /// Whether a line, and what it shows of its node, are as asked.
    pub(crate) fn meets_line(&self, line: &Line) -> bool
        ensures { IsTrue result ↔ MeetsValues self.now (shown line.now) }
    {
        self.meets_windows(&line.after)
            && self.meets_bytes(&line.after)
            && is_as_asked(self.asked(Value::Time), Reading::Number(line.key.time))
    }

    /// Whether something is asked of what a sender keeps and its lines do not show.
    pub(crate) fn asks_kept(&self) -> bool
        ensures { result ≡ asks_kept self.now }
    {
        self.asked(Value::Rto).is_some() || self.asked(Value::Dups).is_some()
    }

    /// Whether a value that the sender at a node keeps is as asked.
    fn has_kept(&self, value: Value, net: &Net, node: u16) -> bool
        requires { is_kept value ≡ true }
        ensures { IsTrue result ↔ IsMet self.now (after_at net.now.state node) value }
    {
        match self.asked(value) {
            Some(asked) => asked.test.holds_of(kept_at(value, net, node)),
            None => true,
        }
    }

    /// Whether what the sender at a node keeps is as asked.
    fn meets_kept_at(&self, net: &Net, node: u16) -> bool
        ensures { IsTrue result ↔ MeetsKept self.now (after_at net.now.state node) }
    {
        self.has_kept(Value::Rto, net, node) && self.has_kept(Value::Dups, net, node)
    }

    /// Whether what a sender keeps is as asked after a line, after which a net stands.
    pub(crate) fn meets_kept(&self, net: &Net, line: &Line) -> bool
        ensures { (before : Reached) → IsRun before → Stepped before (Some (shown line.now)) net.now → IsTrue result ↔ MeetsKept self.now line.now.after }
    {
        self.meets_kept_at(net, line.key.node)
    }
}
