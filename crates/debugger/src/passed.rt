//! Lines of the trace that a run has passed, told by running again.
ghost use Rattle.std.specs.Prelude.{◌≡◌, ◌+◌, ◌-◌, ◌<◌, ◌≤◌, ◌⊎◌, ◌++◌, take, drop, length, vec_len, Some, IfOk, OnOk, OnErr};
ghost use Rattle.std.specs.List.{concat};
ghost use Rattle.node_core.specs.TraceLine.{shown};
ghost use Rattle.net_machine.specs.Run.{Reached, IsRun, Stepped};
ghost use Rattle.trace_text.specs.Line.{line_bytes};
ghost use Rattle.breakpoints.specs.Breaks.{IsFirstHit};
ghost use Rattle.breakpoints.specs.Seen.{AreSeen};
ghost use Rattle.debugger.specs.LastEvents.{freed_link, IsOfLine, IsLastEvent};
ghost use Rattle.debugger.specs.Moves.{Passes, HasPosition};
ghost use Rattle.debugger.specs.Passed.{beside, stretch_texts};

use crate::checkpoints::Checkpoints;
use crate::fault::MoveFault;
use crate::reached::net_at;
use crate::walk::reach_watched;
use breakpoints::breaks::{Breaks, Hit, flow_of};
use breakpoints::seen::{Seen, see_again, see_all};
use net_machine::{Due, Net};
use net_watch::{Watch, run_by_two};
use node_core::{Event, Line};
use sim_time::Time;
use std::alloc::AllocError;
use std::snapshot::Snapshot;
use trace_text::line_text;

/// In which order lines are told.
#[derive(Clone, Copy)]
pub enum LineOrder {
    /// As they came.
    Rising,
    /// The latest first.
    Falling,
}

/// Lines of a run that follow each other.
#[derive(Clone, Copy)]
pub struct Stretch {
    /// The position before the first of them.
    pub from: u64,
    /// How many there are.
    pub count: u64,
    /// In which order they are told.
    pub order: LineOrder,
}

/// What the last event was.
#[derive(Clone, Copy)]
pub struct LastEvent {
    /// When it was, in nanoseconds.
    pub time: Time,
    /// The number of the node that it was at.
    pub node: u16,
    /// The number of the flow that it names; none where a link becomes free.
    pub flow: Option<u16>,
    /// The number of the link that becomes free by it.
    pub link: Option<u16>,
    /// The first breakpoint that matches it.
    pub hit: Option<Hit>,
}

/// Of two nets of a run the one from which a position is the nearer: that before the last move, where
/// the present one is past the position.
pub(crate) fn nearer<'a>(present: &'a Net, left: &'a Option<Net>, target: u64) -> &'a Net
    ensures { (result.now ≡ present.now) ⊎ (left.now ≡ Some result.now) }
{
    match left {
        Some(net) if target < present.position() => net,
        _ => present,
    }
}

// Puts the bytes from `end` on before those from `start` on, where the order is so.
fn put_in_order(bytes: &mut [u8], start: usize, end: usize, order: LineOrder)
    requires start { start ≤ end }
    requires end { end ≤ length bytes.old }
    ensures { bytes.new ≡ take start bytes.old ++ beside order (take (end - start) (drop start bytes.old)) (drop (end - start) (drop start bytes.old)) }
{
    match order {
        LineOrder::Rising => {}
        LineOrder::Falling => bytes[start..].rotate_left(end - start),
    }
}

/// Puts the text of a line behind what stands from a place on, or before it; or nothing.
fn put_line(
    out: &mut Vec<u8>,
    start: usize,
    order: LineOrder,
    number: u64,
    line: &Line,
) -> Result<(), AllocError>
    requires { start ≤ vec_len out.old }
    ensures ok { OnOk result (out.new.items ≡ take start out.old.items ++ beside order (drop start out.old.items) (line_bytes number (shown line.now))) }
    ensures err { OnErr result (out.new.items ≡ out.old.items) }
{
    let end = out.len();
    match line_text(number, line, out) {
        Ok(()) => {
            put_in_order(out.as_mut_slice(), start, end, order);
            Ok(())
        }
        Err(fault) => Err(fault),
    }
}

/// Who puts the texts of lines behind what stands from a place on, or each before it.
#[derive(Drop)]
struct Texts<'a> {
    /// The place, and what stands there.
    out: &'a mut Vec<u8>,
    /// Where it is.
    start: usize,
    /// In which order they are put.
    order: LineOrder,
    /// Whether memory was refused for a text.
    refused: bool,
}

impl Watch for Texts<'_> {
    ghost use Rattle.std.specs.Prelude.{◌≡◌, ◌≤◌, ℕ, List, length, vec_len, refl};
    ghost use Rattle.std.specs.List.{concat};
    ghost use Rattle.table_run.specs.State.{State};
    ghost use Rattle.debugger.specs.Moves.{Passes};
    ghost use Rattle.debugger.specs.Found.{AreFound};
    ghost use Rattle.debugger.specs.Passed.{ordered_texts, texts_between, AreReportedFrom};

    ghost fits = { λ w _. w.start ≤ vec_len w.out.now };

    ghost has = { λ began from w at goes_on. (w.out.ghost_name ≡ began.out.ghost_name) × (w.start ≡ began.start) × (w.order ≡ began.order) × ((start : State) (m : ℕ) (before : List ℕ) → m ≤ from.position → Passes start from → began.start ≡ length before → AreReportedFrom start began.order m from.position before began.out.now.items → AreFound (concat (ordered_texts began.order (texts_between start m at.position))) before w.out.now.items began.refused w.refused goes_on) };

    ghost begins = { λ _ _. (refl, refl, refl, λ _ _ _ _ _ _ reported. (reported, refl)) };

    fn ahead(&self, _at: &Net, _next: Option<Due>) -> bool {
        true
    }

    fn see(&mut self, _before: &Snapshot<Net>, after: &Net, line: &Line) -> bool {
        match put_line(self.out, self.start, self.order, after.position(), line) {
            Ok(()) => true,
            Err(_) => {
                self.refused = true;
                false
            }
        }
    }
}

/// Runs a stretch of the run from its beginning, and appends its lines. On a fault some may have been
/// appended.
fn run_stretch(
    net: &mut Net,
    stretch: &Stretch,
    checkpoints: &mut Checkpoints,
    line: &mut Line,
    out: &mut Vec<u8>,
) -> Result<(), MoveFault>
    requires on_run { Passes checkpoints.old net.old }
    requires from { net.old.position ≡ stretch.now.from }
    requires upto { HasPosition checkpoints.old (stretch.now.from + stretch.now.count) }
    ensures ok { OnOk result (out.new.items ≡ out.old.items ++ concat (stretch_texts checkpoints.old stretch.now)) }
    ensures err { OnErr result (take (length out.old.items) out.new.items ≡ out.old.items) }
    ensures same { checkpoints.new ≡ checkpoints.old }
{
    let upto = net.position().saturating_add(stretch.count);
    let start = out.len();
    let mut texts = Texts {
        out,
        start,
        order: stretch.order,
        refused: false,
    };
    let ended = reach_watched(net, upto, checkpoints, &mut texts, line);
    let _count = net.position();
    match ended {
        Ok(_) if texts.refused => Err(MoveFault::NoMemory),
        Ok(_) => Ok(()),
        Err(fault) => Err(fault.into()),
    }
}

/// Appends the lines of a stretch of the run. On a fault some may have been appended.
#[tactic(none)]
pub(crate) fn append_stretch(
    present: &Net,
    stretch: &Stretch,
    checkpoints: &mut Checkpoints,
    line: &mut Line,
    out: &mut Vec<u8>,
) -> Result<(), MoveFault>
    requires on_run { Passes checkpoints.old present.now }
    requires upto { HasPosition checkpoints.old (stretch.now.from + stretch.now.count) }
    ensures ok { OnOk result (out.new.items ≡ out.old.items ++ concat (stretch_texts checkpoints.old stretch.now)) }
    ensures err { OnErr result (take (length out.old.items) out.new.items ≡ out.old.items) }
    ensures same { checkpoints.new ≡ checkpoints.old }
{
    match net_at(present, stretch.from, checkpoints, line) {
        Ok(net) => {
            let mut net = net;
            run_stretch(&mut net, stretch, checkpoints, line, out)
        }
        Err(fault) => Err(fault),
    }
}

/// The link that becomes free by an event.
fn freed_link(event: &Event) -> Option<u16>
    ensures { result ≡ freed_link event.now }
{
    match event {
        Event::Free(link) => Some(*link),
        Event::Start(_) | Event::Rto(_) | Event::DelAck(_) | Event::Arrive(_) => None,
    }
}

/// What a line shows of its event, at which a breakpoint stops, or none does.
fn event_of(line: &Line, hit: Option<Hit>) -> LastEvent
    ensures shows { IsOfLine (shown line.now) result }
    ensures hit { result.hit ≡ hit }
{
    LastEvent {
        time: line.key.time,
        node: line.key.node,
        flow: flow_of(&line.event),
        link: freed_link(&line.event),
        hit,
    }
}

/// What an event was, of which `line` tells and after which a net stands, and which of the breakpoints
/// stops at it.
#[tactic(none)]
fn event_reported(
    net: &Net,
    line: &Line,
    breaks: &Breaks,
    seen: &[Seen],
) -> Result<LastEvent, MoveFault>
    requires { length seen.now ≡ length breaks.now }
    ensures shows { IfOk result (IsOfLine (shown line.now)) }
    ensures first { (before : Reached) → IsRun before → Stepped before (Some (shown line.now)) net.now → AreSeen breaks.now before.state seen.now → IfOk result (λ event. IsFirstHit breaks.now before.state (shown line.now) net.now.state event.hit) }
{
    match breaks.first_hit(seen, net, line) {
        Ok(hit) => Ok(event_of(line, hit)),
        Err(_) => Err(MoveFault::NoMemory),
    }
}

/// Who tells what the next event is, and which of the breakpoints stops at it.
#[derive(Drop)]
struct OneEvent<'a> {
    /// The breakpoints.
    breaks: &'a Breaks,
    /// What each of them sees of the state before the event.
    seen: Vec<Seen>,
    /// What is told; no memory, before the event.
    reported: Result<LastEvent, MoveFault>,
}

impl Watch for OneEvent<'_> {
    ghost use Rattle.std.specs.Prelude.{◌≡◌, IfOk, refl};
    ghost use Rattle.table_run.specs.State.{State};
    ghost use Rattle.net_machine.specs.Run.{IsRun};
    ghost use Rattle.debugger.specs.Moves.{Passes};
    ghost use Rattle.debugger.specs.LastEvents.{IsReportedOf};
    ghost use Rattle.breakpoints.specs.Seen.{AreSeen};

    ghost fits = { λ w at. IsRun at × AreSeen w.breaks.now at.state w.seen.items };

    ghost has = { λ began from w at goes_on. (w.breaks.now ≡ began.breaks.now) × ((start : State) → Passes start from → IfOk began.reported (λ _. ⊥) → IsReportedOf start began.breaks.now from.position at.position w.reported goes_on) };

    ghost begins = { λ _ _. (refl, λ _ _ none. (refl, none)) };

    fn ahead(&self, _at: &Net, _next: Option<Due>) -> bool {
        true
    }

    fn see(&mut self, before: &Snapshot<Net>, after: &Net, line: &Line) -> bool {
        let _count = after.position();
        let seen = self.seen.as_slice();
        self.reported = event_reported(after, line, self.breaks, seen);
        let breaks = self.breaks.as_slice();
        see_again(&mut self.seen, breaks, before, after, line);
        false
    }
}

/// What the event before a position was, which is run again, and which of the breakpoints stops at it.
pub(crate) fn event_at(
    present: &Net,
    position: u64,
    checkpoints: &mut Checkpoints,
    line: &mut Line,
    breaks: &Breaks,
) -> Result<LastEvent, MoveFault>
    requires on_run { Passes checkpoints.old present.now }
    requires some { 0 < position }
    requires position { HasPosition checkpoints.old position }
    ensures ok { IfOk result (IsLastEvent checkpoints.old breaks.now position) }
    ensures same { checkpoints.new ≡ checkpoints.old }
{
    let mut net = net_at(present, position - 1, checkpoints, line)?;
    let _before = net.position();
    let seen = see_all(breaks.allocator(), breaks.as_slice(), &net)?;
    let mut event = OneEvent {
        breaks,
        seen,
        reported: Err(MoveFault::NoMemory),
    };
    match run_by_two(&mut net, checkpoints, &mut event, line) {
        Ok(_) => event.reported,
        Err(fault) => Err(fault.into()),
    }
}
