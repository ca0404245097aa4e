//! The debugger: it stands at a position of a scenario's run, and moves both ways.
ghost use Rattle.std.specs.Prelude.{◌≡◌, ◌≢◌, ◌+◌, ◌-◌, ◌<◌, ◌≤◌, [], ◌∷◌, ◌++◌, true, false, take, Contains, IfOk, IfErr, OnOk, OnErr, MatchBool, MatchResult, Some, None, Ok, Err, is_none, length};
ghost use Rattle.std.specs.List.{concat};
ghost use Rattle.table_run.specs.State.{initial, due};
ghost use Rattle.net_machine.specs.Run.{Reached};
ghost use Rattle.debugger.specs.Moves.{Passes, HasPosition, StepGoesTo, RunGoesTo, ReverseGoesTo, UntilGoesTo, IsTooLong};
ghost use Rattle.breakpoints.specs.Breaks.{IsTakenOut};
ghost use Rattle.debugger.specs.Debugging.{debugging_opened, HasMoved};
ghost use Rattle.debugger.specs.LastEvents.{IsLastEvent};
ghost use Rattle.debugger.specs.Passed.{stretch_texts};
ghost use Rattle.breakpoints.specs.Seen.{read_in, read_left_in};
ghost use Rattle.debugger.specs.Drops.{missing_in, past_drops};
ghost use Rattle.debugger.specs.Stalls.{IsAllStalls};
ghost use Rattle.trace_text.specs.Dump.{dump_bytes};
ghost use Rattle.trace_text.specs.DumpParts.{part_bytes};
ghost use Rattle.flow_waits.specs.Waits.{waits_bytes};

use crate::aim::Aim;
use crate::backwards::net_before;
use crate::checkpoints::Checkpoints;
use crate::drops::{DropsOf, PastDrop, append_drops, missing_in};
use crate::fault::MoveFault;
use crate::passed::{LastEvent, Stretch, append_stretch, event_at, nearer};
use crate::reached::{net_after, net_at};
use crate::stalls::{StallAt, append_stalls};
use crate::to_stop::net_at_stop;
use crate::walk::is_ended;
use crate::window_settings::WindowSettings;
use breakpoints::breaks::{Break, BreakFault, Breaks};
use breakpoints::seen::{read_in, read_left_in};
use breakpoints::values::{Reading, ValueOf};
use flow_waits::{ScenarioNames, waits_text};
use net_machine::Net;
use node_core::{After, Event, Line};
use port::Acts;
use scenario_image::scenario::Scenario;
use sim_time::{Key, Time};
use std::alloc::{AllocError, Global};
use std::marker::Model;
use std::mem;
use trace_text::{DumpPart, dump_text, part_text};
use window_core::Partition;
use window_engine::{Gate, Hands};

/// A debugger of one scenario.
#[derive(Drop)]
pub struct Debugger {
    /// The net that is shown.
    net: Net,
    /// The net that the last move left, where that can be gone back to.
    left: Option<Net>,
    /// States from which going back begins.
    checkpoints: Checkpoints,
    /// What `run` stops at.
    breaks: Breaks,
    /// What the last event was, lent to each step.
    line: Line,
    /// Who runs windows.
    window_settings: WindowSettings,
}

#[tactic(none)]
impl Model for Debugger {
    ghost use Rattle.debugger.specs.Debugging.{Debugging, debugging_code};

    ghost Value = { Debugging };

    ghost coded = { debugging_code };

    ghost use Rattle.debugger.specs.DebuggerOf.{debugging_of, IsDebuggerInside};

    ghost view = { debugging_of };

    ghost invariant = { IsDebuggerInside };
}

// A line that no event has written yet.
fn unwritten(alloc: Global) -> Line {
    Line {
        key: Key {
            time: 0,
            node: 0,
            source: 0,
            number: 0,
        },
        event: Event::Start(0),
        after: After::AtRouter,
        acts: Acts::new(alloc),
    }
}

#[tactic(none)]
impl Debugger {
    /// At position 0 of a scenario's run, with no breakpoint. The moves `run` and `until` go by
    /// windows of these groups, which so many workers run.
    pub fn new(
        alloc: Global,
        scenario: &Scenario,
        partition: Partition,
        workers: usize,
    ) -> Result<Debugger, AllocError>
        requires partition { length partition ≡ length scenario.now.nodes }
        requires workers { (0 < workers) × (workers ≤ 64) }
        ensures { IfOk result (λ debugger. debugger ≡ debugging_opened (initial scenario.now) workers) }
    {
        let Ok(net) = Net::new(alloc, scenario) else {
            return Err(AllocError);
        };
        let Ok(initial) = net.copy() else {
            return Err(AllocError);
        };
        Ok(Debugger {
            net,
            left: None,
            checkpoints: Checkpoints::new(alloc, initial),
            breaks: Breaks::new(alloc),
            line: unwritten(alloc),
            window_settings: WindowSettings {
                partition,
                workers,
                alloc,
            },
        })
    }

    /// How many events were run to the state that is shown.
    pub fn position(&self) -> u64
        ensures count { result ≡ self.now.shown.position }
        ensures on_run { Passes self.now.start self.now.shown }
    {
        self.net.position()
    }

    /// So many events on, or at the run's end where that comes first. The answer of this and of
    /// each other move is the new position; on a fault nothing changes.
    pub fn step(&mut self, count: u64) -> Result<u64, MoveFault>
        ensures moved { IfOk result (HasMoved self.old self.new) }
        ensures goes { IfOk result (StepGoesTo self.old.start self.old.shown.position count) }
        ensures full { IfErr result (λ fault. fault ≡ MoveFault.CountFull → IsTooLong self.old.start) }
        ensures no_worker { IfErr result (λ fault. fault ≢ MoveFault.NoWorker) }
        ensures err { OnErr result (self.new ≡ self.old) }
    {
        let found = net_after(&self.net, count, &mut self.checkpoints, &mut self.line);
        self.show(found)
    }

    /// So many events back, or at position 0 where there are fewer.
    pub fn back(&mut self, count: u64) -> Result<u64, MoveFault>
        ensures moved { IfOk result (HasMoved self.old self.new) }
        ensures goes { IfOk result (λ p. p ≡ self.old.shown.position - count) }
        ensures full { IfErr result (λ fault. fault ≡ MoveFault.CountFull → IsTooLong self.old.start) }
        ensures no_worker { IfErr result (λ fault. fault ≢ MoveFault.NoWorker) }
        ensures err { OnErr result (self.new ≡ self.old) }
    {
        let target = self.net.position().saturating_sub(count);
        let found = net_at(&self.net, target, &mut self.checkpoints, &mut self.line);
        self.show(found)
    }

    /// Back at the last position before the present one whose line a breakpoint matches, or at
    /// position 0. Each event on the way is run again at most twice.
    pub fn reverse(&mut self) -> Result<u64, MoveFault>
        ensures moved { IfOk result (HasMoved self.old self.new) }
        ensures goes { IfOk result (ReverseGoesTo self.old.start self.old.breaks self.old.shown.position) }
        ensures full { IfErr result (λ fault. fault ≡ MoveFault.CountFull → IsTooLong self.old.start) }
        ensures no_worker { IfErr result (λ fault. fault ≢ MoveFault.NoWorker) }
        ensures err { OnErr result (self.new ≡ self.old) }
    {
        let found = net_before(
            &self.net,
            &self.breaks,
            &mut self.checkpoints,
            &mut self.line,
        );
        self.show(found)
    }

    /// At the next position whose line a breakpoint matches, or at the run's end. By one worker, or where one of them
    /// asks for what lines do not show, the calling thread runs one event after another, and no windows are made.
    pub fn run<H: Hands>(&mut self, hands: &H, gate: &Gate) -> Result<u64, MoveFault>
        requires ready { H.ready hands.now }
        ensures moved { IfOk result (HasMoved self.old self.new) }
        ensures goes { IfOk result (RunGoesTo self.old.start self.old.breaks self.old.shown.position) }
        ensures full { IfErr result (λ fault. fault ≡ MoveFault.CountFull → IsTooLong self.old.start) }
        ensures several { IfErr result (λ fault. fault ≡ MoveFault.NoWorker → 1 < self.old.workers) }
        ensures err { OnErr result (self.new ≡ self.old) }
    {
        if self.window_settings.is_alone() {
            return self.run_singly();
        }
        if self.breaks.asks_unshown() {
            return self.run_singly();
        }
        let aim = &Aim::Hit(&self.breaks);
        let found = self.window_settings.find(
            hands,
            gate,
            &self.net,
            aim,
            &mut self.checkpoints,
            &mut self.line,
        );
        self.show(found)
    }

    // What `run` does by one worker, or where more is asked for than lines show: one event after another, without windows.
    fn run_singly(&mut self) -> Result<u64, MoveFault>
        ensures moved { IfOk result (HasMoved self.old self.new) }
        ensures goes { IfOk result (RunGoesTo self.old.start self.old.breaks self.old.shown.position) }
        ensures full { IfErr result (λ fault. fault ≡ MoveFault.CountFull → IsTooLong self.old.start) }
        ensures no_worker { IfErr result (λ fault. fault ≢ MoveFault.NoWorker) }
        ensures err { OnErr result (self.new ≡ self.old) }
    {
        let found = net_at_stop(
            &self.net,
            &self.breaks,
            &mut self.checkpoints,
            &mut self.line,
        );
        self.show(found)
    }

    /// At the first position, from the present one on, where all events before a time are run.
    pub fn until<H: Hands>(&mut self, hands: &H, gate: &Gate, time: Time) -> Result<u64, MoveFault>
        requires ready { H.ready hands.now }
        ensures moved { IfOk result (HasMoved self.old self.new) }
        ensures goes { IfOk result (UntilGoesTo self.old.start time self.old.shown.position) }
        ensures full { IfErr result (λ fault. fault ≡ MoveFault.CountFull → IsTooLong self.old.start) }
        ensures several { IfErr result (λ fault. fault ≡ MoveFault.NoWorker → 1 < self.old.workers) }
        ensures err { OnErr result (self.new ≡ self.old) }
    {
        let aim = &Aim::Moment(time);
        let found = self.window_settings.find(
            hands,
            gate,
            &self.net,
            aim,
            &mut self.checkpoints,
            &mut self.line,
        );
        self.show(found)
    }

    /// At the first position where all events before a time are run, forwards or backwards.
    pub fn goto_moment<H: Hands>(
        &mut self,
        hands: &H,
        gate: &Gate,
        time: Time,
    ) -> Result<u64, MoveFault>
        requires ready { H.ready hands.now }
        ensures moved { IfOk result (HasMoved self.old self.new) }
        ensures goes { IfOk result (UntilGoesTo self.old.start time 0) }
        ensures full { IfErr result (λ fault. fault ≡ MoveFault.CountFull → IsTooLong self.old.start) }
        ensures several { IfErr result (λ fault. fault ≡ MoveFault.NoWorker → 1 < self.old.workers) }
        ensures err { OnErr result (self.new ≡ self.old) }
    {
        let found = self.window_settings.find_moment(
            hands,
            gate,
            &self.net,
            time,
            &mut self.checkpoints,
            &mut self.line,
        );
        self.show(found)
    }

    /// Goes back to the state that the last move left, once, and takes no memory. The answer is
    /// whether there was one.
    pub fn undo_move(&mut self) -> bool
        ensures none { self.old.left ≡ None → (result ≡ false) × (self.new ≡ self.old) }
        ensures undone { (was : Reached) → self.old.left ≡ Some was → (result ≡ true) × (self.new ≡ record self.old { shown = was; left = None }) }
    {
        match self.left.take() {
            Some(net) => {
                self.net = net;
                true
            }
            None => false,
        }
    }

    /// Appends the dump of the state that is shown, or nothing.
    pub fn state_text(&self, out: &mut Vec<u8>) -> Result<(), AllocError>
        ensures ok { OnOk result (out.new.items ≡ out.old.items ++ dump_bytes self.now.shown) }
        ensures err { OnErr result (out.new.items ≡ out.old.items) }
    {
        dump_text(&self.net, out)
    }

    /// Appends the lines of that dump that tell of a part of the state, or nothing.
    pub fn part_text(&self, part: DumpPart, out: &mut Vec<u8>) -> Result<(), AllocError>
        ensures ok { OnOk result (out.new.items ≡ out.old.items ++ part_bytes part self.now.shown) }
        ensures err { OnErr result (out.new.items ≡ out.old.items) }
    {
        part_text(&self.net, part, out)
    }

    /// Appends what a flow waits for in the state that is shown, with these names of its parts, or nothing.
    pub fn waits_text(
        &self,
        names: &ScenarioNames,
        flow: u16,
        out: &mut Vec<u8>,
    ) -> Result<(), AllocError>
        ensures ok { OnOk result (out.new.items ≡ out.old.items ++ waits_bytes names.now flow self.now.shown.state) }
        ensures err { OnErr result (out.new.items ≡ out.old.items) }
    {
        waits_text(&self.net, names, flow, out)
    }

    /// Whether no event is left behind the state that is shown.
    pub fn is_at_end(&self) -> bool
        ensures { result ≡ is_none (due self.now.shown.state) }
    {
        is_ended(&self.net)
    }

    /// Appends the lines of a stretch of the run, of which events are run again. On a fault some may
    /// have been appended.
    pub fn append_lines(&mut self, stretch: &Stretch, out: &mut Vec<u8>) -> Result<(), MoveFault>
        requires { HasPosition self.old.start (stretch.now.from + stretch.now.count) }
        ensures ok { OnOk result (out.new.items ≡ out.old.items ++ concat (stretch_texts self.old.start stretch.now)) }
        ensures err { OnErr result (take (length out.old.items) out.new.items ≡ out.old.items) }
        ensures same { self.new ≡ self.old }
    {
        let near = nearer(&self.net, &self.left, stretch.from);
        append_stretch(near, stretch, &mut self.checkpoints, &mut self.line, out)
    }

    /// What a flow waits for in the state that is shown, of what it has sent: the segment whose first byte is missing at
    /// the receiver; or, where all has come there, acknowledgements of more than the sender knows of.
    pub fn missing(&self, flow: u16) -> Option<DropsOf>
        ensures { result ≡ missing_in flow self.now.shown.state }
    {
        missing_in(flow, &self.net)
    }

    /// Appends the drops of a flow's packets that the run up to the state that is shown has, in the order of its lines. Its
    /// events are run again from the first one on.
    pub fn append_drops(&mut self, of: DropsOf, out: &mut Vec<PastDrop>) -> Result<(), MoveFault>
        ensures ok { OnOk result (out.new.items ≡ out.old.items ++ past_drops self.old.start of self.old.shown.position) }
        ensures err { OnErr result (out.new.items ≡ out.old.items) }
        ensures same { self.new ≡ self.old }
    {
        let position = self.net.position();
        append_drops(position, of, &mut self.checkpoints, &mut self.line, out)
    }

    /// What is read of the state that is shown, at a moment in nanoseconds.
    pub fn read(&self, now: Time, what: ValueOf) -> Reading
        ensures { result ≡ read_in now what self.now.shown.state }
    {
        read_in(now, what, &self.net)
    }

    /// The same of the state that the last move left; nothing where it can't be gone back to.
    pub fn read_left(&self, now: Time, what: ValueOf) -> Reading
        ensures { result ≡ read_left_in now what self.now.left }
    {
        read_left_in(now, what, &self.left)
    }

    /// Appends the stalls of the whole run, in the order of its events, which are run again. A flow becomes stalled by
    /// an event where it is stalled after it and was not before it.
    pub fn append_stalls(&mut self, out: &mut Vec<StallAt>) -> Result<(), MoveFault>
        ensures ok { OnOk result (IsAllStalls self.old.start out.old.items out.new.items) }
        ensures err { OnErr result (out.new.items ≡ out.old.items) }
        ensures same { self.new ≡ self.old }
    {
        append_stalls(&mut self.checkpoints, &mut self.line, out)
    }

    /// What the last event was, which is run again.
    pub fn last_event(&mut self) -> Result<LastEvent, MoveFault>
        requires { 0 < self.old.shown.position }
        ensures ok { IfOk result (IsLastEvent self.old.start self.old.breaks self.old.shown.position) }
        ensures same { self.new ≡ self.old }
    {
        let position = self.net.position();
        let near = nearer(&self.net, &self.left, position - 1);
        event_at(
            near,
            position,
            &mut self.checkpoints,
            &mut self.line,
            &self.breaks,
        )
    }

    /// Whether a breakpoint is set.
    pub fn has_break(&self, b: Break) -> bool
        ensures value { MatchBool result (Contains self.now.breaks b) (¬ Contains self.now.breaks b) }
        ensures few { length self.now.breaks ≤ 64 }
    {
        self.breaks.contains(b)
    }

    /// Sets a breakpoint, and answers how many are set then. One that is set already stays.
    pub fn add_break(&mut self, b: Break) -> Result<usize, BreakFault>
        ensures same { self.new ≡ record self.old { breaks = self.new.breaks } }
        ensures count { IfOk result (λ n. n ≡ length self.new.breaks) }
        ensures again { Contains self.old.breaks b → (self.new ≡ self.old) × (result ≡ Ok (length self.old.breaks)) }
        ensures fresh { ¬ Contains self.old.breaks b → IfOk result (λ _. self.new.breaks ≡ self.old.breaks ++ b ∷ []) }
        ensures full { ¬ Contains self.old.breaks b → length self.old.breaks ≡ 64 → result ≡ Err BreakFault.TooMany }
        ensures room { length self.old.breaks < 64 → IfErr result (λ fault. fault ≡ BreakFault.NoMemory) }
        ensures err { OnErr result (self.new ≡ self.old) }
    {
        self.breaks.add(b)
    }

    /// The breakpoints that are set, in the order in which they were.
    pub fn breaks(&self) -> &[Break]
        ensures value { result.now ≡ self.now.breaks }
        ensures few { length self.now.breaks ≤ 64 }
    {
        self.breaks.as_slice()
    }

    /// Takes the breakpoint at an index away.
    pub fn delete_break(&mut self, index: usize) -> Break
        requires { index < length self.old.breaks }
        ensures same { self.new ≡ record self.old { breaks = self.new.breaks } }
        ensures taken { IsTakenOut self.old.breaks self.new.breaks index result }
    {
        self.breaks.delete(index)
    }

    /// Takes all breakpoints away.
    pub fn clear_breaks(&mut self)
        ensures { self.new ≡ record self.old { breaks = [] } }
    {
        self.breaks.clear();
    }

    // Shows the net that a move came to in the place of the present one, which can be gone back
    // to. The answer is its position. Where the move failed, nothing changes.
    fn show(&mut self, found: Result<Net, MoveFault>) -> Result<u64, MoveFault>
        requires { IfOk found (Passes self.old.start) }
        ensures moved { IfOk result (HasMoved self.old self.new) }
        ensures answer { MatchResult found (λ net. result ≡ Ok net.position) (λ fault. result ≡ Err fault) }
        ensures err { OnErr result (self.new ≡ self.old) }
    {
        match found {
            Ok(net) => {
                let position = net.position();
                self.left = Some(mem::replace(&mut self.net, net));
                Ok(position)
            }
            Err(fault) => Err(fault),
        }
    }
}
