//! One event at a time: the least pending key below the end.
ghost use Rattle.std.specs.Prelude.{◌≡◌, ◌≢◌, ◌+◌, if◌then◌else◌, ◌<◌, false, IfOk, OnOk, OnErr, IfErr, None, Some, Ok, Err};
ghost use Rattle.std.specs.Option.{option_map};
ghost use Rattle.sim_time.specs.declared.limits.TheConstants.{MOST_EVENTS};
ghost use Rattle.tournament.specs.Keyed.{next_key};
ghost use Rattle.node_core.specs.TraceLine.{shown};
ghost use Rattle.table_run.specs.State.{initial, due};
ghost use Rattle.net_machine.specs.Nodes.{parts_of, net_pending, IsPlaced};
ghost use Rattle.net_machine.specs.Due.{due_of};
ghost use Rattle.net_machine.specs.Run.{IsRun, Stepped};

pub mod parts;

use self::parts::{NetParts, Spare};
use crate::due::Due;
use crate::initial::{ends_of, nodes_of};
use crate::nodes::Nodes;
use crate::places::LinkEnds;
use crate::region::run_event;
use node_core::{After, Event, Line, Node, Outbox};
use port::Acts;
use scenario_image::Scenario;
use scenario_image::limits::MOST_ROUTER_LINKS;
use sim_time::{Key, MOST_EVENTS, Time};
use std::alloc::{AllocError, Global};
use std::marker::Model;

/// Why no step was made.
#[derive(Clone, Copy, PartialEq, Eq)]
pub enum StepFault {
    /// There was no memory.
    NoMemory,
    /// As many events were run as there may be, and one more is due.
    CountFull,
}

/// A network on its way: it stands after some number of events of a scenario's run.
#[derive(Drop)]
pub struct Net {
    /// The nodes, with what is pending at each.
    nodes: Nodes,
    /// Where each link leaves and ends, by its number.
    ends: Vec<LinkEnds>,
    /// Events before this moment are run, in nanoseconds.
    end: Time,
    /// How many events were run.
    position: u64,
    /// A chain for each outgoing link that a node can have, empty between steps.
    out: Outbox,
    /// Where memory is taken.
    alloc: Global,
}

impl Model for Net {
    ghost use Rattle.net_machine.specs.Run.{Reached};
    ghost use Rattle.net_machine.specs.Codes.{reached_code};

    ghost Value = { Reached };

    ghost coded = { reached_code };

    ghost use Rattle.net_machine.specs.NetOf.{reached_of, IsNetInside};

    ghost view = { reached_of };

    ghost invariant = { IsNetInside };
}

// The same ends in memory of their own.
fn copied(ends: &Vec<LinkEnds>) -> Result<Vec<LinkEnds>, AllocError>
    ensures { IfOk result (λ copy. copy.items ≡ ends.now.items) }
{
    ends.clone()
}

impl Net {
    /// The net of a scenario, before anything is sent.
    pub fn new(alloc: Global, scenario: &Scenario) -> Result<Net, AllocError>
        ensures state { IfOk result (λ net. net ≡ record { state = initial scenario.now; position = 0 }) }
    {
        let parts = scenario.parts();
        let nodes = nodes_of(alloc, scenario)?;
        let links = ends_of(alloc, parts.links.as_slice())?;
        let spare = Spare::new(alloc, nodes.len())?;
        Ok(Net::of_parts(NetParts {
            nodes,
            links,
            end: parts.end,
            position: 0,
            spare,
        }))
    }

    /// The nodes, each at its number.
    pub fn nodes(&self) -> &[Node]
        ensures parts { parts_of result.now ≡ self.now.state.parts }
        ensures pending { net_pending result.now ≡ self.now.state.pending }
        ensures placed { IsPlaced result.now }
    {
        self.nodes.as_slice()
    }

    /// A net in the same state, with packets in cells of its own.
    pub fn copy(&self) -> Result<Net, AllocError>
        ensures { IfOk result (λ copy. copy ≡ self.now) }
    {
        self.copy_in(&[])
    }

    /// The same, and memory is taken node by node, for those of these numbers in this order and then
    /// for the others. So what the nodes of a group have can lie apart from what others have, and
    /// processors that run groups side by side do not write to the same cache lines.
    pub fn copy_in(&self, order: &[u16]) -> Result<Net, AllocError>
        ensures { IfOk result (λ copy. copy ≡ self.now) }
    {
        Ok(Net {
            nodes: self.nodes.copy_in(order)?,
            ends: copied(&self.ends)?,
            end: self.end,
            position: self.position,
            out: Outbox::new(self.alloc, MOST_ROUTER_LINKS)?,
            alloc: self.alloc,
        })
    }

    /// Events before this moment are run, in nanoseconds.
    pub fn end(&self) -> Time
        ensures { result ≡ self.now.state.end }
    {
        self.end
    }

    /// How many events were run.
    pub fn position(&self) -> u64
        ensures count { result ≡ self.now.position }
        ensures is_run { IsRun self.now }
    {
        self.position
    }

    /// The least pending key, below the end or not.
    #[inline(always)]
    pub fn first(&self) -> Option<Key>
        ensures { result ≡ next_key self.now.state.pending }
    {
        match self.nodes.first() {
            Some((place, _)) => self.nodes.as_slice()[place].least(),
            None => None,
        }
    }

    /// Where and when an event is due: the least, where that is below the end.
    #[inline(always)]
    pub fn next_due(&self) -> Option<Due>
        ensures { result ≡ option_map due_of (due self.now.state) }
    {
        let (place, time) = self.nodes.first()?;
        if time >= self.end {
            return None;
        }
        Some(Due { place, time })
    }

    /// Runs the event that is due, and tells of it in `line`.
    #[inline(always)]
    pub fn fire_into(&mut self, next: Due, line: &mut Line) -> Result<(), AllocError>
        requires due { option_map due_of (due self.old.state) ≡ Some next }
        requires few { self.old.position < MOST_EVENTS }
        ensures ok { OnOk result (Stepped self.old (Some (shown line.new)) self.new) }
        ensures err { OnErr result (self.new ≡ self.old) }
    {
        run_event(&mut self.nodes, &mut self.out, &self.ends, next.place, line)?;
        self.position += 1;
        Ok(())
    }

    /// Runs the event that is due, as [`Net::next_due`] tells of it, where one is, and tells of it in `line`. The answer
    /// is whether there was one; `line` counts only then.
    #[inline(always)]
    pub fn run_due(&mut self, next: Option<Due>, line: &mut Line) -> Result<bool, StepFault>
        requires { next ≡ option_map due_of (due self.old.state) }
        ensures ok { IfOk result (λ fired. Stepped self.old (if fired then Some (shown line.new) else None) self.new) }
        ensures full { IfErr result (λ fault. fault ≡ StepFault.CountFull → (due self.old.state ≢ None) × (self.old.position ≡ MOST_EVENTS)) }
        ensures none { due self.old.state ≡ None → result ≡ Ok false }
        ensures count { due self.old.state ≢ None → self.old.position ≡ MOST_EVENTS → result ≡ Err StepFault.CountFull }
        ensures err { OnErr result (self.new ≡ self.old) }
    {
        let Some(next) = next else {
            return Ok(false);
        };
        if self.position == MOST_EVENTS {
            return Err(StepFault::CountFull);
        }
        match self.fire_into(next, line) {
            Ok(()) => Ok(true),
            Err(_) => Err(StepFault::NoMemory),
        }
    }

    /// Runs the event of the least key below the end, where there is one, and tells of it in
    /// `line`. The answer is whether there was one; `line` counts only then.
    #[inline(always)]
    pub fn step_into(&mut self, line: &mut Line) -> Result<bool, StepFault>
        ensures ok { IfOk result (λ fired. Stepped self.old (if fired then Some (shown line.new) else None) self.new) }
        ensures full { IfErr result (λ fault. fault ≡ StepFault.CountFull → (due self.old.state ≢ None) × (self.old.position ≡ MOST_EVENTS)) }
        ensures none { due self.old.state ≡ None → result ≡ Ok false }
        ensures count { due self.old.state ≢ None → self.old.position ≡ MOST_EVENTS → result ≡ Err StepFault.CountFull }
        ensures err { OnErr result (self.new ≡ self.old) }
    {
        let next = self.next_due();
        self.run_due(next, line)
    }

    /// Runs the event of the least key below the end, where there is one, and tells of it.
    pub fn step(&mut self) -> Result<Option<Line>, StepFault>
        ensures ok { IfOk result (λ reported. Stepped self.old (option_map shown reported) self.new) }
        ensures full { IfErr result (λ fault. fault ≡ StepFault.CountFull → (due self.old.state ≢ None) × (self.old.position ≡ MOST_EVENTS)) }
        ensures none { due self.old.state ≡ None → result ≡ Ok None }
        ensures count { due self.old.state ≢ None → self.old.position ≡ MOST_EVENTS → result ≡ Err StepFault.CountFull }
        ensures err { OnErr result (self.new ≡ self.old) }
    {
        let mut line = Line {
            key: Key {
                time: 0,
                node: 0,
                source: 0,
                number: 0,
            },
            event: Event::Start(0),
            after: After::AtRouter,
            acts: Acts::new(self.alloc),
        };
        if self.step_into(&mut line)? {
            Ok(Some(line))
        } else {
            Ok(None)
        }
    }
}
