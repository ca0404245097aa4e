//! States on the way of a run, saved so that going back need not begin at the initial state.
ghost use Rattle.std.specs.Prelude.{◌≡◌, ◌≤◌, ◌++◌, [], ◌∷◌, if◌then◌else◌, Bool, All, Contains, IsTrue, IfOk};
ghost use Rattle.sim_time.specs.declared.limits.TheConstants.{MOST_EVENTS};
ghost use Rattle.debugger.specs.Moves.{Passes, IsDueBefore, SomeUpto};

use net_machine::{Due, Net};
use net_watch::Watch;
use node_core::{Line, Node};
use sim_time::Time;
use std::alloc::{AllocError, Global};
use std::marker::Model;
use std::snapshot::Snapshot;

/// The most states that are saved beside the initial one.
const MOST_LATER: usize = 31;

/// The most bytes that they may hold: 64 MB.
const MOST_BYTES: u64 = 67_108_864;

/// About how many bytes a copy of a node holds, and of each of its outgoing links, packets aside.
const NODE_BYTES: u64 = 1_024;

/// About how many bytes a packet holds that waits or is under way, and a timer that is set.
const PACKET_BYTES: u64 = 80;

/// At first a state is saved each time that so many events were passed.
const FIRST_GAP: u64 = 1024;

/// States of one run: the initial one, and up to 31 later ones, fewer where one holds more than a 31st of 64 MB.
/// Contracts see the initial one: which others are saved is nothing that a caller may rest on.
#[derive(Drop)]
pub struct Checkpoints {
    /// The initial state.
    initial: Net,
    /// States after it.
    later: Vec<Net>,
    /// How many events are passed from one saving to the next.
    gap: u64,
    /// The position at which the next state is saved.
    next: u64,
    /// How many states as large as the largest so far may be saved.
    most: usize,
}

impl Model for Checkpoints {
    ghost use Rattle.table_run.specs.State.{State};
    ghost use Rattle.net_machine.specs.Codes.{state_code};

    ghost Value = { State };

    ghost coded = { state_code };

    ghost use Rattle.debugger.specs.DebuggerOf.{AreCheckpointsInside};

    ghost view = { λ s. s.initial.state };

    ghost invariant = { AreCheckpointsInside };
}

// Gives up the first of these states, the third, and so on.
fn thin(nets: &mut Vec<Net>)
    ensures { All (Contains nets.old.items) nets.new.items }
{
    let mut at = 0;
    while at < nets.len() {
        drop(nets.remove(at));
        at += 1;
    }
}

// About how many bytes a copy of a node holds.
fn node_weight(node: &Node) -> Result<u64, AllocError> {
    let mut bytes = NODE_BYTES;
    for link in node.ports() {
        let waiting = link.port().queue().len() as u64;
        bytes = bytes
            .saturating_add(NODE_BYTES)
            .saturating_add(waiting.saturating_mul(PACKET_BYTES));
    }
    let pending = node.pending()?;
    Ok(bytes.saturating_add((pending.len() as u64).saturating_mul(PACKET_BYTES)))
}

// About how many bytes a copy of a net holds.
fn weight(net: &Net) -> Result<u64, AllocError> {
    let mut bytes: u64 = 1;
    for node in net.nodes() {
        bytes = bytes.saturating_add(node_weight(node)?);
    }
    Ok(bytes)
}

// How many copies as large as a net may be saved, and no more than so many.
fn most_copies(net: &Net, most: usize) -> usize {
    match weight(net) {
        Ok(bytes) => most.min((MOST_BYTES / bytes.max(1)) as usize),
        Err(_) => most,
    }
}

// Puts a copy of a net behind these, where there may be one more. Where memory is refused, none is.
fn put_copy(nets: &mut Vec<Net>, most: usize, net: &Net)
    ensures { (put : Bool) × (nets.new.items ≡ (if put then nets.old.items ++ net.now ∷ [] else nets.old.items)) }
{
    if nets.len() >= most {
        return;
    }
    if let Ok(copy) = net.copy() {
        let _ = nets.push(copy);
    }
}

// Whether an event before a time is due.
fn is_due_before(net: &Net, time: Time) -> bool
    ensures { IsTrue result → IsDueBefore time net.now.state }
{
    match net.next_due() {
        Some(due) => due.time < time,
        None => false,
    }
}

// Whether a net is further than the best so far, and an event before a time is due at it.
fn is_better(best: &Net, net: &Net, time: Time) -> bool
    ensures { IsTrue result → IsDueBefore time net.now.state }
{
    best.position() < net.position() && is_due_before(net, time)
}

impl Checkpoints {
    /// Only the initial state.
    pub fn new(alloc: Global, initial: Net) -> Checkpoints
        requires { initial.position ≡ 0 }
        ensures { result ≡ initial.state }
    {
        Checkpoints {
            initial,
            later: Vec::new(alloc),
            gap: FIRST_GAP,
            next: FIRST_GAP,
            most: MOST_LATER,
        }
    }

    /// Saves the state that a net stands at, where it is time to. Where memory is refused, it is
    /// left out.
    pub fn keep(&mut self, net: &Net)
        requires { Passes self.old net.now }
        ensures same { self.new ≡ self.old }
        ensures limit { net.now.position ≤ MOST_EVENTS }
    {
        let position = net.position();
        if position < self.next {
            return;
        }
        self.most = most_copies(net, self.most);
        if self.later.len() >= self.most {
            thin(&mut self.later);
            self.gap = self.gap.saturating_mul(2);
        }
        self.next = position.saturating_add(self.gap);
        put_copy(&mut self.later, self.most, net);
    }

    /// A copy of the initial state.
    pub fn first(&self) -> Result<Net, AllocError>
        ensures on_run { IfOk result (λ net. Passes self.now net) }
        ensures first { IfOk result (λ net. net.position ≡ 0) }
    {
        self.initial.copy()
    }

    /// A copy of the checkpoint, or of the one that is present, that has the greatest position up
    /// to a target.
    pub fn nearest(&self, target: u64, present: &Net) -> Result<Net, AllocError>
        requires { Passes self.now present.now }
        ensures on_run { IfOk result (λ net. Passes self.now net) }
        ensures below { IfOk result (λ net. net.position ≤ target) }
    {
        let mut best = &self.initial;
        for net in &self.later {
            if net.position() <= target && best.position() < net.position() {
                best = net;
            }
        }
        if present.position() <= target && best.position() < present.position() {
            best = present;
        }
        best.copy()
    }

    /// A copy of the checkpoint, or of the one that is present, that has the greatest position of those at which an
    /// event before a time is due; of the initial one where there is no such.
    pub fn nearest_before(&self, time: Time, present: &Net) -> Result<Net, AllocError>
        requires { Passes self.now present.now }
        ensures on_run { IfOk result (λ net. Passes self.now net) }
        ensures some { IfOk result (λ net. SomeUpto self.now time net.position) }
    {
        let _count = self.initial.position();
        let mut best = &self.initial;
        for net in &self.later {
            if is_better(best, net, time) {
                best = net;
            }
        }
        if is_better(best, present, time) {
            best = present;
        }
        best.copy()
    }
}

impl Watch for Checkpoints {
    ghost use Rattle.std.specs.Prelude.{◌≡◌, true, refl};
    ghost use Rattle.debugger.specs.Moves.{Passes};

    ghost fits = { λ w at. Passes w at };

    ghost has = { λ began _ w _ goes_on. (goes_on ≡ true) × (w ≡ began) };

    ghost begins = { λ _ _. (refl, refl) };

    #[inline(always)]
    fn ahead(&self, _at: &Net, _next: Option<Due>) -> bool {
        true
    }

    #[inline(always)]
    fn see(&mut self, _before: &Snapshot<Net>, after: &Net, _line: &Line) -> bool {
        self.keep(after);
        true
    }
}
