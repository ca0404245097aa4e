//! Who watches the events of a net.
use net_machine::{Due, Net};
use node_core::Line;
use std::snapshot::Snapshot;

/// Who is asked before each event of a net and shown each that was run, and may end the run at either.
pub trait Watch {
    ghost use Rattle.std.specs.Prelude.{◌≡◌, Bool, true, Some, MatchBool};
    ghost use Rattle.std.specs.Option.{option_map};
    ghost use Rattle.table_run.specs.State.{due};
    ghost use Rattle.net_machine.specs.Due.{due_of};
    ghost use Rattle.node_core.specs.TraceLine.{shown};
    ghost use Rattle.net_machine.specs.Run.{Reached, Stepped};
    ghost use Rattle.net_watch.specs.RunsOn.{RunsOn};

    // It can watch a net that stands here.
    ghost fits: { Self → Reached → Type 0 } = { λ _ _. Unit {0} };

    // What it has become, from where it began and the net stood then, by being shown each event up to where the net
    // stands, where this was its last answer.
    ghost has: { Self → Reached → Self → Reached → Bool → Type 0 };

    // The run is to go on where the net stands.
    ghost goes: { Self → Reached → Type 0 } = { λ _ _. Unit {0} };

    // The run is to end where the net stands.
    ghost halts: { Self → Reached → Type 0 } = { λ _ _. ⊥ };

    /// Asked before each event, and told which is due: the answer is whether to run it.
    fn ahead(&self, at: &Net, next: Option<Due>) -> bool
        requires fits { fits self.now at.now }
        requires next { next ≡ option_map due_of (due at.now.state) }
        ensures { MatchBool result (goes self.now at.now) (halts self.now at.now) };

    /// Shown each event: the answer is whether to go on.
    fn see(&mut self, _before: &Snapshot<Net>, after: &Net, line: &Line) -> bool
        requires fits { fits self.old _before.now.value }
        requires goes { goes self.old _before.now.value }
        requires stepped { Stepped _before.now.value (Some (shown line.now)) after.now }
        ensures has { (began : Self) (from : Reached) → RunsOn from _before.now.value → has began from self.old _before.now.value true → has began from self.new after.now result }
        ensures fits { fits self.new after.now };

    // Shown nothing, it is what it was.
    ghost begins: { (w : Self) (at : Reached) → has w at w at true };
}
