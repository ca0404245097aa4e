//! A run whose figures are counted.

use crate::fault::SessionFault;
use crate::means::Means;
use crate::progress::{Progress, Telling};
use command_line::notes::Notes;
use figures::Figures;
use figures_text::sends_any;
use net_machine::Net;
use net_watch::{Before, Both, run_by_two};
use node_core::Line;
use scenario_image::Scenario;
use sim_time::Time;
use std::alloc::{AllocError, Global};

/// A run whose figures are counted.
#[derive(Drop)]
pub(crate) struct Counter<'a, N> {
    /// Where memory is taken.
    alloc: Global,
    /// The net, as it stands.
    pub net: Net,
    /// What is counted so far.
    pub figures: Figures,
    /// The line that is lent to each event.
    line: Line,
    /// Who is told how far it is.
    telling: Telling<'a, N>,
}

impl<'a, N: Notes> Counter<'a, N> {
    ghost use Rattle.std.specs.Prelude.{◌≡◌, ◌≤◌, min, None, MatchBool, IfOk, IfErr};
    ghost use Rattle.scenario_image.specs.declared.parts.ScenarioParts.{ScenarioParts};
    ghost use Rattle.table_run.specs.State.{due};
    ghost use Rattle.net_watch.specs.RunsBefore.{RunsBefore, IsHeldAt};
    ghost use Rattle.figures.specs.Moments.{Base};
    ghost use Rattle.figures.specs.Figures.{AreOfRun, AreOfSomeRun, base_at};
    ghost use Rattle.figures_text.specs.Steps.{IsGoingOn};
    ghost use Rattle.sessions.specs.FiguresOutput.{AreCounted, HasCome, IsOpenedRun, IsStepBegun, IsCountFault};

    /// The initial state of a scenario's run, of which nothing is counted. It tells how far it is where that is wanted.
    pub(crate) fn new(
        means: &Means,
        scenario: &Scenario,
        notes: &'a mut N,
    ) -> Result<Counter<'a, N>, AllocError>
        ensures opened { IfOk result (λ counter. IsOpenedRun scenario.now counter.figures counter.net) }
        ensures some { IfOk result (λ counter. AreOfSomeRun counter.figures counter.net) }
    {
        let _parts = scenario.parts();
        let alloc = means.alloc;
        let net = Net::new(alloc, scenario)?;
        let figures = Figures::new(alloc, &net)?;
        let progress = Progress::new(means.wishes.progress, net.end());
        Ok(Counter {
            alloc,
            net,
            figures,
            line: Line::new(alloc),
            telling: Telling { progress, notes },
        })
    }

    /// Where memory is taken.
    pub(crate) fn alloc(&self) -> Global {
        self.alloc
    }

    /// Runs it up to its first event at or past a moment.
    pub(crate) fn run_before(&mut self, moment: Time) -> Result<(), SessionFault>
        requires { AreOfSomeRun self.old.figures self.old.net }
        ensures figures { (p : ScenarioParts) (b : Base) → AreOfRun p b self.old.figures self.old.net → AreOfRun p b self.new.figures self.new.net }
        ensures some { AreOfSomeRun self.new.figures self.new.net }
        ensures early { RunsBefore moment self.old.net self.new.net }
        ensures held { IfOk result (λ _. IsHeldAt moment self.new.net.state) }
        ensures faults { IfErr result (IsCountFault self.new.net) }
    {
        let mut counted = Both {
            first: &mut self.figures,
            second: Before { moment },
        };
        run_by_two(
            &mut self.net,
            &mut counted,
            &mut self.telling,
            &mut self.line,
        )?;
        Ok(())
    }

    /// Runs it to its end.
    pub(crate) fn run_to_end(&mut self) -> Result<(), SessionFault>
        requires { AreOfSomeRun self.old.figures self.old.net }
        ensures figures { (p : ScenarioParts) (b : Base) → AreOfRun p b self.old.figures self.old.net → AreOfRun p b self.new.figures self.new.net }
        ensures ended { IfOk result (λ _. due self.new.net.state ≡ None) }
        ensures faults { IfErr result (IsCountFault self.new.net) }
    {
        run_by_two(
            &mut self.net,
            &mut self.figures,
            &mut self.telling,
            &mut self.line,
        )?;
        Ok(())
    }

    /// Begins to count anew where it stands, from a moment on.
    pub(crate) fn restart(&mut self, moment: Time) -> Result<(), AllocError>
        requires some { AreOfSomeRun self.old.figures self.old.net }
        requires held { IsHeldAt moment self.old.net.state }
        ensures net { self.new.net ≡ self.old.net }
        ensures some { IfOk result (λ _. AreOfSomeRun self.new.figures self.new.net) }
        ensures begun { IfOk result (λ _. (p : ScenarioParts) (b : Base) → AreOfRun p b self.old.figures self.old.net → AreOfRun p (base_at p (min moment p.end) self.old.net) self.new.figures self.new.net) }
    {
        let since = moment.min(self.net.end());
        self.figures.restart(self.alloc, &self.net, since)?;
        Ok(())
    }

    /// Runs it up to its first event at or past a moment, and counts from there on.
    pub(crate) fn begin_at(&mut self, moment: Time) -> Result<(), SessionFault>
        requires { AreOfSomeRun self.old.figures self.old.net }
        ensures begun { IfOk result (λ _. (p : ScenarioParts) → IsOpenedRun p self.old.figures self.old.net → IsStepBegun p moment self.new.figures self.new.net) }
        ensures some { IfOk result (λ _. AreOfSomeRun self.new.figures self.new.net) }
        ensures come { (p : ScenarioParts) → IsOpenedRun p self.old.figures self.old.net → HasCome p self.new.net }
        ensures faults { IfErr result (IsCountFault self.new.net) }
    {
        self.run_before(moment)?;
        self.restart(moment)?;
        Ok(())
    }

    /// Runs it to its end, and counts from a moment on.
    pub(crate) fn count_from(&mut self, moment: Time) -> Result<(), SessionFault>
        requires { AreOfSomeRun self.old.figures self.old.net }
        ensures counted { IfOk result (λ _. (p : ScenarioParts) → IsOpenedRun p self.old.figures self.old.net → AreCounted p moment self.new.figures self.new.net) }
        ensures come { (p : ScenarioParts) → IsOpenedRun p self.old.figures self.old.net → HasCome p self.new.net }
        ensures ended { IfOk result (λ _. due self.new.net.state ≡ None) }
        ensures faults { IfErr result (IsCountFault self.new.net) }
    {
        self.begin_at(moment)?;
        self.run_to_end()
    }

    /// The run has ended, done or not.
    pub(crate) fn tell_end(&mut self, done: bool)
        ensures net { self.new.net ≡ self.old.net }
        ensures figures { self.new.figures ≡ self.old.figures }
    {
        let events = self.net.position();
        let telling = &mut self.telling;
        telling.progress.ends(done, events, telling.notes);
    }

    /// Whether there is something to count from a moment on, before which all events were run: an event is due, or a
    /// link sends past the last one, before the end.
    pub(crate) fn goes_on(&self, moment: Time) -> bool
        ensures { (p : ScenarioParts) → self.now.net.state.end ≡ p.end → MatchBool result (IsGoingOn p moment self.now.net.state) (¬ IsGoingOn p moment self.now.net.state) }
    {
        self.net.next_due().is_some() || (moment < self.net.end() && sends_any(&self.net))
    }
}
