//! Whether a run has more rows by time than there may be.
ghost use Rattle.std.specs.Prelude.{◌≡◌, ◌<◌, ◌≤◌, IfOk, IfErr, MatchBool, MatchOption};
ghost use Rattle.scenario_image.specs.Scenario.{IsScenario};
ghost use Rattle.scenario_image.specs.declared.parts.ScenarioParts.{ScenarioParts};
ghost use Rattle.sim_time.specs.declared.limits.TheConstants.{MOST_EVENTS};
ghost use Rattle.figures.specs.Figures.{AreOfSomeRun};
ghost use Rattle.figures_text.specs.Steps.{IsGoingOn};
ghost use Rattle.sessions.specs.FiguresOutput.{IsOpenedRun};
ghost use Rattle.sessions.specs.RowLimit.{rows_in_step, row_limit, GoesPast, HasTooManyRows, IsPastFault, IsRowsFault};

use crate::counter::Counter;
use crate::fault::SessionFault;
use crate::figures_fault::FiguresFault;
use crate::means::Means;
use crate::series::RowSteps;
use command_line::notes::Notes;
use figures_text::{FLOW_ROWS, LINK_ROWS};
use scenario_image::{Scenario, ScenarioParts};
use sim_time::{MOST_EVENTS, Time};

/// The most rows of a series.
const MOST_ROWS: u64 = 10_000_000;

/// The rows of a step.
fn rows_in_step(parts: &ScenarioParts) -> u64
    requires { IsScenario parts.now }
    ensures rows { result ≡ rows_in_step parts.now }
    ensures some { 0 < result }
{
    FLOW_ROWS * parts.flows.len() as u64 + LINK_ROWS * parts.links.len() as u64
}

/// When the first step begins that would have a row too many, if that is by the scenario's end.
fn row_limit(scenario: &Scenario, row_steps: RowSteps) -> Option<Time>
    ensures { MatchOption result (scenario.now.end < row_limit scenario.now row_steps.from row_steps.every) (λ limit. (limit ≡ row_limit scenario.now row_steps.from row_steps.every) × (limit ≤ scenario.now.end)) }
{
    let parts = scenario.parts();
    let most = MOST_ROWS / rows_in_step(parts);
    let limit = u128::from(row_steps.from) + u128::from(most) * u128::from(row_steps.every);
    if limit <= u128::from(parts.end) {
        Some(limit as u64)
    } else {
        None
    }
}

/// Whether a run that stands at a moment goes on past it, after fewer than 10^15 events.
fn goes_past<N: Notes>(counter: &Counter<'_, N>, moment: Time) -> bool
    ensures { (p : ScenarioParts) → counter.now.net.state.end ≡ p.end → MatchBool result ((counter.now.net.position < MOST_EVENTS) × IsGoingOn p moment counter.now.net.state) (¬ ((counter.now.net.position < MOST_EVENTS) × IsGoingOn p moment counter.now.net.state)) }
{
    counter.net.position() < MOST_EVENTS && counter.goes_on(moment)
}

/// Runs it up to a moment, and refuses it where it goes on past that.
fn stop_at<N: Notes>(counter: &mut Counter<'_, N>, limit: Time) -> Result<(), SessionFault>
    requires { AreOfSomeRun counter.old.figures counter.old.net }
    ensures done { (p : ScenarioParts) → IsOpenedRun p counter.old.figures counter.old.net → IfOk result (λ _. ¬ GoesPast p limit) }
    ensures faults { (p : ScenarioParts) → IsOpenedRun p counter.old.figures counter.old.net → IfErr result (IsPastFault p limit) }
{
    counter.run_before(limit)?;
    if goes_past(counter, limit) {
        return Err(SessionFault::Figures(FiguresFault::TooManyRows));
    }
    Ok(())
}

/// Refuses steps in which a scenario's run has more rows than there may be. It runs the scenario only if those would be too
/// many that go on to its end.
#[tactic(auto, using(crate::proofs::RowLimits::no_rows_past))]
pub(crate) fn check_rows<N: Notes>(
    means: &Means,
    row_steps: RowSteps,
    scenario: &Scenario,
    notes: &mut N,
) -> Result<(), SessionFault>
    ensures few { IfOk result (λ _. ¬ HasTooManyRows scenario.now row_steps.from row_steps.every) }
    ensures faults { IfErr result (IsRowsFault scenario.now row_steps.from row_steps.every) }
{
    let Some(limit) = row_limit(scenario, row_steps) else {
        return Ok(());
    };
    let mut counter = Counter::new(means, scenario, notes)?;
    let stopped = stop_at(&mut counter, limit);
    counter.tell_end(stopped.is_ok());
    stopped
}
