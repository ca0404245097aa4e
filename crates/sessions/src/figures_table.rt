//! The figures of a scenario's run, written as a table.
ghost use Rattle.std.specs.Prelude.{◌≡◌, ◌≤◌, None, IfOk, IfErr};
ghost use Rattle.sim_time.specs.declared.limits.TheConstants.{MOST_EVENTS};
ghost use Rattle.scenario_image.specs.declared.parts.ScenarioParts.{ScenarioParts};
ghost use Rattle.table_run.specs.State.{due};
ghost use Rattle.figures.specs.Figures.{AreOfSomeRun};
ghost use Rattle.figures_text.specs.Summaries.{IsTableFrom};
ghost use Rattle.sessions.specs.Ended.{writes_after};
ghost use Rattle.sessions.specs.FiguresOutput.{AreCounted, HasCome, IsOpenedRun, IsCountFault, IsRunFault, IsTableOutput};
ghost use Rattle.sessions.specs.Written.{Writes};

use crate::counter::Counter;
use crate::fault::SessionFault;
use crate::means::Means;
use crate::output::put_all;
use command_line::notes::Notes;
use figures_text::{NameColumn, run_text};
use scenario_image::Scenario;
use sim_time::Time;
use window_engine::Sink;

/// Runs it to its end, and counts from a moment on.
fn count_reported<N: Notes>(counter: &mut Counter<'_, N>, moment: Time) -> Result<(), SessionFault>
    requires { AreOfSomeRun counter.old.figures counter.old.net }
    ensures counted { IfOk result (λ _. (p : ScenarioParts) → IsOpenedRun p counter.old.figures counter.old.net → AreCounted p moment counter.new.figures counter.new.net) }
    ensures come { (p : ScenarioParts) → IsOpenedRun p counter.old.figures counter.old.net → HasCome p counter.new.net }
    ensures ended { IfOk result (λ _. due counter.new.net.state ≡ None) }
    ensures fits { counter.new.net.position ≤ MOST_EVENTS }
    ensures faults { IfErr result (IsCountFault counter.new.net) }
{
    let ended = counter.count_from(moment);
    counter.tell_end(ended.is_ok());
    let _position = counter.net.position();
    ended
}

/// The table of the figures of a scenario's run from a moment on.
fn table_from<N: Notes>(
    means: &Means,
    column: &NameColumn,
    moment: Time,
    scenario: &Scenario,
    notes: &mut N,
) -> Result<Vec<u8>, SessionFault>
    ensures table { IfOk result (λ text. IsTableFrom column.now scenario.now moment text.items) }
    ensures faults { IfErr result (IsRunFault scenario.now) }
{
    let mut counter = Counter::new(means, scenario, notes)?;
    count_reported(&mut counter, moment)?;
    let text = run_text(
        means.alloc,
        column,
        scenario,
        &counter.figures,
        &counter.net,
    )?;
    Ok(text)
}

/// Runs a scenario to its end, and then writes the table of its run's figures, once there is memory
/// for all of it.
pub(crate) fn put_table<W: Sink, N: Notes>(
    means: &Means,
    column: &NameColumn,
    moment: Time,
    scenario: &Scenario,
    writer: &mut W,
    notes: &mut N,
) -> Result<(), SessionFault>
    ensures output { Writes (IsTableOutput column.now scenario.now moment result) (W.contents writer.old) (W.contents writer.new) }
    ensures failures { W.failures writer.new ≡ writes_after result (W.failures writer.old) }
{
    let text = table_from(means, column, moment, scenario, notes)?;
    put_all(writer, text.as_slice())?;
    Ok(())
}
