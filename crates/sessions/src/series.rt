//! The figures of a scenario's run by time, written step by step.
ghost use Rattle.std.specs.Prelude.{◌≡◌, ◌<◌, ◌≤◌, [], IfOk, IfErr};
ghost use Rattle.scenario_image.specs.Scenario.{IsScenario};
ghost use Rattle.sim_time.specs.Moment.{IsMoment};
ghost use Rattle.table_run.specs.State.{initial};
ghost use Rattle.figures.specs.Figures.{AreOfRun, AreOfPart, AreOfSomeRun};
ghost use Rattle.figures.specs.Moments.{Base, moments};
ghost use Rattle.figures_text.specs.SeriesText.{series_heading};
ghost use Rattle.figures_text.specs.Steps.{rows_over};
ghost use Rattle.sessions.specs.Ended.{writes_after};
ghost use Rattle.sessions.specs.FiguresOutput.{HasCome, IsOpenedRun, IsStepBegun, IsCountFault, IsRunFault, IsRowsOutput, IsSeriesOutput};
ghost use Rattle.sessions.specs.Output.{IsAllOrNothing};
ghost use Rattle.sessions.specs.Written.{Writes};

use crate::counter::Counter;
use crate::fault::SessionFault;
use crate::means::Means;
use crate::output::put_all;
use command_line::notes::Notes;
use figures_text::{NameColumn, Span, append_rows_of, append_series_heading};
use scenario_image::Scenario;
use sim_time::Time;
use std::alloc::Global;
use window_engine::Sink;

/// Steps of the same length.
#[derive(Clone, Copy)]
pub(crate) struct RowSteps {
    /// When the first begins, in nanoseconds.
    pub from: Time,
    /// How long each is.
    pub every: Time,
}

/// Writes the heading.
fn put_heading<W: Sink>(
    alloc: Global,
    column: &NameColumn,
    writer: &mut W,
) -> Result<(), SessionFault>
    ensures output { Writes (IsAllOrNothing (series_heading column.now) result) (W.contents writer.old) (W.contents writer.new) }
    ensures failures { W.failures writer.new ≡ writes_after result (W.failures writer.old) }
{
    let mut text = Vec::new(alloc);
    append_series_heading(column, &mut text)?;
    put_all(writer, text.as_slice())?;
    Ok(())
}

/// Writes the rows of a step, of which this was counted.
fn put_rows<W: Sink, N: Notes>(
    column: &NameColumn,
    scenario: &Scenario,
    span: Span,
    counter: &Counter<'_, N>,
    text: &mut Vec<u8>,
    writer: &mut W,
) -> Result<(), SessionFault>
    requires { AreOfPart scenario.now counter.now.figures counter.now.net }
    ensures output { (b : Base) (of : AreOfRun scenario.now b counter.now.figures counter.now.net) → Writes (IsAllOrNothing (rows_over column.now scenario.now span b (moments b.state of.count) counter.now.net.state) result) (W.contents writer.old) (W.contents writer.new) }
    ensures failures { W.failures writer.new ≡ writes_after result (W.failures writer.old) }
{
    text.clear();
    append_rows_of(column, scenario, span, &counter.figures, &counter.net, text)?;
    put_all(writer, text.as_slice())?;
    Ok(())
}

/// Writes the rows of each step, where nothing is counted yet from the first step's begin on.
fn put_steps<W: Sink, N: Notes>(
    column: &NameColumn,
    scenario: &Scenario,
    row_steps: RowSteps,
    counter: &mut Counter<'_, N>,
    writer: &mut W,
) -> Result<(), SessionFault>
    requires begun { IsStepBegun scenario.now row_steps.from counter.old.figures counter.old.net }
    requires some { AreOfSomeRun counter.old.figures counter.old.net }
    requires scenario { IsScenario scenario.now }
    requires from { IsMoment row_steps.from }
    requires long { 0 < row_steps.every }
    requires every { IsMoment row_steps.every }
    ensures output { Writes (IsRowsOutput column.now scenario.now row_steps.from row_steps.every result) (W.contents writer.old) (W.contents writer.new) }
    ensures failures { W.failures writer.new ≡ writes_after result (W.failures writer.old) }
{
    let mut text = Vec::new(counter.alloc());
    let mut begin = row_steps.from;
    loop {
        let until = begin + row_steps.every;
        counter.run_before(until)?;
        put_rows(
            column,
            scenario,
            Span { begin, until },
            counter,
            &mut text,
            writer,
        )?;
        if !counter.goes_on(until) {
            return Ok(());
        }
        counter.restart(until)?;
        begin = until;
    }
}

/// Runs it up to the first step's begin, and writes the rows of each step.
fn put_from<W: Sink, N: Notes>(
    column: &NameColumn,
    scenario: &Scenario,
    row_steps: RowSteps,
    counter: &mut Counter<'_, N>,
    writer: &mut W,
) -> Result<(), SessionFault>
    requires opened { IsOpenedRun scenario.now counter.old.figures counter.old.net }
    requires some { AreOfSomeRun counter.old.figures counter.old.net }
    requires scenario { IsScenario scenario.now }
    requires from { IsMoment row_steps.from }
    requires long { 0 < row_steps.every }
    requires every { IsMoment row_steps.every }
    ensures output { Writes (IsRowsOutput column.now scenario.now row_steps.from row_steps.every result) (W.contents writer.old) (W.contents writer.new) }
    ensures failures { W.failures writer.new ≡ writes_after result (W.failures writer.old) }
{
    counter.begin_at(row_steps.from)?;
    put_steps(column, scenario, row_steps, counter, writer)
}

/// Runs a scenario to its end, and writes its figures by time: the heading, and the rows of each step as soon as it has
/// ended.
pub(crate) fn put_series<W: Sink, N: Notes>(
    means: &Means,
    column: &NameColumn,
    row_steps: RowSteps,
    scenario: &Scenario,
    writer: &mut W,
    notes: &mut N,
) -> Result<(), SessionFault>
    requires from { IsMoment row_steps.from }
    requires long { 0 < row_steps.every }
    requires every { IsMoment row_steps.every }
    ensures output { Writes (IsSeriesOutput column.now scenario.now row_steps.from row_steps.every result) (W.contents writer.old) (W.contents writer.new) }
    ensures failures { W.failures writer.new ≡ writes_after result (W.failures writer.old) }
{
    let _parts = scenario.parts();
    let mut counter = Counter::new(means, scenario, notes)?;
    put_heading(means.alloc, column, writer)?;
    let ended = put_from(column, scenario, row_steps, &mut counter, writer);
    counter.tell_end(ended.is_ok());
    ended
}
