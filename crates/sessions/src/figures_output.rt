//! The figures of a scenario's run, as the words of the command line ask for them.
ghost use Rattle.std.specs.Prelude.{◌≡◌, IfOk, IfErr};
ghost use Rattle.sessions.specs.Ended.{writes_after};
ghost use Rattle.sessions.specs.FiguresOutput.{HasTooMany, IsFiguresOutput, IsPlanFault, IsPlannedOutput};
ghost use Rattle.sessions.specs.FiguresPlan.{IsSoundPlan};
ghost use Rattle.sessions.specs.Input.{InputHasScenario};
ghost use Rattle.sessions.specs.Written.{Writes};

use crate::fault::SessionFault;
use crate::figures_plan::{FiguresPlan, plan_of};
use crate::figures_table::put_table;
use crate::means::Means;
use crate::name_column::column_of;
use crate::row_limit::check_rows;
use crate::series::{RowSteps, put_series};
use command_line::notes::Notes;
use command_line::subcommand::Counting;
use figures_text::NameColumn;
use scenario_image::Scenario;
use window_engine::Sink;

/// Writes what is planned. The rows behind a table take a run of their own.
fn put_planned<W: Sink, N: Notes>(
    means: &Means,
    column: &NameColumn,
    plan: FiguresPlan,
    scenario: &Scenario,
    writer: &mut W,
    notes: &mut N,
) -> Result<(), SessionFault>
    requires { IsSoundPlan plan }
    ensures output { Writes (IsPlannedOutput column.now scenario.now plan result) (W.contents writer.old) (W.contents writer.new) }
    ensures failures { W.failures writer.new ≡ writes_after result (W.failures writer.old) }
{
    match plan {
        FiguresPlan::Table(from) => put_table(means, column, from, scenario, writer, notes),
        FiguresPlan::Series(from, every) => {
            put_series(
                means,
                column,
                RowSteps { from, every },
                scenario,
                writer,
                notes,
            )
        }
        FiguresPlan::Both(from, every) => {
            put_table(means, column, from, scenario, writer, notes)?;
            put_series(
                means,
                column,
                RowSteps { from, every },
                scenario,
                writer,
                notes,
            )
        }
    }
}

/// Refuses a plan by which there would be more rows than there may be.
fn check_plan<N: Notes>(
    means: &Means,
    plan: FiguresPlan,
    scenario: &Scenario,
    notes: &mut N,
) -> Result<(), SessionFault>
    ensures few { IfOk result (λ _. ¬ HasTooMany scenario.now plan) }
    ensures faults { IfErr result (IsPlanFault scenario.now plan) }
{
    match plan {
        FiguresPlan::Table(_) => Ok(()),
        FiguresPlan::Both(from, every) => {
            check_rows(means, RowSteps { from, every }, scenario, notes)
        }
        FiguresPlan::Series(from, every) => {
            check_rows(means, RowSteps { from, every }, scenario, notes)
        }
    }
}

/// Writes the figures of an input's scenario that are asked for.
pub(crate) fn put_figures<W: Sink, N: Notes>(
    means: &Means,
    counting: &Counting,
    input: &[u8],
    scenario: &Scenario,
    writer: &mut W,
    notes: &mut N,
) -> Result<(), SessionFault>
    requires { InputHasScenario input.now scenario.now }
    ensures output { Writes (IsFiguresOutput counting.now input.now scenario.now result) (W.contents writer.old) (W.contents writer.new) }
    ensures failures { W.failures writer.new ≡ writes_after result (W.failures writer.old) }
{
    let plan = plan_of(counting)?;
    let column = column_of(means.alloc, counting.names, input)?;
    check_plan(means, plan, scenario, notes)?;
    put_planned(means, &column, plan, scenario, writer, notes)
}
