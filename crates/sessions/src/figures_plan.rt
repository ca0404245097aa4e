//! Which figures of a run are written, as the words of the command line say it.
ghost use Rattle.std.specs.Prelude.{◌≡◌, ◌<◌, IfOk, IfErr, IfSome, length, Some, None, Ok, Err};
ghost use Rattle.sim_time.specs.Moment.{IsMoment};
ghost use Rattle.sessions.specs.FiguresPlan.{moment_from, step_from, plan_with, plan_by, plan_of as plan_is, IsSoundPlan};

use crate::figures_fault::FiguresFault;
use command_line::subcommand::{Counting, OptionalWord};
use prompt_words::moment_in;
use sim_time::Time;

/// Which figures of a run are written, from a moment on, and with rows for each step of so many nanoseconds.
#[derive(Clone, Copy)]
pub(crate) enum FiguresPlan {
    /// The table.
    Table(Time),
    /// The table, and the rows behind it.
    Both(Time, Time),
    /// The rows.
    Series(Time, Time),
}

/// The moment from which on is counted, in nanoseconds.
fn moment_from(from: &OptionalWord) -> Result<Time, FiguresFault>
    ensures moment { IfOk result (λ moment. (moment_from from.now ≡ Some moment) × IsMoment moment) }
    ensures faults { IfErr result (λ fault. (moment_from from.now ≡ None) × (fault ≡ FiguresFault.NoMoment)) }
{
    match from.get() {
        None => Ok(0),
        Some(word) => match moment_in(word.as_bytes()) {
            Some(moment) => Ok(moment),
            None => Err(FiguresFault::NoMoment),
        },
    }
}

/// How long a step is, in nanoseconds; none where no rows by time are wished.
fn step_from(every: &OptionalWord, series: bool) -> Result<Option<Time>, FiguresFault>
    ensures step { IfOk result (λ step. step_from every.now series ≡ Ok step) }
    ensures sound { IfOk result (λ step. IfSome step (λ length. (0 < length) × IsMoment length)) }
    ensures faults { IfErr result (λ fault. step_from every.now series ≡ Err fault) }
{
    match every.get() {
        None => {
            if series {
                Err(FiguresFault::NoStep)
            } else {
                Ok(None)
            }
        }
        Some(word) => match moment_in(word.as_bytes()) {
            None => Err(FiguresFault::NoStep),
            Some(step) => {
                if step == 0 {
                    Err(FiguresFault::NoStep)
                } else {
                    Ok(Some(step))
                }
            }
        },
    }
}

/// With the table, or alone.
fn plan_with(series: bool, from: Time, every: Time) -> FiguresPlan
    ensures { result ≡ plan_with series from every }
{
    if series {
        FiguresPlan::Series(from, every)
    } else {
        FiguresPlan::Both(from, every)
    }
}

/// What is written of a run, or why nothing is.
pub(crate) fn plan_of(counting: &Counting) -> Result<FiguresPlan, FiguresFault>
    ensures plan { IfOk result (λ plan. (plan_is counting.now ≡ Ok plan) × IsSoundPlan plan) }
    ensures faults { IfErr result (λ fault. plan_is counting.now ≡ Err fault) }
{
    let from = moment_from(&counting.from)?;
    let step = step_from(&counting.every, counting.series)?;
    match step {
        None => Ok(FiguresPlan::Table(from)),
        Some(every) => Ok(plan_with(counting.series, from, every)),
    }
}
