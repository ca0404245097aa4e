//! Whole sessions: a scenario comes in on a reader, its trace, the figures of its run, its image, its
//! canonical text or the answers of a debugging session go out on a writer.
#![tactic(auto)]

pub mod conversion;
mod counter;
pub mod debug;
mod explain;
pub mod fault;
pub mod figures_fault;
mod figures_output;
mod figures_plan;
mod figures_table;
mod file_name;
pub mod groups;
mod input;
mod means;
mod mistake;
mod name_column;
mod naming;
mod nearest;
pub mod outcome;
mod output;
mod progress;
mod prompt;
mod refused_line;
mod row_limit;
mod run;
pub mod scenario_input;
mod series;
pub mod session;
pub mod source;
mod task;
pub mod trace;
pub mod typed;
mod why;
mod workers;
