//! The table of a run's figures, as comma-separated values.
#![tactic(auto)]

mod column;
mod figure;
mod row;
mod series_text;
mod step;
mod steps;
mod subject;
pub mod summaries;
mod summary;
mod table;

pub use column::NameColumn;
pub use series_text::{FLOW_ROWS, LINK_ROWS, append_series_heading};
pub use step::{FlowStep, SenderWindow, Span};
pub use steps::{append_rows_of, sends_any};
pub use summaries::run_text;
pub use summary::{FlowSummary, LinkSummary, RunSummary};
pub use table::figures_text;
