//! The words at a prompt: what a line asks for, and how names, values and breakpoints are written.
#![tactic(auto)]

mod command;
mod conditions;
pub mod cut;
mod display;
mod entries;
mod grammar;
mod input;
mod line;
mod memo;
mod moment;
mod name;
mod names_reported;
mod naming;
mod numbered;
mod parts;
mod reading;
mod refusal;
mod report;
mod signs;
mod value_names;
mod value_texts;

pub use command::{Command, Limits, Move, Request, Shown, Typed};
pub use display::{DisplayCommand, DisplayItem, MOST_DISPLAYS, number_of_display};
pub use entries::{append_help, append_help_on};
pub use grammar::{is, number_below, read_line};
pub use input::split;
pub use line::{MOST_LINE, is_long, is_quit};
pub use memo::{Extent, Memo, knowing};
pub use moment::moment_in;
pub use name::CommandName;
pub use names_reported::{append_behind, append_counted, append_names, append_number};
pub use naming::{Naming, PartSort};
pub use numbered::{append_listing, append_numbered, append_part, number_of, of_number};
pub use reading::{read_typed, with_code};
pub use refusal::{Expected, Misnamed, Refusal, Refused};
pub use report::{Report, report_of};
pub use value_names::{phase_word, value_name, value_unit};
pub use value_texts::append_reading;
