//! The text of a trace, one line for each event and a last one, and the dump of a net.
#![tactic(auto)]

mod act;
mod after;
mod digits;
mod dump;
mod end;
mod event;
mod forward;
mod groups;
mod kept;
mod line;
mod page;

pub use dump::{ByteText, DumpPart, dump_text, has_waiting, part_text, pending_events};
pub use end::end_text;
pub use line::line_text;
pub use page::Page;
