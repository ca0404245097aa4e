//! The text of a window's lines: made in parts, written while later windows run, and where its bytes go.
#![tactic(auto)]

mod formatter;
mod parts;
mod pending_text;
mod put;
mod result_table;
mod sink;
mod text;
mod text_buffer;

pub use formatter::TextFormatter;
pub use parts::{LINE_BYTES, MOST_PARTS, Parts, most_shares, share_of};
pub use pending_text::PendingText;
pub use put::put_all;
pub use result_table::{ResultTable, Ticket};
pub use sink::{Nowhere, OverWrite, Sink, SinkFail};
pub use text::Text;
