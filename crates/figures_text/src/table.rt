//! The table as a whole.
ghost use Rattle.std.specs.Prelude.{◌≡◌, ◌++◌, slice_index, OnOk, OnErr};
ghost use Rattle.aqm.specs.DropReasons.{reason_index};
ghost use Rattle.figures_text.specs.declared.figure.Figure.TheVariants.{Dropped};
ghost use Rattle.std.specs.List.{flat_map, enumerate_from};
ghost use Rattle.figures_text.specs.Table.{always_counted, or_none, flow_rows, drop_rows, link_rows, run_rows, flow_lines, link_lines, rows_text, heading, heading_end, ending_of, table_of};

use crate::column::NameColumn;
use crate::figure::Figure;
use crate::row::{Row, append_row, append_rows};
use crate::subject::Subject;
use crate::summary::{FlowSummary, LinkSummary, RunSummary};
use aqm::{DropReason, REASONS};
use std::alloc::AllocError;

/// Appends the table of a run's figures: a heading, then a line `what,number,figure,unit,value` for
/// each figure of each flow, of each link, and of the run, each with its LF, and with names where there is such
/// a column. Nothing is appended where
/// memory is refused.
pub fn figures_text(
    column: &NameColumn,
    flows: &[FlowSummary],
    links: &[LinkSummary],
    run: RunSummary,
    text: &mut Vec<u8>,
) -> Result<(), AllocError>
    ensures ok { OnOk result (text.new.items ≡ text.old.items ++ table_of column.now flows.now links.now run) }
    ensures err { OnErr result (text.new.items ≡ text.old.items) }
{
    let mut table = Vec::new(*text.allocator());
    append_table(column, flows, links, run, &mut table)?;
    text.extend_from_slice(&table)
}

/// Appends the table. Where memory is refused, a part of it may have been appended.
pub(crate) fn append_table(
    column: &NameColumn,
    flows: &[FlowSummary],
    links: &[LinkSummary],
    run: RunSummary,
    text: &mut Vec<u8>,
) -> Result<(), AllocError>
    ensures { OnOk result (text.new.items ≡ text.old.items ++ table_of column.now flows.now links.now run) }
{
    append_heading(column, text)?;
    append_flows(column, flows, text)?;
    append_ending(column, links, run, text)
}

/// Appends the first line. After an `Err` a part of it may stand there.
pub(crate) fn append_heading(column: &NameColumn, text: &mut Vec<u8>) -> Result<(), AllocError>
    ensures { OnOk result (text.new.items ≡ text.old.items ++ heading column.now) }
{
    text.extend_from_slice(b"what,number,figure,unit,value")?;
    append_heading_end(column, text)
}

/// Appends the end of the first line. After an `Err` a part of it may stand there.
fn append_heading_end(column: &NameColumn, text: &mut Vec<u8>) -> Result<(), AllocError>
    ensures { OnOk result (text.new.items ≡ text.old.items ++ heading_end column.now) }
{
    column.append_heading(text)?;
    text.extend_from_slice(b"\n")
}

/// Appends the lines of the links and of the run. After an `Err` a part of them may stand there.
fn append_ending(
    column: &NameColumn,
    links: &[LinkSummary],
    run: RunSummary,
    text: &mut Vec<u8>,
) -> Result<(), AllocError>
    ensures { OnOk result (text.new.items ≡ text.old.items ++ ending_of column.now links.now run) }
{
    append_links(column, links, text)?;
    append_rows(column, Subject::Run, &run_rows(run), text)
}

/// Appends the lines of the flows, by number. After an `Err` a part of them may stand there.
fn append_flows(
    column: &NameColumn,
    flows: &[FlowSummary],
    text: &mut Vec<u8>,
) -> Result<(), AllocError>
    ensures { OnOk result (text.new.items ≡ text.old.items
        ++ flat_map (flow_lines column.now) (enumerate_from 0 flows.now)) }
{
    for (number, flow) in flows.iter().enumerate() {
        append_rows(column, Subject::Flow(number as u64), &flow_rows(flow), text)?;
    }
    Ok(())
}

/// Appends the lines of a link, with its number. After an `Err` a part of them may stand there.
fn append_link(
    column: &NameColumn,
    number: u64,
    link: &LinkSummary,
    text: &mut Vec<u8>,
) -> Result<(), AllocError>
    ensures { OnOk result (text.new.items ≡ text.old.items ++ link_lines column.now (number, link.now)) }
{
    let subject = Subject::Link(number);
    let offered = counted(Figure::Offered, link.offered);
    append_row(column, subject, &offered, text)?;
    append_drops(column, subject, &link.dropped, text)?;
    append_rows(column, subject, &link_rows(link), text)
}

/// Appends a line for each reason for which packets are dropped. After an `Err` a part of them may stand there.
fn append_drops(
    column: &NameColumn,
    subject: Subject,
    counts: &[u128; REASONS],
    text: &mut Vec<u8>,
) -> Result<(), AllocError>
    ensures { OnOk result (text.new.items ≡ text.old.items ++ rows_text column.now subject (drop_rows counts.now)) }
{
    let reasons = DropReason::all();
    for reason in reasons {
        append_row(column, subject, &drop_row(*reason, counts), text)?;
    }
    Ok(())
}

/// How many packets were dropped for a reason.
pub(crate) fn drop_row(reason: DropReason, counts: &[u128; REASONS]) -> Row
    ensures { result ≡ always_counted (Dropped reason) (slice_index counts.now (reason_index reason)) }
{
    counted(Figure::Dropped(reason), counts[reason.index()])
}

/// Appends the lines of the links, by number. After an `Err` a part of them may stand there.
fn append_links(
    column: &NameColumn,
    links: &[LinkSummary],
    text: &mut Vec<u8>,
) -> Result<(), AllocError>
    ensures { OnOk result (text.new.items ≡ text.old.items
        ++ flat_map (link_lines column.now) (enumerate_from 0 links.now)) }
{
    for (number, link) in links.iter().enumerate() {
        append_link(column, number as u64, link, text)?;
    }
    Ok(())
}

/// A figure that there always is.
pub(crate) fn counted(figure: Figure, value: u128) -> Row
    ensures { result ≡ always_counted figure value }
{
    Row {
        figure,
        value: Some(value),
    }
}

/// A figure that there may not be.
pub(crate) fn or_none(figure: Figure, value: Option<u64>) -> Row
    ensures { result ≡ or_none figure value }
{
    match value {
        None => Row {
            figure,
            value: None,
        },
        Some(value) => counted(figure, u128::from(value)),
    }
}

/// What the table says of a flow.
fn flow_rows(flow: &FlowSummary) -> [Row; 13]
    ensures { result ≡ flow_rows flow.now }
{
    [
        counted(Figure::Start, u128::from(flow.start)),
        counted(Figure::Delivered, u128::from(flow.delivered)),
        or_none(Figure::Completed, flow.completed),
        counted(Figure::SentSegments, flow.sent),
        counted(Figure::AgainInRecovery, flow.again_in_recovery),
        counted(Figure::AgainOtherwise, flow.again_otherwise),
        counted(Figure::Timeouts, u128::from(flow.timeouts)),
        counted(Figure::RoundTrips, u128::from(flow.round_trips)),
        or_none(Figure::LeastTrip, flow.least),
        or_none(Figure::MedianTrip, flow.median),
        or_none(Figure::HighTrip, flow.high),
        or_none(Figure::HighestTrip, flow.highest),
        or_none(Figure::GreatestTrip, flow.greatest),
    ]
}

/// What the table says of a link behind what was offered to it and dropped.
fn link_rows(link: &LinkSummary) -> [Row; 9]
    ensures { result ≡ link_rows link.now }
{
    [
        counted(Figure::SentPackets, link.sent),
        counted(Figure::SentBytes, link.bytes),
        counted(Figure::Busy, link.busy),
        counted(Figure::GreatestQueue, u128::from(link.longest)),
        counted(Figure::Waited, link.waited),
        or_none(Figure::MedianDelay, link.median),
        or_none(Figure::HighDelay, link.high),
        or_none(Figure::HighestDelay, link.highest),
        or_none(Figure::GreatestDelay, link.greatest),
    ]
}

/// What the table says of the run as a whole.
fn run_rows(run: RunSummary) -> [Row; 2]
    ensures { result ≡ run_rows run }
{
    [
        counted(Figure::Events, u128::from(run.events)),
        or_none(Figure::End, run.end),
    ]
}
