//! The rows of a run by time, as comma-separated values.
ghost use Rattle.std.specs.Prelude.{◌≡◌, ◌++◌, codes, decimal, OnOk};
ghost use Rattle.std.specs.List.{flat_map, enumerate_from};
ghost use Rattle.figures_text.specs.SeriesText.{series_heading, timed_line, timed_rows, flow_step_rows, sent_step_rows, queue_step_rows, flow_step_lines, link_step_lines, step_rows};
ghost use Rattle.figures_text.specs.Table.{drop_rows};

use crate::column::NameColumn;
use crate::figure::Figure;
use crate::row::{Row, append_row};
use crate::step::FlowStep;
use crate::subject::Subject;
use crate::summary::LinkSummary;
use crate::table::{append_heading, counted, drop_row, or_none};
use aqm::{DropReason, REASONS};
use itoa::Buffer;
use std::alloc::AllocError;

/// How many rows a step has of each flow.
pub const FLOW_ROWS: u64 = 7;

/// How many rows a step has of each link.
pub const LINK_ROWS: u64 = 6 + REASONS as u64;

/// Appends the first line. After an `Err` a part of it may stand there.
pub fn append_series_heading(column: &NameColumn, text: &mut Vec<u8>) -> Result<(), AllocError>
    ensures { OnOk result (text.new.items ≡ text.old.items ++ series_heading column.now) }
{
    text.extend_from_slice(b"time,")?;
    append_heading(column, text)
}

/// Appends the time and a comma. After an `Err` a part of them may stand there.
fn append_time(begin: u64, text: &mut Vec<u8>) -> Result<(), AllocError>
    ensures { OnOk result (text.new.items ≡ text.old.items ++ (decimal begin ++ codes ",")) }
{
    let mut digits = Buffer::new();
    text.extend_from_slice(digits.format(begin).as_bytes())?;
    text.extend_from_slice(b",")
}

/// Appends a line with its time. After an `Err` a part of it may stand there.
fn append_timed(
    begin: u64,
    column: &NameColumn,
    subject: Subject,
    row: &Row,
    text: &mut Vec<u8>,
) -> Result<(), AllocError>
    ensures { OnOk result (text.new.items ≡ text.old.items ++ timed_line begin column.now subject row.now) }
{
    append_time(begin, text)?;
    append_row(column, subject, row, text)
}

/// Appends a line for each row. After an `Err` a part of them may stand there.
fn append_timed_rows(
    begin: u64,
    column: &NameColumn,
    subject: Subject,
    rows: &[Row],
    text: &mut Vec<u8>,
) -> Result<(), AllocError>
    ensures { OnOk result (text.new.items ≡ text.old.items ++ timed_rows begin column.now subject rows.now) }
{
    for row in rows {
        append_timed(begin, column, subject, row, text)?;
    }
    Ok(())
}

/// What the rows of a step say of a flow.
fn flow_step_rows(step: &FlowStep) -> [Row; 7]
    ensures { result ≡ flow_step_rows step.now }
{
    let cwnd = match step.window {
        Some(window) => Some(window.cwnd),
        None => None,
    };
    let in_flight = match step.window {
        Some(window) => Some(window.in_flight),
        None => None,
    };
    [
        counted(Figure::Delivered, u128::from(step.counts.delivered)),
        counted(Figure::SentSegments, step.counts.sent),
        counted(Figure::AgainInRecovery, step.counts.again_in_recovery),
        counted(Figure::AgainOtherwise, step.counts.again_otherwise),
        counted(Figure::Timeouts, u128::from(step.counts.timeouts)),
        or_none(Figure::Cwnd, cwnd),
        or_none(Figure::InFlight, in_flight),
    ]
}

/// Appends a line for each reason for which packets are dropped. After an `Err` a part of them may stand there.
fn append_timed_drops(
    begin: u64,
    column: &NameColumn,
    subject: Subject,
    counts: &[u128; REASONS],
    text: &mut Vec<u8>,
) -> Result<(), AllocError>
    ensures { OnOk result (text.new.items ≡ text.old.items ++ timed_rows begin column.now subject (drop_rows counts.now)) }
{
    let reasons = DropReason::all();
    for reason in reasons {
        append_timed(begin, column, subject, &drop_row(*reason, counts), text)?;
    }
    Ok(())
}

/// What the rows of a step say of a link before the packets that were dropped.
fn sent_step_rows(link: &LinkSummary) -> [Row; 3]
    ensures { result ≡ sent_step_rows link.now }
{
    [
        counted(Figure::Busy, link.busy),
        counted(Figure::SentPackets, link.sent),
        counted(Figure::SentBytes, link.bytes),
    ]
}

/// What they say of it behind these.
fn queue_step_rows(link: &LinkSummary) -> [Row; 3]
    ensures { result ≡ queue_step_rows link.now }
{
    [
        counted(Figure::Waited, link.waited),
        counted(Figure::GreatestQueue, u128::from(link.longest)),
        or_none(Figure::MedianDelay, link.median),
    ]
}

/// Appends the rows of a flow, with its number. After an `Err` a part of them may stand there.
fn append_flow(
    begin: u64,
    column: &NameColumn,
    number: u64,
    step: &FlowStep,
    text: &mut Vec<u8>,
) -> Result<(), AllocError>
    ensures { OnOk result (text.new.items ≡ text.old.items ++ flow_step_lines begin column.now (number, step.now)) }
{
    append_timed_rows(
        begin,
        column,
        Subject::Flow(number),
        &flow_step_rows(step),
        text,
    )
}

/// Appends the rows of a link, with its number. After an `Err` a part of them may stand there.
fn append_link(
    begin: u64,
    column: &NameColumn,
    number: u64,
    link: &LinkSummary,
    text: &mut Vec<u8>,
) -> Result<(), AllocError>
    ensures { OnOk result (text.new.items ≡ text.old.items ++ link_step_lines begin column.now (number, link.now)) }
{
    let subject = Subject::Link(number);
    append_timed_rows(begin, column, subject, &sent_step_rows(link), text)?;
    append_timed_drops(begin, column, subject, &link.dropped, text)?;
    append_timed_rows(begin, column, subject, &queue_step_rows(link), text)
}

/// Appends the rows of the flows, by number. After an `Err` a part of them may stand there.
fn append_flows(
    begin: u64,
    column: &NameColumn,
    flows: &[FlowStep],
    text: &mut Vec<u8>,
) -> Result<(), AllocError>
    ensures { OnOk result (text.new.items ≡ text.old.items ++ flat_map (flow_step_lines begin column.now) (enumerate_from 0 flows.now)) }
{
    for (number, flow) in flows.iter().enumerate() {
        append_flow(begin, column, number as u64, flow, text)?;
    }
    Ok(())
}

/// Appends the rows of the links, by number. After an `Err` a part of them may stand there.
fn append_links(
    begin: u64,
    column: &NameColumn,
    links: &[LinkSummary],
    text: &mut Vec<u8>,
) -> Result<(), AllocError>
    ensures { OnOk result (text.new.items ≡ text.old.items ++ flat_map (link_step_lines begin column.now) (enumerate_from 0 links.now)) }
{
    for (number, link) in links.iter().enumerate() {
        append_link(begin, column, number as u64, link, text)?;
    }
    Ok(())
}

/// Appends the rows of a step: a line `time,what,number,figure,unit,value` for each figure of each flow and of each
/// link, each with its LF. After an `Err` a part of them may stand there.
pub(crate) fn append_step(
    begin: u64,
    column: &NameColumn,
    flows: &[FlowStep],
    links: &[LinkSummary],
    text: &mut Vec<u8>,
) -> Result<(), AllocError>
    ensures { OnOk result (text.new.items ≡ text.old.items ++ step_rows begin column.now flows.now links.now) }
{
    append_flows(begin, column, flows, text)?;
    append_links(begin, column, links, text)
}
