//! Displays, as they are told.
ghost use Rattle.std.specs.Prelude.{◌≡◌, ◌+◌, ◌++◌, codes, OnOk};
ghost use Rattle.std.specs.List.{flat_map};
ghost use Rattle.prompt_words.specs.Displays.{readable_text, is_same_reading, reading_before, value_shown, one_shown, more_of_flow, more_of_link, all_shown, item_text, item_shown, display_line, displays_from, undisplayed_line};
ghost use Rattle.debug_session.specs.Readouts.{now_of, was_of};

use crate::readout::Readout;
use breakpoints::{Owner, Reading, Value, ValueOf};
use flow_waits::ScenarioNames;
use prompt_words::{
    DisplayItem, append_behind, append_number, append_reading, is, phase_word, value_name,
    value_unit,
};
use std::alloc::AllocError;

/// The values of a flow behind the first.
static MORE_OF_FLOW: [Value; 8] = [
    Value::Flight,
    Value::Ssthresh,
    Value::Una,
    Value::Nxt,
    Value::Rto,
    Value::Dups,
    Value::Phase,
    Value::Next,
];

/// Those of a link.
static MORE_OF_LINK: [Value; 2] = [Value::Wait, Value::Count];

// Appends a value and whose it is.
fn append_readable(
    out: &mut Vec<u8>,
    names: &ScenarioNames,
    what: ValueOf,
) -> Result<(), AllocError>
    ensures { OnOk result (out.new.items ≡ out.old.items ++ readable_text names.now what) }
{
    out.extend_from_slice(value_name(what.value))?;
    match what.value.owner() {
        Owner::Link => append_behind(out, b" ", &names.links, what.of),
        Owner::Flow | Owner::Nothing => append_behind(out, b" ", &names.flows, what.of),
    }
}

// Whether the same is read.
fn is_same_reading(was: Reading, now: Reading) -> bool
    ensures { result ≡ is_same_reading was now }
{
    match (was, now) {
        (Reading::Number(m), Reading::Number(n)) => m == n,
        (Reading::Phase(p), Reading::Phase(q)) => is(phase_word(p), phase_word(q)),
        (Reading::Nothing, Reading::Nothing) => true,
        _ => false,
    }
}

// Appends what was read before, where that is another.
fn append_before(
    out: &mut Vec<u8>,
    unit: &[u8],
    was: Reading,
    now: Reading,
) -> Result<(), AllocError>
    ensures { OnOk result (out.new.items ≡ out.old.items ++ reading_before unit.now was now) }
{
    if is_same_reading(was, now) {
        Ok(())
    } else {
        out.extend_from_slice(b" (was ")?;
        append_reading(out, unit, was)?;
        out.extend_from_slice(b")")
    }
}

// Appends what is read of a value.
fn append_value(out: &mut Vec<u8>, readout: &Readout<'_>, what: ValueOf) -> Result<(), AllocError>
    ensures { OnOk result (out.new.items ≡ out.old.items ++ value_shown (was_of readout.now) (now_of readout.now) what) }
{
    let now = readout.now(what);
    out.extend_from_slice(b" = ")?;
    append_reading(out, value_unit(what.value), now)?;
    append_before(out, value_unit(what.value), readout.was(what), now)
}

// Appends a value with its name behind a mark.
fn append_one(
    out: &mut Vec<u8>,
    readout: &Readout<'_>,
    mark: &[u8],
    what: ValueOf,
) -> Result<(), AllocError>
    ensures { OnOk result (out.new.items ≡ out.old.items ++ one_shown (was_of readout.now) (now_of readout.now) mark.now what.of what.value) }
{
    out.extend_from_slice(mark)?;
    out.extend_from_slice(value_name(what.value))?;
    append_value(out, readout, what)
}

// Appends more values of the flow or the link of a number.
fn append_more(
    out: &mut Vec<u8>,
    readout: &Readout<'_>,
    values: &[Value],
    of: u16,
) -> Result<(), AllocError>
    ensures { OnOk result (out.new.items ≡ out.old.items ++ flat_map (one_shown (was_of readout.now) (now_of readout.now) (codes ", ") of) values.now) }
{
    for value in values {
        let what = ValueOf { value: *value, of };
        append_one(out, readout, b", ", what)?;
    }
    Ok(())
}

// Appends all values of a flow.
fn append_flow(out: &mut Vec<u8>, readout: &Readout<'_>, of: u16) -> Result<(), AllocError>
    ensures { OnOk result (out.new.items ≡ out.old.items ++ all_shown (was_of readout.now) (now_of readout.now) of Value.Cwnd more_of_flow) }
{
    let first = ValueOf {
        value: Value::Cwnd,
        of,
    };
    append_one(out, readout, b": ", first)?;
    append_more(out, readout, &MORE_OF_FLOW, of)
}

// Appends all values of a link.
fn append_link(out: &mut Vec<u8>, readout: &Readout<'_>, of: u16) -> Result<(), AllocError>
    ensures { OnOk result (out.new.items ≡ out.old.items ++ all_shown (was_of readout.now) (now_of readout.now) of Value.Queue more_of_link) }
{
    let first = ValueOf {
        value: Value::Queue,
        of,
    };
    append_one(out, readout, b": ", first)?;
    append_more(out, readout, &MORE_OF_LINK, of)
}

// Appends what is displayed.
fn append_item(
    out: &mut Vec<u8>,
    names: &ScenarioNames,
    item: DisplayItem,
) -> Result<(), AllocError>
    ensures { OnOk result (out.new.items ≡ out.old.items ++ item_text names.now item) }
{
    match item {
        DisplayItem::Flow(flow) => append_behind(out, b"flow ", &names.flows, flow),
        DisplayItem::Link(link) => append_behind(out, b"link ", &names.links, link),
        DisplayItem::One(what) => append_readable(out, names, what),
    }
}

// Appends its values.
fn append_shown(
    out: &mut Vec<u8>,
    readout: &Readout<'_>,
    item: DisplayItem,
) -> Result<(), AllocError>
    ensures { OnOk result (out.new.items ≡ out.old.items ++ item_shown (was_of readout.now) (now_of readout.now) item) }
{
    match item {
        DisplayItem::Flow(flow) => append_flow(out, readout, flow),
        DisplayItem::Link(link) => append_link(out, readout, link),
        DisplayItem::One(what) => append_value(out, readout, what),
    }
}

/// Appends the line of a display of a number.
pub(crate) fn append_display(
    out: &mut Vec<u8>,
    names: &ScenarioNames,
    readout: &Readout<'_>,
    number: u64,
    item: DisplayItem,
) -> Result<(), AllocError>
    ensures { OnOk result (out.new.items ≡ out.old.items ++ display_line names.now (was_of readout.now) (now_of readout.now) number item) }
{
    out.extend_from_slice(b"display ")?;
    append_number(out, number)?;
    out.extend_from_slice(b": ")?;
    append_item(out, names, item)?;
    append_shown(out, readout, item)?;
    out.extend_from_slice(b"\n")
}

/// Appends a line for each display.
pub(crate) fn append_displays(
    out: &mut Vec<u8>,
    names: &ScenarioNames,
    readout: &Readout<'_>,
    displays: &[DisplayItem],
) -> Result<(), AllocError>
    ensures { OnOk result (out.new.items ≡ out.old.items ++ displays_from names.now (was_of readout.now) (now_of readout.now) 1 displays.now) }
{
    for index in 0..displays.len() {
        append_display(out, names, readout, index as u64 + 1, displays[index])?;
    }
    Ok(())
}

/// Appends that a display is taken away.
pub(crate) fn append_undisplayed(
    out: &mut Vec<u8>,
    names: &ScenarioNames,
    number: u64,
    item: DisplayItem,
) -> Result<(), AllocError>
    ensures { OnOk result (out.new.items ≡ out.old.items ++ undisplayed_line names.now number item) }
{
    out.extend_from_slice(b"undisplayed ")?;
    append_number(out, number)?;
    out.extend_from_slice(b": ")?;
    append_item(out, names, item)?;
    out.extend_from_slice(b"\n")
}
