//! Why an input is refused, as a person is shown it.

use crate::advice::push_advice;
use explanations::{Names, image_parts, tell_counterexample, text_of};
use scenario_asm::{FaultPlace, Part, fault_place, parts_of_text};
use scenario_image::ScenarioParts;
use std::alloc::{AllocError, Global};

/// How many bytes of a line are shown at most, and how many of them before what is wrong.
const SHOWN: usize = 200;

const BEFORE: usize = 80;

/// Adds bytes as they can be shown: each that is not printable as a question mark.
fn push_shown(shown: &mut String, bytes: &[u8]) -> Result<(), AllocError> {
    for byte in bytes {
        let is_shown = *byte >= b' ' && *byte <= b'~';
        shown.push(char::from(if is_shown { *byte } else { b'?' }))?;
    }
    Ok(())
}

/// Adds a character so many times.
fn push_times(shown: &mut String, count: usize, it: char) -> Result<(), AllocError> {
    for _ in 0..count {
        shown.push(it)?;
    }
    Ok(())
}

/// Where what is wrong with a line begins in it, and how many bytes it has.
fn faulty_part(place: &FaultPlace) -> (usize, usize) {
    match place.part {
        Part::Line => (0, place.bytes.len()),
        Part::Byte(at) => (at, 1),
        Part::Word { start, end, .. } => (start, end.saturating_sub(start)),
    }
}

/// Adds the line that is refused, or the bytes of it around what is wrong, and a second line with
/// carets under that.
fn push_place(shown: &mut String, place: &FaultPlace) -> Result<(), AllocError> {
    let (start, count) = faulty_part(place);
    let first = start.saturating_sub(BEFORE).min(place.bytes.len());
    let last = place.bytes.len().min(first.saturating_add(SHOWN));
    push_shown(shown, &place.bytes[first..last])?;
    shown.push('\n')?;
    let before = start.saturating_sub(first);
    push_times(shown, before, ' ')?;
    let left = (last - first).saturating_sub(before);
    push_times(shown, count.min(left).max(1), '^')?;
    shown.push('\n')
}

/// The first line of what a code means.
pub fn meaning_of(code: &str) -> Option<&'static str> {
    text_of(code)?.lines().next()
}

/// Adds the first line of what a code means.
fn push_meaning(shown: &mut String, code: &str) -> Result<(), AllocError> {
    if let Some(line) = meaning_of(code) {
        shown.push_str(line)?;
        shown.push('\n')?;
    }
    Ok(())
}

/// Adds what shows first that these parts have the fault of this code.
fn push_counterexample(
    alloc: Global,
    shown: &mut String,
    code: &str,
    parts: &ScenarioParts,
    names: &Names,
) -> Result<(), AllocError> {
    if let Some(reported) = tell_counterexample(alloc, code, parts, names)? {
        shown.push_str(reported.as_str())?;
    }
    Ok(())
}

/// The same of a text in which no line is faulty, by names.
fn push_text_counterexample(
    alloc: Global,
    shown: &mut String,
    text: &[u8],
    code: &str,
) -> Result<(), AllocError> {
    let Some(named) = parts_of_text(alloc, text)? else {
        return Ok(());
    };
    let names = Names {
        nodes: named.nodes.as_slice(),
        links: named.links.as_slice(),
        flows: named.flows.as_slice(),
    };
    push_counterexample(alloc, shown, code, &named.parts, &names)
}

/// The same of an image, by numbers.
fn push_image_counterexample(
    alloc: Global,
    shown: &mut String,
    image: &[u8],
    code: &str,
) -> Result<(), AllocError> {
    let Some(parts) = image_parts(alloc, image)? else {
        return Ok(());
    };
    push_counterexample(alloc, shown, code, &parts, &Names::NONE)
}

/// Bytes as they can be shown: each that is not printable as a question mark.
pub fn shown_bytes(alloc: Global, bytes: &[u8]) -> Result<String, AllocError> {
    let mut shown = String::new(alloc);
    push_shown(&mut shown, bytes)?;
    Ok(shown)
}

/// What is shown of an input that is refused by this code, whatever is in it: what the code means.
pub fn code_reason(alloc: Global, code: &str) -> Result<String, AllocError> {
    let mut shown = String::new(alloc);
    push_meaning(&mut shown, code)?;
    Ok(shown)
}

/// What is shown of a text that is refused by this code: the line, with carets under what is wrong and what to write
/// instead, or, where no line is faulty, what shows the fault first, with a statement that would mend it; and what the
/// code means.
pub fn text_reason(alloc: Global, text: &[u8], code: &str) -> Result<String, AllocError> {
    let mut shown = String::new(alloc);
    match fault_place(alloc, text)? {
        Some(place) => {
            push_place(&mut shown, &place)?;
            push_advice(&mut shown, text, &place)?;
        }
        None => push_text_counterexample(alloc, &mut shown, text, code)?,
    }
    push_meaning(&mut shown, code)?;
    Ok(shown)
}

/// What is shown of an image that is refused by this code: what shows the fault first, and what the code means.
pub fn image_reason(alloc: Global, image: &[u8], code: &str) -> Result<String, AllocError> {
    let mut shown = String::new(alloc);
    push_image_counterexample(alloc, &mut shown, image, code)?;
    push_meaning(&mut shown, code)?;
    Ok(shown)
}

/// What is shown behind the note where these are no groups of so many nodes.
pub fn groups_reason(alloc: Global, groups: &str, nodes: usize) -> Result<String, AllocError> {
    let mut shown = String::new(alloc);
    let given = groups.split(',').count();
    write!(shown, "groups that are given: {given}; nodes: {nodes}\n")?;
    push_meaning(&mut shown, "groups")?;
    Ok(shown)
}
