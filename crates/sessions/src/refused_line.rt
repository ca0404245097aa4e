//! What is told of a line that is typed and refused.

use crate::nearest::{command_begun, first_word, tell_nearest};
use command_line::notes::{Notes, Numbers};
use command_line::reasons::{meaning_of, shown_bytes};
use prompt_words::{
    CommandName, Expected, MOST_LINE, Misnamed, Naming, PartSort, Refusal, Refused,
};
use std::alloc::{AllocError, Global};
use std::str;

/// The code of a refusal, which stands behind its first word.
fn code_in(refusal: &[u8]) -> Option<&str> {
    let text = str::from_utf8(refusal).ok()?;
    text.split_whitespace().nth(1)
}

/// The conditions that a breakpoint can have.
const CONDITIONS: &str =
    "tcpsim: conditions are node N, flow F, kind K, drop, link L, byte B, cwnd, flight, ssthresh, una, nxt, rto, dups, phase, next, queue L, wait L, count L, time, change V; or stall: see help break";

/// What can be displayed.
const DISPLAYS: &str =
    "tcpsim: displays are flow F, link L, cwnd F, flight F, ssthresh F, una F, nxt F, rto F, dups F, phase F, next F, queue L, wait L, count L: see help display";

/// The units of times.
const UNITS: &str = "tcpsim: a time has a unit, ns, us, ms or s, as 1.5s: see help until";

/// That a breakpoint has no two conditions of a sort.
const ONCE: &str = "tcpsim: each sort of condition stands once: see help break";

/// The kinds of events.
const KINDS: &str = "tcpsim: kinds are start, rto, delack, free, data, ack: see help kinds";

/// The phases of a sender.
const PHASES: &str = "tcpsim: phases are ss, ca, fr: see help values";

/// The values of which a change is a condition.
const CHANGES: &str =
    "tcpsim: changes are of cwnd F, flight F, ssthresh F, una F, nxt F, rto F, dups F, next F: see help values";

/// The signs of conditions on values.
const SIGNS: &str = "tcpsim: signs are <, <=, >, >=, =, as cwnd<3000: see help values";

/// That a number is expected.
const NUMBER: &str = "tcpsim: a number is expected, as 3000, with no unit: see help values";

/// The parts of a state.
const PARTS: &str = "tcpsim: parts of a state are node N, link L, flow F: see help state";

/// What help is there of.
const TOPICS: &str =
    "tcpsim: help is of a command, or of numbers, trace, kinds, stall, values: see help";

/// Where the numbers of breakpoints, and of displays, are.
const BREAKS: &str = "tcpsim: breaks lists the breakpoints with their numbers";

const DISPLAYED: &str = "tcpsim: display lists the displays with their numbers";

/// How `why` and `stalls` are used.
const WHY: &str = "tcpsim: why F tells what flow F waits for, as why 0: see help why";

const STALLS: &str = "tcpsim: stalls lists those of all flows, and stands alone: see help stalls";

/// What does here what a word does in other debuggers.
fn of_other_debuggers(word: &[u8]) -> Option<&'static str> {
    if word.is_empty() {
        None
    } else if b"print".starts_with(word) {
        Some(
            "tcpsim: display shows a value after each move, state flow F all of a flow, state link L of a link: see help display",
        )
    } else if b"watch".starts_with(word) {
        Some("tcpsim: break stops where a line meets conditions: see help break")
    } else if b"info".starts_with(word) {
        Some("tcpsim: state shows the state, where the position, breaks the breakpoints: see help")
    } else {
        None
    }
}

/// What there is in the place of what a line of a command has, or lacks.
fn advice(code: Refusal, command: Option<CommandName>) -> Option<&'static str> {
    match (code, command?) {
        (Refusal::B1 | Refusal::B2, CommandName::Display) => Some(DISPLAYS),
        (Refusal::B1 | Refusal::B2, CommandName::State) => Some(PARTS),
        (Refusal::B1, CommandName::Help) => Some(TOPICS),
        (Refusal::B2 | Refusal::B3, CommandName::Until | CommandName::Goto) => Some(UNITS),
        (Refusal::B2, CommandName::Why) => Some(WHY),
        (Refusal::B2, CommandName::Stalls) => Some(STALLS),
        (Refusal::B2 | Refusal::B5, CommandName::Delete) => Some(BREAKS),
        (Refusal::B2 | Refusal::B5, CommandName::Undisplay) => Some(DISPLAYED),
        _ => None,
    }
}

/// Tells what there is in the place of a line that names no command.
fn tell_instead<N: Notes>(alloc: Global, line: &[u8], notes: &mut N) {
    match of_other_debuggers(first_word(line)) {
        Some(advice) => notes.refusal_means(advice),
        None => tell_nearest(alloc, line, notes),
    }
}

/// A sort of parts, as one of them is told of.
fn one_of(sort: PartSort) -> &'static str {
    match sort {
        PartSort::Node => "a node",
        PartSort::Link => "a link",
        PartSort::Flow => "a flow",
    }
}

/// Which sort of part it is that a word names.
fn reported_sort(alloc: Global, found: &Misnamed<'_>) -> Result<String, AllocError> {
    let word = shown_bytes(alloc, found.word)?;
    let mut reported = String::new(alloc);
    write!(
        reported,
        "tcpsim: {word} is {}: see help numbers",
        one_of(found.sort)
    )?;
    Ok(reported)
}

/// Tells of the first name that is of a part of another sort than is asked for there, if there is one and memory to say it.
fn tell_misnamed<N: Notes>(alloc: Global, refused: &Refused<'_>, notes: &mut N) {
    if let Some(found) = refused.misnamed {
        if let Ok(reported) = reported_sort(alloc, &found) {
            notes.refusal_means(reported.as_str());
        }
    }
}

/// Tells which numbers nodes, links and flows have.
fn tell_numbers<N: Notes>(naming: &Naming, notes: &mut N) {
    notes.numbers(&Numbers {
        nodes: naming.limits.nodes,
        links: naming.limits.links,
        flows: naming.limits.flows,
    });
}

/// Tells what is expected at the first word that does not fit.
fn tell_expected<N: Notes>(naming: &Naming, expected: Option<Expected>, notes: &mut N) {
    match expected {
        None => {}
        Some(Expected::Sort) => notes.refusal_means(CONDITIONS),
        Some(Expected::OtherSort) => notes.refusal_means(ONCE),
        Some(Expected::Part) => tell_numbers(naming, notes),
        Some(Expected::Kind) => notes.refusal_means(KINDS),
        Some(Expected::Phase) => notes.refusal_means(PHASES),
        Some(Expected::Changing) => notes.refusal_means(CHANGES),
        Some(Expected::Sign) => notes.refusal_means(SIGNS),
        Some(Expected::Time) => notes.refusal_means(UNITS),
        Some(Expected::Number) => notes.refusal_means(NUMBER),
    }
}

/// Tells what would fit, where a line says no command.
fn tell_fitting<N: Notes>(alloc: Global, naming: &Naming, refused: &Refused<'_>, notes: &mut N) {
    if matches!(refused.code, Refusal::B3) {
        tell_misnamed(alloc, refused, notes);
    }
    tell_expected(naming, refused.expected, notes);
}

/// Tells that a line is refused, and what that means; where it names no command, the nearest one, or what does the same
/// here; and what there is in the place of what the line has.
pub(crate) fn tell_refused<N: Notes>(
    alloc: Global,
    naming: &Naming,
    line: &[u8],
    refused: &Refused<'_>,
    notes: &mut N,
) {
    let text = refused.code.line();
    notes.line_refused(text);
    if let Some(code) = code_in(text) {
        if let Some(meaning) = meaning_of(code) {
            notes.refusal_means(meaning);
        }
    }
    if line.len() > MOST_LINE {
        return;
    }
    let command = command_begun(line);
    match (refused.code, command) {
        (Refusal::B1, None) => tell_instead(alloc, line, notes),
        (Refusal::B1 | Refusal::B2, Some(CommandName::Break)) => {
            tell_fitting(alloc, naming, refused, notes);
        }
        _ => match advice(refused.code, command) {
            Some(advice) => notes.refusal_means(advice),
            None => {
                if matches!(refused.code, Refusal::B3) {
                    tell_fitting(alloc, naming, refused, notes);
                }
            }
        },
    }
}
