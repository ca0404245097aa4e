//! What to write instead of a byte or a word of a text that is refused.

use crate::numbers::{COUNTED, Counted, meant};
use scenario_asm::{Fault, FaultPlace, Part};
use std::alloc::AllocError;

/// How captures of packets begin: pcap of either byte order, in microseconds and in nanoseconds, and pcapng.
const CAPTURES: [[u8; 4]; 5] = [
    *b"\xd4\xc3\xb2\xa1",
    *b"\xa1\xb2\xc3\xd4",
    *b"\x4d\x3c\xb2\xa1",
    *b"\xa1\xb2\x3c\x4d",
    *b"\x0a\x0d\x0d\x0a",
];

/// The longest name, in bytes.
const LONGEST_NAME: usize = 15;

/// The words that have to be one of some words: of which statement, at which place, counted from 0, and a
/// sentence with these words.
const CHOSEN: [(&str, usize, &str); 4] = [
    (
        "node",
        2,
        "the kind of a node is sender, receiver or router",
    ),
    ("link", 6, "the kind of a queue is droptail or codel"),
    ("flow", 9, "the recovery of a flow is reno or newreno"),
    ("flow", 10, "the initial window of a flow is iw3 or iw10"),
];

/// The statements, each with the beginning of a sentence on how many words it has.
const FORMS: [(&str, &str); 6] = [
    ("sim", "sim END is 2 words"),
    ("node", "node NAME KIND is 3 words"),
    (
        "link",
        "link NAME FROM TO RATE DELAY droptail CAP is 8 words, with codel CAP TARGET INTERVAL MAXPACKET 11",
    ),
    (
        "flow",
        "flow NAME SENDER RECEIVER MSS SEGMENTS START RWND DELACK is 9 words, with a variant 11",
    ),
    ("route", "route ROUTER DEST LINK is 4 words"),
    ("lose", "lose LINK NUMBER is 3 words"),
];

/// A word that is refused.
#[derive(Clone, Copy)]
struct Wrong<'a> {
    /// The first word of its line.
    statement: &'a [u8],
    /// Which word it is, counted from 0.
    place: usize,
    word: &'a [u8],
}

/// Whether a byte parts words.
fn is_space(byte: &u8) -> bool {
    *byte == b' '
}

/// A line without its comment.
fn statement_in(line: &[u8]) -> &[u8] {
    line.split(|byte| *byte == b'#').next().unwrap_or(line)
}

/// How many words these bytes have.
fn count_words(bytes: &[u8]) -> usize {
    bytes
        .split(is_space)
        .filter(|word| !word.is_empty())
        .count()
}

/// The first word of a line.
fn statement_of(line: &[u8]) -> &[u8] {
    line.split(is_space)
        .find(|word| !word.is_empty())
        .unwrap_or(line)
}

/// The word of a line between these places.
fn wrong_word<'a>(line: &'a [u8], place: usize, start: usize, end: usize) -> Wrong<'a> {
    let last = end.min(line.len());
    Wrong {
        statement: statement_of(line),
        place,
        word: &line[start.min(last)..last],
    }
}

/// The word of a line in which this byte is; none in its comment.
fn word_around(line: &[u8], at: usize) -> Option<Wrong<'_>> {
    let mut start = 0usize;
    let mut place = 0usize;
    for word in statement_in(line).split(is_space) {
        let end = start.saturating_add(word.len());
        if start <= at && at < end {
            return Some(wrong_word(line, place, start, end));
        }
        if !word.is_empty() {
            place = place.saturating_add(1);
        }
        start = end.saturating_add(1);
    }
    None
}

/// The number that a word of this place has to be; none where it is another word.
fn counted_at(wrong: &Wrong) -> Option<Counted> {
    for row in &COUNTED {
        if row.statement.as_bytes() == wrong.statement && row.place == wrong.place {
            return Some(*row);
        }
    }
    None
}

/// What to write instead of this byte, which is not printable.
fn byte_sentence(text: &[u8], byte: u8) -> Option<&'static str> {
    if CAPTURES.iter().any(|begin| text.starts_with(begin)) {
        Some("this is a capture of packets (pcap), and tcpsim reads scenarios")
    } else if byte == b'\t' {
        Some("words are parted by spaces: write a space for each tab")
    } else if byte == b'\r' {
        Some(
            "lines end in a line feed alone, not CRLF: tr -d '\\r' takes the carriage returns away",
        )
    } else {
        None
    }
}

/// Adds what a name is, and the nearest name to a word that is none.
fn push_name(shown: &mut String, word: &[u8]) -> Result<(), AllocError> {
    shown.push_str("a name is a small letter and then up to 14 small letters or digits")?;
    if !word.iter().any(|byte| byte.is_ascii_alphabetic()) {
        return Ok(());
    }
    shown.push_str(": write ")?;
    let mut kept = 0;
    for byte in word {
        let is_kept = byte.is_ascii_alphabetic() || kept > 0 && byte.is_ascii_digit();
        if is_kept && kept < LONGEST_NAME {
            shown.push(char::from(byte.to_ascii_lowercase()))?;
            kept += 1;
        }
    }
    Ok(())
}

/// Adds what a number is, and the number that a word means which is none, if it means one in range.
fn push_number(shown: &mut String, row: &Counted, word: Option<&[u8]>) -> Result<(), AllocError> {
    let (name, unit, more) = (row.name, row.unit.plural(), row.more);
    let (least, greatest) = (row.least, row.greatest);
    write!(
        shown,
        "{name} is a whole number of {unit}, {least} to {greatest}{more}"
    )?;
    match word.and_then(|word| meant(row, word)) {
        Some(number) => write!(shown, ": write {number}"),
        None => Ok(()),
    }
}

/// Adds what a word of this place is, of another form or out of its range.
fn push_word(shown: &mut String, wrong: &Wrong, fault: Fault) -> Result<(), AllocError> {
    if let Some(row) = counted_at(wrong) {
        let word = matches!(fault, Fault::E4).then_some(wrong.word);
        return push_number(shown, &row, word);
    }
    for (statement, place, sentence) in CHOSEN {
        if statement.as_bytes() == wrong.statement && place == wrong.place {
            return shown.push_str(sentence);
        }
    }
    push_name(shown, wrong.word)
}

/// Adds what to write instead of a byte that is not printable, or of its word, where that means a number. Answers whether
/// there is such a thing.
fn push_byte(shown: &mut String, text: &[u8], line: &[u8], at: usize) -> Result<bool, AllocError> {
    if let Some(sentence) = byte_sentence(text, line.get(at).copied().unwrap_or(0)) {
        shown.push_str(sentence)?;
        return Ok(true);
    }
    if let Some(wrong) = word_around(line, at) {
        if let Some(row) = counted_at(&wrong) {
            if meant(&row, wrong.word).is_some() {
                push_number(shown, &row, Some(wrong.word))?;
                return Ok(true);
            }
        }
    }
    Ok(false)
}

/// Adds how many words a line's statement has, and how many the line.
fn push_form(shown: &mut String, line: &[u8]) -> Result<(), AllocError> {
    let statement = statement_in(line);
    for (first, sentence) in FORMS {
        if first.as_bytes() == statement_of(statement) {
            let words = count_words(statement);
            write!(shown, "{sentence}, and this line has {words}")?;
        }
    }
    Ok(())
}

/// Adds a line that says what to write instead of what is wrong with a text's line, where that can be said of it alone.
pub(crate) fn push_advice(
    shown: &mut String,
    text: &[u8],
    place: &FaultPlace,
) -> Result<(), AllocError> {
    match (place.fault, place.part) {
        (Fault::E1, Part::Byte(at)) => {
            if !push_byte(shown, text, place.bytes, at)? {
                return Ok(());
            }
        }
        (Fault::E3, _) => push_form(shown, place.bytes)?,
        (Fault::E2, _) => shown.push_str("a statement is sim, node, link, flow, route or lose")?,
        (Fault::E4 | Fault::E5, Part::Word { number, start, end }) => {
            push_word(
                shown,
                &wrong_word(place.bytes, number, start, end),
                place.fault,
            )?
        }
        _ => return Ok(()),
    }
    shown.push('\n')
}
