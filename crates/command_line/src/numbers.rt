//! The numbers of a text's statements, and what is meant by a word that is none: 10s, 1.5ms, 10Mbit/s, 64k.

use scenario_image::limits::{
    GREATEST_MSS, GREATEST_RWND, LATEST_END, LONGEST_DELACK, LONGEST_DELAY, MOST_SEGMENTS,
};
use sim_time::rate::{GREATEST_RATE, LEAST_RATE};

/// The greatest number of two bytes.
const MOST_SHORT: u64 = 65_535;

/// What a number counts.
#[derive(Clone, Copy)]
pub(crate) enum Unit {
    Nanoseconds,
    BitsPerSecond,
    Bytes,
    Packets,
    Segments,
}

impl Unit {
    /// So many of them.
    pub(crate) fn plural(self) -> &'static str {
        match self {
            Unit::Nanoseconds => "nanoseconds",
            Unit::BitsPerSecond => "bits per second",
            Unit::Bytes => "bytes",
            Unit::Packets => "packets",
            Unit::Segments => "segments",
        }
    }
}

/// A number of a statement.
#[derive(Clone, Copy)]
pub(crate) struct Counted {
    pub statement: &'static str,
    /// Which word of the statement, counted from 0.
    pub place: usize,
    /// Its name in docs/FORMATS.md.
    pub name: &'static str,
    pub unit: Unit,
    pub least: u64,
    pub greatest: u64,
    /// What else bounds it.
    pub more: &'static str,
}

/// A row of the numbers: the statement, which of its words, its name, what it counts, its range, and what else bounds it.
macro_rules! counted {
    ($statement:literal, $place:literal, $name:literal, $unit:ident, $least:expr, $greatest:expr, $more:literal) => {
        Counted {
            statement: $statement,
            place: $place,
            name: $name,
            unit: Unit::$unit,
            least: $least,
            greatest: $greatest,
            more: $more,
        }
    };
}

/// The numbers of all statements.
pub(crate) const COUNTED: [Counted; 13] = [
    counted!("sim", 1, "END", Nanoseconds, 1, LATEST_END, ""),
    counted!(
        "link",
        4,
        "RATE",
        BitsPerSecond,
        LEAST_RATE,
        GREATEST_RATE,
        ""
    ),
    counted!("link", 5, "DELAY", Nanoseconds, 1, LONGEST_DELAY, ""),
    counted!("link", 7, "CAP", Packets, 1, MOST_SHORT, ""),
    counted!("link", 8, "TARGET", Nanoseconds, 1, LONGEST_DELAY, ""),
    counted!("link", 9, "INTERVAL", Nanoseconds, 1, LONGEST_DELAY, ""),
    counted!("link", 10, "MAXPACKET", Bytes, 1, MOST_SHORT, ""),
    counted!("flow", 4, "MSS", Bytes, 1, GREATEST_MSS as u64, ""),
    counted!("flow", 5, "SEGMENTS", Segments, 1, MOST_SEGMENTS as u64, ""),
    counted!(
        "flow",
        6,
        "START",
        Nanoseconds,
        0,
        LATEST_END - 1,
        ", and below END"
    ),
    counted!(
        "flow",
        7,
        "RWND",
        Bytes,
        1,
        GREATEST_RWND as u64,
        ", and at least MSS"
    ),
    counted!(
        "flow",
        8,
        "DELACK",
        Nanoseconds,
        0,
        LONGEST_DELACK as u64,
        ""
    ),
    counted!(
        "lose",
        2,
        "NUMBER",
        Packets,
        1,
        MOST_SEGMENTS as u64,
        ", and above the link's last one"
    ),
];

/// A number as it is written, up to its unit.
#[derive(Clone, Copy)]
struct Written<'a> {
    /// Its digits, without a point.
    digits: u64,
    /// How many of them are behind the point.
    decimals: u32,
    /// What is behind its digits.
    unit: &'a [u8],
}

/// The units of times, each with the power of ten by which it is longer than a nanosecond. Microseconds have
/// the micro sign too, and the Greek letter.
const TIMES: [(&str, u32); 7] = [
    ("", 0),
    ("ns", 0),
    ("us", 3),
    ("\u{b5}s", 3),
    ("\u{3bc}s", 3),
    ("ms", 6),
    ("s", 9),
];

/// What stands behind the prefix of a rate.
const RATES: [&str; 8] = ["", "b", "bit", "bits", "bps", "b/s", "bit/s", "bits/s"];

/// What stands behind the prefix of a size.
const SIZES: [&str; 3] = ["", "B", "bytes"];

/// The number with which a word begins, where it begins with one that is small enough.
fn read_number(word: &[u8]) -> Option<Written<'_>> {
    let mut number = Written {
        digits: 0,
        decimals: 0,
        unit: &[],
    };
    if !word.first()?.is_ascii_digit() {
        return None;
    }
    let mut has_point = false;
    for (at, byte) in word.iter().enumerate() {
        let digit = byte.wrapping_sub(b'0');
        if digit < 10 {
            number.digits = number
                .digits
                .checked_mul(10)?
                .checked_add(u64::from(digit))?;
            number.decimals = number.decimals.checked_add(u32::from(has_point))?;
        } else if *byte == b'.' && !has_point {
            has_point = true;
        } else {
            number.unit = &word[at..];
            return Some(number);
        }
    }
    Some(number)
}

/// The power of ten of a unit's prefix; 0 of a byte that is none.
fn power_of_prefix(byte: u8) -> u32 {
    match byte {
        b'k' | b'K' => 3,
        b'm' | b'M' => 6,
        b'g' | b'G' => 9,
        b't' | b'T' => 12,
        _ => 0,
    }
}

/// The power of ten of a unit that is a prefix, or none, and one of these words.
fn power_with_prefix(unit: &[u8], words: &[&str]) -> Option<u32> {
    let power = unit.first().map_or(0, |byte| power_of_prefix(*byte));
    let word = if power == 0 { unit } else { unit.get(1..)? };
    words
        .iter()
        .any(|it| it.as_bytes() == word)
        .then_some(power)
}

/// The power of ten of a unit of times.
fn power_of_time(unit: &[u8]) -> Option<u32> {
    for (word, power) in TIMES {
        if word.as_bytes() == unit {
            return Some(power);
        }
    }
    None
}

/// The power of ten of an exponent: e9, E9 or e+09.
fn power_of_exponent(unit: &[u8]) -> Option<u32> {
    if !matches!(unit.first()?, b'e' | b'E') {
        return None;
    }
    let behind = unit.get(1..)?;
    let digits = behind.strip_prefix(b"+").unwrap_or(behind);
    if !digits.iter().all(|byte| byte.is_ascii_digit()) {
        return None;
    }
    let power = read_number(digits)?.digits;
    if power < 20 { Some(power as u32) } else { None }
}

/// The power of ten of what is behind a number's digits.
fn power_of(unit: Unit, behind: &[u8]) -> Option<u32> {
    let spelled = match unit {
        Unit::Nanoseconds => power_of_time(behind),
        Unit::BitsPerSecond => power_with_prefix(behind, &RATES),
        Unit::Bytes => power_with_prefix(behind, &SIZES),
        Unit::Packets | Unit::Segments => power_with_prefix(behind, &[""]),
    };
    spelled.or_else(|| power_of_exponent(behind))
}

/// A number times a power of ten, where that is whole and small enough.
fn scaled(number: &Written<'_>, power: u32) -> Option<u64> {
    let mut value = number.digits;
    for _ in number.decimals..power {
        value = value.checked_mul(10)?;
    }
    for _ in power..number.decimals {
        if value % 10 != 0 {
            return None;
        }
        value /= 10;
    }
    Some(value)
}

/// The number in its range that a word means, with a unit, a fraction or zeros in front.
pub(crate) fn meant(row: &Counted, word: &[u8]) -> Option<u64> {
    let number = read_number(word)?;
    let value = scaled(&number, power_of(row.unit, number.unit)?)?;
    (row.least <= value && value <= row.greatest).then_some(value)
}
