//! Numbers that hardly change from one line to the next: their first digits are kept, and not made anew.
ghost use Rattle.std.specs.Prelude.{◌≡◌, ◌+◌, ◌-◌, ◌/◌, ◌%◌, ◌<◌, ◌≤◌, ◌++◌, ◌^◌, length, take, decimal};

use crate::digits::{write_group, write_two_groups};
use crate::forward::{write_number, write_text};

/// As many numbers have the same digits before their last three.
const THOUSAND: u64 = 1000;

/// As many have the same digits before their last six.
const MILLION: u64 = 1_000_000;

/// The least number of 19 digits.
const LONGEST: u64 = 1_000_000_000_000_000_000;

/// What a line can take from the one before it.
#[derive(Drop)]
pub(crate) struct Kept {
    /// Of its number.
    pub count: CountText,
    /// Of its time, in nanoseconds.
    pub time: TimeText,
}

impl Kept {
    /// Before the first line.
    pub(crate) fn new() -> Kept {
        Kept {
            count: CountText::new(),
            time: TimeText::new(),
        }
    }
}

/// The digits of a number before its last three.
#[derive(Drop)]
pub(crate) struct CountText {
    /// The least number that has these digits there.
    least: u64,
    /// The digits, and behind them what is to be written over.
    text: [u8; 16],
    /// How many digits they are.
    digits: usize,
    ghost short: { least < 10 ^ 18 },
    ghost whole: { least % 1000 ≡ 0 },
    ghost long: { 1000 ≤ least },
    ghost within: { digits ≤ 16 },
    ghost are: { take digits text ≡ decimal (least / 1000) },
}

impl CountText {
    /// Of the numbers from 1,000 on.
    fn new() -> CountText {
        CountText {
            least: THOUSAND,
            text: *b"1               ",
            digits: 1,
        }
    }

    /// Writes a number.
    #[inline(always)]
    pub(crate) fn write(&mut self, bytes: &mut [u8], at: usize, n: u64) -> usize
        requires room { at + 21 ≤ length bytes.old }
        ensures written { take result bytes.new ≡ take at bytes.old ++ decimal n }
        ensures above { at ≤ result }
        ensures short { result ≤ at + 20 }
    {
        let low = n.wrapping_sub(self.least);
        if low < THOUSAND {
            let at = write_kept(bytes, at, &self.text, self.digits);
            return write_group(bytes, at, low as u32);
        }
        if THOUSAND <= n && n < LONGEST {
            *self = CountText::of(n);
        }
        write_number(bytes, at, n)
    }

    /// Of a number and those that have the same digits there.
    #[inline(never)]
    fn of(n: u64) -> CountText
        requires long { 1000 ≤ n }
        requires short { n < 10 ^ 18 }
    {
        let high = n / THOUSAND;
        let (text, digits) = digits_of(high);
        CountText {
            least: high * THOUSAND,
            text,
            digits,
        }
    }
}

/// The digits of a number before its last six.
#[derive(Drop)]
pub(crate) struct TimeText {
    /// The least number that has these digits there.
    least: u64,
    /// The digits, and behind them what is to be written over.
    text: [u8; 16],
    /// How many digits they are.
    digits: usize,
    ghost short: { least < 10 ^ 18 },
    ghost whole: { least % 1000000 ≡ 0 },
    ghost long: { 1000000 ≤ least },
    ghost within: { digits ≤ 16 },
    ghost are: { take digits text ≡ decimal (least / 1000000) },
}

impl TimeText {
    /// Of the numbers from a million on.
    fn new() -> TimeText {
        TimeText {
            least: MILLION,
            text: *b"1               ",
            digits: 1,
        }
    }

    /// Writes a number.
    #[inline(always)]
    pub(crate) fn write(&mut self, bytes: &mut [u8], at: usize, n: u64) -> usize
        requires room { at + 23 ≤ length bytes.old }
        ensures written { take result bytes.new ≡ take at bytes.old ++ decimal n }
        ensures above { at ≤ result }
        ensures short { result ≤ at + 22 }
    {
        let low = n.wrapping_sub(self.least);
        if low < MILLION {
            let at = write_kept(bytes, at, &self.text, self.digits);
            return write_two_groups(bytes, at, low as u32);
        }
        if MILLION <= n && n < LONGEST {
            *self = TimeText::of(n);
        }
        write_number(bytes, at, n)
    }

    /// Of a number and those that have the same digits there.
    #[inline(never)]
    fn of(n: u64) -> TimeText
        requires long { 1000000 ≤ n }
        requires short { n < 10 ^ 18 }
    {
        let high = n / MILLION;
        let (text, digits) = digits_of(high);
        TimeText {
            least: high * MILLION,
            text,
            digits,
        }
    }
}

/// The digits of a number of at most 16, and how many they are.
fn digits_of(n: u64) -> ([u8; 16], usize)
    requires { n < 10 ^ 16 }
    ensures digits { take result.1 result.0 ≡ decimal n }
    ensures within { result.1 ≤ 16 }
{
    let mut bytes = [0; 24];
    let digits = write_number(&mut bytes, 0, n);
    let mut text = [0; 16];
    text.copy_from_slice(&bytes[..16]);
    (text, digits)
}

/// Writes so many bytes of a text.
#[inline(always)]
fn write_kept(bytes: &mut [u8], at: usize, text: &[u8; 16], digits: usize) -> usize
    requires within { digits ≤ 16 }
    requires room { at + 16 ≤ length bytes.old }
    ensures written { take result bytes.new ≡ take at bytes.old ++ take digits text.now }
    ensures end { result ≡ at + digits }
{
    write_text(bytes, at, text);
    at + digits
}
